//! The lines and words of a text, for readers of other small languages too.

ghost use Rattle.std.specs.Prelude.{◌≡◌, ◌<◌, ◌≤◌, [], ◌∷◌, length, drop, MatchOption, Some, not, position, ◌==◌};
ghost use Rattle.std.specs.List.{slice_split, prefix_len, position_or_len};
ghost use Rattle.lzk_expr.specs.Texts.{lines, content, runs, is_plain, is_blank, is_feed, is_hash, IsRun, IsLine};

/// Whether a byte is a space, a tab or a carriage return.
pub fn is_blank(b: u8) -> bool
    ensures { result ≡ is_blank b }
{
    b == b' ' || b == b'\t' || b == b'\r'
}

// Where this byte first stands.
fn byte_at(line: &[u8], byte: u8) -> Option<usize>
    ensures { result ≡ position (λ b. b == byte) line.now }
{
    for i in 0..line.len() {
        if line[i] == byte {
            return Some(i);
        }
    }
    None
}

/// Where the first byte stands that is no blank.
pub fn word_at(bytes: &[u8]) -> Option<usize>
    ensures { result ≡ position is_plain bytes.now }
{
    for i in 0..bytes.len() {
        if !is_blank(bytes[i]) {
            return Some(i);
        }
    }
    None
}

/// What stands on a line before its comment.
pub fn content(line: &[u8]) -> &[u8]
    ensures { result.now ≡ content line.now }
{
    // Most lines have none, which is soon seen.
    if !line.contains(&b'#') {
        return line;
    }
    match byte_at(line, b'#') {
        Some(i) => &line[..i],
        None => line,
    }
}

/// How long the word is that the bytes begin with.
pub fn word_len(bytes: &[u8]) -> usize
    ensures len { result ≡ prefix_len is_plain bytes.now }
    ensures within { result ≤ length bytes.now }
{
    for i in 0..bytes.len() {
        if is_blank(bytes[i]) {
            return i;
        }
    }
    bytes.len()
}

/// The next word, and what is behind it.
pub fn next_word(bytes: &[u8]) -> Option<(&[u8], &[u8])>
    ensures { MatchOption result (runs is_plain bytes.now ≡ []) (λ x. IsRun is_plain bytes.now x.0.now x.1.now) }
{
    match word_at(bytes) {
        None => None,
        Some(start) => {
            let (_, word) = bytes.split_at(start);
            let len = word_len(word);
            Some(word.split_at(len))
        }
    }
}

/// The first line, and what is behind its line feed.
pub fn next_line(text: &[u8]) -> (&[u8], Option<&[u8]>)
    ensures { MatchOption result.1 (lines text.now ≡ result.0.now ∷ [])
        (λ rest. IsLine text.now result.0.now rest.now) }
{
    match byte_at(text, b'\n') {
        Some(i) => {
            let (line, _) = text.split_at(i);
            let (_, rest) = text.split_at(i + 1);
            (line, Some(rest))
        }
        None => (text, None),
    }
}
