//! The keys behind the names.

ghost use Rattle.std.specs.Prelude.{◌≡◌, map, string_bytes};
ghost use Rattle.std.specs.Option.{option_map, option_copied};
ghost use Rattle.lzk_cmd_words.specs.Keys as texts;
ghost use Rattle.lzk_cmd_words.specs.KeyViews.{keys_view};

/// The keys that stand, each with what is behind its `=`.
#[derive(Clone, Copy)]
pub(crate) struct Keys<'a> {
    pub seed: Option<&'a [u8]>,
    pub session: Option<&'a [u8]>,
    pub workers: Option<&'a [u8]>,
    pub message: Option<&'a [u8]>,
    pub version: Option<&'a [u8]>,
}

/// What stands behind a front, if the word has it.
pub fn behind<'a>(front: &[u8], word: &'a [u8]) -> Option<&'a [u8]>
    ensures { option_copied result ≡ texts.behind front.now word.now }
{
    if front.len() <= word.len() && &word[..front.len()] == front {
        Some(&word[front.len()..])
    } else {
        None
    }
}

fn are_hex(text: &[u8]) -> bool
    ensures { result ≡ texts.are_hex text.now }
{
    text.iter().all(|b| b.is_ascii_hexdigit())
}

fn are_digits(text: &[u8]) -> bool
    ensures { result ≡ texts.are_digits text.now }
{
    text.iter().all(|b| b.is_ascii_digit())
}

fn is_seed(text: &[u8]) -> bool
    ensures { result ≡ texts.is_seed text.now }
{
    text.len() == 64 && are_hex(text)
}

/// Whether a text is the digits of a session of at most 64 bytes, two for each byte.
pub fn is_session(text: &[u8]) -> bool
    ensures { result ≡ texts.is_session text.now }
{
    text.len() % 2 == 0 && text.len() <= 128 && are_hex(text)
}

fn is_message(text: &[u8]) -> bool
    ensures { result ≡ texts.is_message text.now }
{
    text.len() % 2 == 0 && text.len() <= 110 && are_hex(text)
}

fn is_version(text: &[u8]) -> bool
    ensures { result ≡ texts.is_version text.now }
{
    text == "1".as_bytes() || text == "2".as_bytes()
}

/// The number of these digits, if it is no more than `most`.
pub fn number_up_to(text: &[u8], most: u32) -> Option<u32>
    ensures { result ≡ texts.number_up_to most text.now }
{
    let mut number = 0u64;
    for i in 0..text.len() {
        number = 10 * number + u64::from(text[i].saturating_sub(48));
        if number > u64::from(most) {
            return None;
        }
    }
    Some(number as u32)
}

/// Whether a text is 1 to 9 digits of a number from 1 to `most`.
pub fn is_number(text: &[u8], most: u32) -> bool
    ensures { result ≡ texts.is_number most text.now }
{
    if text.is_empty() || text.len() > 9 || !are_digits(text) {
        return false;
    }
    match number_up_to(text, most) {
        Some(number) => number != 0,
        None => false,
    }
}

/// Whether a text is 1 to 9 digits of a number up to `most`.
pub(crate) fn is_count(text: &[u8], most: u32) -> bool
    ensures { result ≡ texts.is_count most text.now }
{
    if text.is_empty() || text.len() > 9 || !are_digits(text) {
        return false;
    }
    number_up_to(text, most).is_some()
}

// The keys with a seed that stood nowhere before.
fn with_seed<'a>(keys: Keys<'a>, text: &'a [u8]) -> Option<Keys<'a>>
    ensures { option_map keys_view result ≡ texts.with_seed (keys_view keys.entry) text.now }
{
    if keys.seed.is_none() && is_seed(text) {
        Some(Keys {
            seed: Some(text),
            ..keys
        })
    } else {
        None
    }
}

fn with_session<'a>(keys: Keys<'a>, text: &'a [u8]) -> Option<Keys<'a>>
    ensures { option_map keys_view result ≡ texts.with_session (keys_view keys.entry) text.now }
{
    if keys.session.is_none() && is_session(text) {
        Some(Keys {
            session: Some(text),
            ..keys
        })
    } else {
        None
    }
}

fn with_workers<'a>(keys: Keys<'a>, text: &'a [u8]) -> Option<Keys<'a>>
    ensures { option_map keys_view result ≡ texts.with_workers (keys_view keys.entry) text.now }
{
    if keys.workers.is_none() && is_number(text, 64) {
        Some(Keys {
            workers: Some(text),
            ..keys
        })
    } else {
        None
    }
}

fn with_message<'a>(keys: Keys<'a>, text: &'a [u8]) -> Option<Keys<'a>>
    ensures { option_map keys_view result ≡ texts.with_message (keys_view keys.entry) text.now }
{
    if keys.message.is_none() && is_message(text) {
        Some(Keys {
            message: Some(text),
            ..keys
        })
    } else {
        None
    }
}

fn with_version<'a>(keys: Keys<'a>, text: &'a [u8]) -> Option<Keys<'a>>
    ensures { option_map keys_view result ≡ texts.with_version (keys_view keys.entry) text.now }
{
    if keys.version.is_none() && is_version(text) {
        Some(Keys {
            version: Some(text),
            ..keys
        })
    } else {
        None
    }
}

// The keys with that of one more word.
fn with_key<'a>(keys: Keys<'a>, word: &'a [u8]) -> Option<Keys<'a>>
    ensures { option_map keys_view result ≡ texts.with_key (keys_view keys.entry) word.now }
{
    if let Some(text) = behind("seed=".as_bytes(), word) {
        return with_seed(keys, text);
    }
    if let Some(text) = behind("session=".as_bytes(), word) {
        return with_session(keys, text);
    }
    if let Some(text) = behind("workers=".as_bytes(), word) {
        return with_workers(keys, text);
    }
    if let Some(text) = behind("message=".as_bytes(), word) {
        return with_message(keys, text);
    }
    if let Some(text) = behind("version=".as_bytes(), word) {
        return with_version(keys, text);
    }
    None
}

/// The keys of these words, each of which is one key, and stands once.
pub(crate) fn keys_of(words: &[String]) -> Option<Keys<'_>>
    ensures { option_map keys_view result ≡ texts.keys_of (map (λ w. string_bytes w) words.now) }
{
    let mut keys = Keys {
        seed: None,
        session: None,
        workers: None,
        message: None,
        version: None,
    };
    for i in 0..words.len() {
        let Some(next) = with_key(keys, words[i].as_bytes()) else {
            return None;
        };
        keys = next;
    }
    Some(keys)
}
