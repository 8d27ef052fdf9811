//! The keys behind the names of `prove` and `verify`: a session, which must stand, and a number of workers.

ghost use Rattle.std.specs.Prelude.{◌≡◌, ◌≤◌, [], ◌∷◌, Some, length, map, string_bytes};
ghost use Rattle.std.specs.Option.{option_copied, option_map};
ghost use Rattle.lzk_cmd_words.specs.Digits.{session_of};
ghost use Rattle.lzk_credential_run.specs.Keys as keys;

use lzk_cmd_words::{behind, is_number, is_session};

/// The digits of a session of at most 64 bytes.
#[derive(Clone, Copy)]
pub(crate) struct Session<'a> {
    pub digits: &'a [u8],
    pub ghost short: { length (session_of (Some digits.now)) ≤ 64 },
}

/// A session, and the digits of a number of workers if they stand.
#[derive(Clone, Copy)]
pub(crate) struct Asked<'a> {
    pub session: Session<'a>,
    pub workers: Option<&'a [u8]>,
}

/// Whether a word begins as a key does.
pub(crate) fn is_key(word: &[u8]) -> bool
    ensures { result ≡ keys.is_key word.now }
{
    behind(b"session=", word).is_some() || behind(b"workers=", word).is_some()
}

/// The session that a word is.
#[tactic(auto, using(crate::proofs::Sessions::few))]
pub(crate) fn session_in(word: &[u8]) -> Option<Session<'_>>
    ensures { option_map (λ s. s.digits.now) result ≡ keys.session_in word.now }
{
    let digits = behind(b"session=", word)?;
    if !is_session(digits) {
        return None;
    }
    Some(Session { digits })
}

// The digits of a number of workers that a word is.
fn workers_in(word: &[u8]) -> Option<&[u8]>
    ensures { option_copied result ≡ keys.workers_in word.now }
{
    let text = behind(b"workers=", word)?;
    if is_number(text, 64) {
        Some(text)
    } else {
        None
    }
}

// The session of a word, where another is a number of workers.
fn session_with<'a>(one: &'a [u8], other: &'a [u8]) -> Option<Asked<'a>>
    ensures { option_map (λ a. a.session.digits.now) result ≡ keys.session_with one.now other.now }
{
    let session = session_in(one)?;
    let workers = workers_in(other)?;
    Some(Asked {
        session,
        workers: Some(workers),
    })
}

// The session of a word alone.
fn session_alone(word: &[u8]) -> Option<Asked<'_>>
    ensures { option_map (λ a. a.session.digits.now) result ≡ keys.session_in word.now }
{
    let session = session_in(word)?;
    Some(Asked {
        session,
        workers: None,
    })
}

/// What words ask that are a session, or one and a number of workers, in any order.
pub(crate) fn asked_in(words: &[String]) -> Option<Asked<'_>>
    ensures { option_map (λ a. a.session.digits.now) result ≡ keys.asked_in (map (λ w. string_bytes w) words.now) }
{
    match words {
        [] => None,
        [one] => session_alone(one.as_bytes()),
        [one, other] => match session_with(one.as_bytes(), other.as_bytes()) {
            Some(asked) => Some(asked),
            None => session_with(other.as_bytes(), one.as_bytes()),
        },
        [_, _, _, ..] => None,
    }
}
