//! Reading the list of a batch.

ghost use Rattle.std.specs.Prelude.{◌≡◌, ◌≤◌, List, length, map, Ok, Err, IfOk, IfErr, MatchResult};
ghost use Rattle.std.specs.Option.{option_map};
ghost use Rattle.lzk_expr.specs.Texts.{runs, is_plain};
ghost use Rattle.lzk_batch.specs.Lists.{Listed, entry_view, session_bytes, session_of, line_entry, with_line, entries_of, Fails, ListText, IsFirstFault};
ghost use Rattle.lzk_batch.specs.declared.list_fault.ListError.TheVariants.{OutOfMemory};

use crate::entry::Entry;
use crate::list_fault::{ListError, ListFault, ListKind};
use crate::words::{behind, is_skipped, next_word};
use hex::FromHexError;
use lzk_expr::words::next_line;
use std::alloc::{AllocError, Global};
use std::str;

/// The most jobs of a list.
const MOST_ENTRIES: usize = 256;

/// The most digits of a session.
const MOST_DIGITS: usize = 128;

// The bytes of a session's digits.
fn read_digits(alloc: Global, digits: &[u8]) -> Result<Option<Vec<u8>>, AllocError>
    ensures { IfOk result (λ o. option_map (λ v. v.items) o ≡ session_bytes digits.now) }
{
    if digits.len() > MOST_DIGITS {
        return Ok(None);
    }
    match hex::decode(alloc, digits) {
        Ok(bytes) => Ok(Some(bytes)),
        Err(FromHexError::OutOfMemory) => Err(AllocError),
        Err(_) => Ok(None),
    }
}

// The bytes of the session that stands behind the names, if nothing else does.
fn read_session(alloc: Global, others: &str) -> Result<Option<Vec<u8>>, AllocError>
    ensures { IfOk result (λ o. option_map (λ v. v.items) o ≡ session_of (runs is_plain others.now)) }
{
    let Some((word, rest)) = next_word(others) else {
        return Ok(Some(Vec::new(alloc)));
    };
    if next_word(rest).is_some() {
        return Ok(None);
    }
    match behind("session=".as_bytes(), word.as_bytes()) {
        Some(digits) => read_digits(alloc, digits),
        None => Ok(None),
    }
}

// The job of a line, if it has one.
fn read_line(alloc: Global, line: &[u8]) -> Result<Option<Entry>, AllocError>
    ensures { IfOk result (λ o. option_map entry_view o ≡ line_entry line.now) }
{
    let Ok(text) = str::from_utf8(line) else {
        return Ok(None);
    };
    let Some((circuit, rest)) = next_word(text) else {
        return Ok(None);
    };
    let Some((public, rest)) = next_word(rest) else {
        return Ok(None);
    };
    let Some((proof, others)) = next_word(rest) else {
        return Ok(None);
    };
    let Some(session) = read_session(alloc, others)? else {
        return Ok(None);
    };
    Ok(Some(Entry {
        circuit: circuit.to_string(alloc)?,
        public: public.to_string(alloc)?,
        proof: proof.to_string(alloc)?,
        session,
    }))
}

// Takes the job of one more line.
fn take_line(
    alloc: Global,
    line: u32,
    bytes: &[u8],
    entries: &mut Vec<Entry>,
) -> Result<(), ListError>
    ensures { MatchResult result
        (λ _. with_line line bytes.now (map entry_view entries.old.items) ≡ Ok (map entry_view entries.new.items))
        (λ e. Fails e (with_line line bytes.now (map entry_view entries.old.items))) }
{
    if is_skipped(bytes) {
        return Ok(());
    }
    if entries.len() >= MOST_ENTRIES {
        return Err(ListError::Fault(ListFault {
            line,
            kind: ListKind::Limit,
        }));
    }
    let Ok(read) = read_line(alloc, bytes) else {
        return Err(ListError::OutOfMemory);
    };
    let Some(entry) = read else {
        return Err(ListError::Fault(ListFault {
            line,
            kind: ListKind::Syntax,
        }));
    };
    let Ok(()) = entries.push(entry) else {
        return Err(ListError::OutOfMemory);
    };
    Ok(())
}

/// The jobs of a list, as docs/FORMATS.md has it. The text has at most 65,536 bytes.
///
/// # Errors
///
/// `Fault` with the first line that breaks a rule. `OutOfMemory` may come at any time.
pub fn parse_list(alloc: Global, text: &[u8]) -> Result<Vec<Entry>, ListError>
    requires { length text.now ≤ 65536 }
    ensures entries { IfOk result (λ v. ListText text.now (map entry_view v.items)) }
    ensures only { (entries : List Listed) → ListText text.now entries
        → MatchResult result (λ v. map entry_view v.items ≡ entries) (λ e. e ≡ OutOfMemory) }
    ensures fault { IfErr result (IsFirstFault text.now) }
    ensures read { IfOk result (λ v. entries_of text.now ≡ Ok (map entry_view v.items)) }
{
    let mut entries = Vec::new(alloc);
    let mut left = Some(text);
    let mut line = 1u32;
    while let Some(behind) = left {
        let (bytes, after) = next_line(behind);
        take_line(alloc, line, bytes, &mut entries)?;
        left = after;
        line += 1;
    }
    Ok(entries)
}
