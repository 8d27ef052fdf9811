//! Runs, with what they answer and print.

use crate::policy::files::{
    FILES, PRIVATE_DIGEST, PUBLIC, RANDOM, ROOT_PRIVATE_DIGEST, ROOT_PUBLIC, SEALED_PRIVATE_DIGEST,
    SEALED_PUBLIC, SEALED_ROOT_PRIVATE_DIGEST, SEALED_ROOT_PUBLIC,
};
use lzk_credential_run::run;
use lzk_field::Open;
use lzk_outside_memory::{MemShelf, MemSink};
use sha2::{Digest, Sha256};
use std::alloc::{AllocError, Global};
use std::marker::Sync;
use std::test::Fail;
use std::thread::Threads;

// Of a run the words, the status that it answers, and what it prints.
const RUNS: [(&str, u8, &str); 47] = [
    (
        "show p",
        0,
        "the SHA-256 digest of the record\nbirth is at most LATEST\nuntil is at least TODAY\n\
        country is COUNTRY\ncountry is one of BE NL\na pseudonym of secret for SERVICE\n",
    ),
    (
        "show p_bytes",
        0,
        "the SHA-256 digest of the record\n\\xc3\\xa9\\x5ca is one of \\xc3\\xa9 NL\n",
    ),
    (
        "digest p r",
        0,
        "e3f95c6ff6ffb48e2c78b7f46343b1f01d40ea42156f2566910b95cc985c47e5\n",
    ),
    ("circuit p c", 0, "put\n"),
    ("inputs p r v x y", 0, "put\n"),
    ("inputs p r v_own x y", 0, "put\n"),
    ("circuit p", 2, "refused: words\n"),
    ("", 2, "refused: words\n"),
    ("circuit q c", 3, "refused: q is missing\n"),
    ("show p_place", 3, "refused: p_place at line 2: Place\n"),
    (
        "digest p r_short",
        3,
        "refused: r_short has 4 bytes and not 47\n",
    ),
    (
        "digest p r_long",
        3,
        "refused: r_long is larger than 47 bytes\n",
    ),
    (
        "inputs p r v_syntax x y",
        3,
        "refused: v_syntax at line 1: Syntax\n",
    ),
    (
        "inputs p r v_unknown x y",
        3,
        "refused: v_unknown at line 2: Unknown\n",
    ),
    (
        "inputs p r v_repeated x y",
        3,
        "refused: v_repeated at line 1: Repeated\n",
    ),
    (
        "inputs p r v_date x y",
        3,
        "refused: v_date at line 1: Value\n",
    ),
    (
        "inputs p r v_digits x y",
        3,
        "refused: v_digits at line 1: Value\n",
    ),
    (
        "inputs p r v_missing x y",
        3,
        "refused: v_missing has no value: until is at least TODAY\n",
    ),
    (
        "inputs p r v_text x y",
        3,
        "refused: v_text at line 3: Value\n",
    ),
    (
        "inputs p r v_tag x y",
        3,
        "refused: v_tag at line 3: Value\n",
    ),
    (
        "inputs p r v_other x y",
        3,
        "not true: country is COUNTRY\n",
    ),
    (
        "inputs p r v_young x y",
        3,
        "not true: birth is at most LATEST\n",
    ),
    (
        "inputs p r v_far x y",
        3,
        "not true: birth is at most LATEST\n",
    ),
    (
        "inputs p r v_expired x y",
        3,
        "not true: until is at least TODAY\n",
    ),
    (
        "show u",
        0,
        "a root, levels above the SHA-256 digest of the record: 3\nbirth is at most LATEST\n\
        until is at least TODAY\ncountry is COUNTRY\ncountry is one of BE NL\na pseudonym of secret for SERVICE\n",
    ),
    (
        "digest u r",
        0,
        "e3f95c6ff6ffb48e2c78b7f46343b1f01d40ea42156f2566910b95cc985c47e5\n",
    ),
    ("circuit u c", 0, "put\n"),
    ("circuit u_eight c", 0, "put\n"),
    (
        "circuit u_nine c",
        3,
        "refused: u_nine: its circuit would pass a limit\n",
    ),
    (
        "show u_nine",
        3,
        "refused: u_nine: its circuit would pass a limit\n",
    ),
    (
        "digest u_nine r",
        3,
        "refused: u_nine: its circuit would pass a limit\n",
    ),
    (
        "inputs u_nine r v x y",
        3,
        "refused: u_nine: its circuit would pass a limit\n",
    ),
    ("inputs u r v t x y", 0, "put\n"),
    (
        "inputs u r v x y",
        3,
        "refused: u shows a root, and there is no path\n",
    ),
    (
        "inputs p r v t x y",
        3,
        "refused: p shows a digest, and there is a path\n",
    ),
    (
        "inputs p_place r v t x y",
        3,
        "refused: p_place at line 2: Place\n",
    ),
    ("inputs u r v q x y", 3, "refused: q is missing\n"),
    (
        "inputs u r v t_none x y",
        3,
        "refused: t_none has no leaf\n",
    ),
    (
        "inputs u r v t_two_words x y",
        3,
        "refused: t_two_words at line 1: Syntax\n",
    ),
    (
        "inputs u r v t_leaf x y",
        3,
        "refused: t_leaf at line 2: Value\n",
    ),
    (
        "inputs u r v t_hex x y",
        3,
        "refused: t_hex at line 1: Value\n",
    ),
    (
        "inputs u r v t_name x y",
        3,
        "refused: t_name at line 1: Value\n",
    ),
    (
        "inputs u r v t_node x y",
        3,
        "refused: t_node at line 2: Value\n",
    ),
    (
        "inputs u r v t_few x y",
        3,
        "refused: t_few has 0 nodes and not 3\n",
    ),
    (
        "inputs u r v t_two x y",
        3,
        "refused: t_two has 2 nodes and not 3\n",
    ),
    (
        "inputs u r v t_row x y",
        3,
        "refused: t_row: its leaf is none of its row\n",
    ),
    (
        "inputs u r v_young t x y",
        3,
        "not true: birth is at most LATEST\n",
    ),
];

// The same with sealed secrets.
const SEALED_RUNS: [(&str, u8, &str); 18] = [
    (
        "show s",
        0,
        "the SHA-256 digest of the record\na pseudonym of owner for SERVICE\n",
    ),
    ("circuit s c", 0, "put\n"),
    ("circuit s_eight c", 0, "put\n"),
    ("circuit s_deep c", 0, "put\n"),
    (
        "circuit s_four c",
        3,
        "refused: s_four: its circuit would pass a limit\n",
    ),
    ("inputs s sr sv sk x y", 0, "put\n"),
    ("inputs s_under sr sv sk t x y", 0, "put\n"),
    (
        "inputs s sr sv x y",
        3,
        "refused: s has a sealed pseudonym, and there is no secret\n",
    ),
    (
        "inputs s_under sr sv x y",
        3,
        "refused: s_under has a sealed pseudonym, and there is no secret\n",
    ),
    (
        "inputs s_under sr sv sk x y",
        3,
        "refused: s_under shows a root, and there is no path\n",
    ),
    (
        "inputs s sr sv sk t x y",
        3,
        "refused: s shows a digest, and there is a path\n",
    ),
    (
        "inputs p r v sk t x y",
        3,
        "refused: p has no sealed pseudonym, and there is a secret\n",
    ),
    (
        "inputs u r v sk t x y",
        3,
        "refused: u has no sealed pseudonym, and there is a secret\n",
    ),
    ("inputs s sr sv q x y", 3, "refused: q is missing\n"),
    (
        "inputs s sr sv sk_short x y",
        3,
        "refused: sk_short has 15 bytes and not 16\n",
    ),
    (
        "inputs s sr sv sk_long x y",
        3,
        "refused: sk_long is larger than 16 bytes\n",
    ),
    (
        "inputs s sr sv_tag sk x y",
        3,
        "refused: sv_tag at line 1: Value\n",
    ),
    (
        "inputs s sr sv sk_other x y",
        3,
        "not true: a pseudonym of owner for SERVICE\n",
    ),
];

// Proofs, and those that are refused.
const PROVE_RUNS: [(&str, u8, &str); 14] = [
    ("prove p r v q", 2, "refused: words\n"),
    ("prove p r v q workers=1", 2, "refused: words\n"),
    ("prove p r v q session=00 session=00", 2, "refused: words\n"),
    ("prove p r v q session=00 workers=65", 2, "refused: words\n"),
    ("prove p r v q session=00 seed=00", 2, "refused: words\n"),
    (
        "prove u r v q session=00",
        3,
        "refused: u shows a root, and there is no path\n",
    ),
    (
        "prove s sr sv q session=00",
        3,
        "refused: s has a sealed pseudonym, and there is no secret\n",
    ),
    (
        "prove s_under sr sv sk q session=00",
        3,
        "refused: s_under shows a root, and there is no path\n",
    ),
    (
        "prove p r v sk t q session=00",
        3,
        "refused: p has no sealed pseudonym, and there is a secret\n",
    ),
    (
        "prove s sr sv sk_other q session=00 workers=2",
        3,
        "not true: a pseudonym of owner for SERVICE\n",
    ),
    ("prove s sr sv sk t z q session=00", 2, "refused: words\n"),
    (
        "prove p r v t q session=00",
        3,
        "refused: p shows a digest, and there is a path\n",
    ),
    (
        "prove p r v_expired q session=00 workers=2",
        3,
        "not true: until is at least TODAY\n",
    ),
    (
        "prove u r v t_two q workers=2 session=00",
        3,
        "refused: t_two has 2 nodes and not 3\n",
    ),
];

// Verdicts, and what was shown that is refused.
const VERIFY_RUNS: [(&str, u8, &str); 22] = [
    ("verify p told e", 2, "refused: words\n"),
    ("verify p told e session=0", 2, "refused: words\n"),
    ("verify p told e workers=1", 2, "refused: words\n"),
    (
        "verify p told e session=00 workers=1",
        2,
        "refused: words\n",
    ),
    ("verify q told e session=00", 3, "refused: q is missing\n"),
    ("verify p q e session=00", 3, "refused: q is missing\n"),
    ("verify p told q session=00", 3, "refused: q is missing\n"),
    (
        "verify p told_none e session=00",
        3,
        "refused: told_none has no value: the SHA-256 digest of the record\n",
    ),
    (
        "verify u told_none e session=00",
        3,
        "refused: told_none has no value: a root, levels above the SHA-256 digest of the record: 3\n",
    ),
    (
        "verify p told_root e session=00",
        3,
        "refused: told_root at line 1: Syntax\n",
    ),
    (
        "verify u told e session=00",
        3,
        "refused: told at line 2: Syntax\n",
    ),
    (
        "verify p told_word e session=00",
        3,
        "refused: told_word at line 1: Syntax\n",
    ),
    (
        "verify p told_digits e session=00",
        3,
        "refused: told_digits at line 1: Value\n",
    ),
    (
        "verify p told_values e session=00",
        3,
        "refused: told_values at line 3: Syntax\n",
    ),
    (
        "verify p told_pseudonym e session=00",
        3,
        "refused: told_pseudonym at line 2: Value\n",
    ),
    (
        "verify p told_head e session=00",
        3,
        "refused: told_head has no value: birth is at most LATEST\n",
    ),
    (
        "verify p told_own e session=00",
        3,
        "refused: told_own has no value: country is COUNTRY\n",
    ),
    (
        "verify p told_unknown e session=00",
        3,
        "refused: told_unknown at line 3: Unknown\n",
    ),
    (
        "verify u_nine told_two e session=00",
        3,
        "refused: u_nine: its circuit would pass a limit\n",
    ),
    (
        "verify p told e session=00",
        1,
        "rejected: format at byte 0: Truncated\n",
    ),
    (
        "verify s told_sealed_root e session=00",
        3,
        "refused: told_sealed_root at line 1: Syntax\n",
    ),
    (
        "verify s told_sealed e session=00",
        1,
        "rejected: format at byte 0: Truncated\n",
    ),
];

fn shelf_of(alloc: Global, failing: Vec<u64>) -> Result<MemShelf, AllocError> {
    let mut shelf = MemShelf::new(alloc, failing, None);
    for (name, bytes) in FILES {
        shelf.add(name, bytes)?;
    }
    Ok(shelf)
}

/// The status of a run, and what it prints.
pub fn ran<T: Threads + Sync>(
    threads: &T,
    alloc: Global,
    words: &str,
    shelf: &mut MemShelf,
) -> Result<(u8, MemSink), AllocError> {
    let mut list = Vec::new(alloc);
    for word in words.split_whitespace() {
        list.push(word.to_string(alloc)?)?;
    }
    let mut out = MemSink::new(alloc, Vec::new(alloc), 7);
    let status = run(threads, alloc, &list, shelf, &mut out, &Open);
    Ok((status, out))
}

// Whether all runs of a table end as listed.
fn end_as_listed<T: Threads + Sync>(
    threads: &T,
    alloc: Global,
    rows: &[(&str, u8, &str)],
) -> Result<bool, AllocError> {
    for (words, status, text) in rows {
        let mut shelf = shelf_of(alloc, Vec::new(alloc))?;
        let (found, out) = ran(threads, alloc, words, &mut shelf)?;
        if found != *status || out.bytes() != text.as_bytes() {
            return Ok(false);
        }
    }
    Ok(true)
}

#[test]
fn runs_end_as_listed(rt: HostRuntime) -> Result<(), Fail> {
    assert!(rt; end_as_listed(&rt, rt.alloc(), &RUNS)?);
    Ok(())
}

#[test]
fn runs_with_secrets_end_as_listed(rt: HostRuntime) -> Result<(), Fail> {
    assert!(rt; end_as_listed(&rt, rt.alloc(), &SEALED_RUNS)?);
    Ok(())
}

#[test]
fn proofs_end_as_listed(rt: HostRuntime) -> Result<(), Fail> {
    assert!(rt; end_as_listed(&rt, rt.alloc(), &PROVE_RUNS)?);
    Ok(())
}

#[test]
fn verdicts_end_as_listed(rt: HostRuntime) -> Result<(), Fail> {
    assert!(rt; end_as_listed(&rt, rt.alloc(), &VERIFY_RUNS)?);
    Ok(())
}

#[test]
fn inputs_are_those_of_another_implementation(rt: HostRuntime) -> Result<(), Fail> {
    let alloc = rt.alloc();
    for (words, public, digest) in [
        ("inputs p r v x y", PUBLIC, PRIVATE_DIGEST),
        ("inputs p r v_own x y", PUBLIC, PRIVATE_DIGEST),
        ("inputs u r v t x y", ROOT_PUBLIC, ROOT_PRIVATE_DIGEST),
        (
            "inputs s sr sv sk x y",
            SEALED_PUBLIC,
            SEALED_PRIVATE_DIGEST,
        ),
        (
            "inputs s_under sr sv sk t x y",
            SEALED_ROOT_PUBLIC,
            SEALED_ROOT_PRIVATE_DIGEST,
        ),
    ] {
        let mut shelf = shelf_of(alloc, Vec::new(alloc))?;
        ran(&rt, alloc, words, &mut shelf)?;
        assert!(rt; shelf.get("x") == Some(public));
        let private = shelf.get("y").unwrap_or(b"");
        let digits = hex::encode(alloc, &Sha256::digest(private))?;
        assert!(rt; digits.as_str() == digest);
    }
    Ok(())
}

// Each call of the shelf fails in turn: the status is that of the call, and what was there before stands.
#[test]
fn faults_are_told(rt: HostRuntime) -> Result<(), Fail> {
    let alloc = rt.alloc();
    for (words, call, status) in [
        ("show p", 0u64, 4u8),
        ("digest p r", 2, 4),
        ("circuit p c", 2, 5),
        ("inputs p r v x y", 4, 4),
        ("inputs p r v x y", 6, 5),
        ("inputs p r v x y", 7, 5),
        ("inputs u r v t x y", 2, 4),
        ("inputs u r v t x y", 8, 5),
        ("prove p r v q session=00", 6, 4),
        ("prove p r v q session=00", 7, 5),
        ("verify p told e session=00", 4, 4),
    ] {
        let mut failing = Vec::new(alloc);
        failing.push(call)?;
        let mut shelf = shelf_of(alloc, failing)?;
        let (found, _out) = ran(&rt, alloc, words, &mut shelf)?;
        assert_eq!(rt; found, status);
    }
    Ok(())
}

// A proof is put, and accepted for what was shown; for another digest it is rejected.
#[test]
fn proofs_are_accepted_for_what_was_shown(rt: HostRuntime) -> Result<(), Fail> {
    let alloc = rt.alloc();
    let mut shelf = shelf_of(alloc, Vec::new(alloc))?;
    for (words, status) in [
        ("prove p r v q workers=2 session=00", 0u8),
        ("verify p told q session=00", 0),
        ("verify p told q session=01", 1),
        ("verify p told_other q session=00", 1),
        ("prove s sr sv sk q session=00", 0),
        ("verify s told_sealed q session=00", 0),
        ("prove s_under sr sv sk t q session=00", 0),
        ("verify s_under told_sealed_root q session=00", 0),
    ] {
        let (found, _out) = ran(&rt, alloc, words, &mut shelf)?;
        assert_eq!(rt; found, status);
    }
    Ok(())
}

// A file of random bytes that has too few ends the run as one that is not read does.
#[test]
fn short_random_bytes_are_told(rt: HostRuntime) -> Result<(), Fail> {
    let alloc = rt.alloc();
    let mut shelf = shelf_of(alloc, Vec::new(alloc))?;
    shelf.add("/dev/urandom", &RANDOM[..31])?;
    let (status, out) = ran(&rt, alloc, "prove p r v q session=00", &mut shelf)?;
    assert_eq!(rt; status, 4);
    assert!(rt; out.bytes() == "fault: reading /dev/urandom\n".as_bytes());
    assert!(rt; shelf.get("q").is_none());
    Ok(())
}
