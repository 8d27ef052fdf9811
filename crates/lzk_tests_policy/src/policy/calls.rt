//! The library's calls for policies, over bytes. Numbers, digests and pseudonyms are those of an independent
//! implementation.

use crate::policy::files::{
    PATH, PRIVATE_DIGEST, PUBLIC, ROOT_PRIVATE_DIGEST, ROOT_PUBLIC, ROOT_SHOWN, SEALED,
    SEALED_PRIVATE_DIGEST, SEALED_PUBLIC, SEALED_RECORD, SHOWN, UNDER, VALUES,
};
use crate::policy::rows::{HOLLAND, POLICY};
use lzk_policy_calls::{
    Given, circuit, digest, inputs, outcome_of, publics, show, shown, texts_outcome,
};
use sha2::{Digest, Sha256};
use std::alloc::{AllocError, Global};
use std::test::Fail;

// What is shown, its public numbers, the digest of its private ones, and a text that says what is shown.
struct Row {
    given: Given<'static>,
    public: &'static [u8],
    private: &'static str,
    shown: &'static [u8],
}

const SEALED_SHOWN: &[u8] =
    b"digest 8ec09b4dc5dfc7245f8f3f3fd6804f22a0f9a9f440ec75b71e54a7e7f8bf1ade\n\
    pseudonym 51adc769e21875f56078e9bb6cc1f031c6a3dab9851aba12d5ec6dfd91764b05\n\
    SERVICE 004197665b5376f4e9f5e3aee904dc72\n";

const ROWS: [Row; 3] = [
    Row {
        given: Given {
            policy: POLICY,
            record: HOLLAND,
            values: VALUES,
            secret: b"",
            path: b"",
        },
        public: PUBLIC,
        private: PRIVATE_DIGEST,
        shown: SHOWN,
    },
    Row {
        given: Given {
            policy: UNDER,
            record: HOLLAND,
            values: VALUES,
            secret: b"",
            path: PATH,
        },
        public: ROOT_PUBLIC,
        private: ROOT_PRIVATE_DIGEST,
        shown: ROOT_SHOWN,
    },
    Row {
        given: Given {
            policy: SEALED,
            record: SEALED_RECORD,
            values: b"SERVICE 004197665b5376f4e9f5e3aee904dc72\n",
            secret: b"a secret of mine",
            path: b"",
        },
        public: SEALED_PUBLIC,
        private: SEALED_PRIVATE_DIGEST,
        shown: SEALED_SHOWN,
    },
];

// The lines of what the first policy shows.
const LINES: &[u8] =
    b"the SHA-256 digest of the record\nbirth is at most LATEST\nuntil is at least TODAY\n\
    country is COUNTRY\ncountry is one of BE NL\na pseudonym of secret for SERVICE\n";

// The digits of a digest.
fn digest_of(alloc: Global, bytes: &[u8]) -> Result<String, AllocError> {
    hex::encode(alloc, &Sha256::digest(bytes))
}

#[test]
fn the_numbers_are_put_as_two_texts(rt: HostRuntime) -> Result<(), Fail> {
    let alloc = rt.alloc();
    let mut room = vec![in alloc; 0u8; 100_000]?;
    for row in &ROWS {
        let found = texts_outcome(inputs(alloc, &row.given, &mut room));
        assert_eq!(rt; found.answer, 0);
        let (first, all) = (found.offset as usize, found.count as usize);
        assert!(rt; room.get(..first) == Some(row.public));
        let private = room.get(first..all).unwrap_or(b"");
        assert!(rt; digest_of(alloc, private)?.as_str() == row.private);
    }
    Ok(())
}

#[test]
fn what_is_shown_says_the_same_numbers(rt: HostRuntime) -> Result<(), Fail> {
    let alloc = rt.alloc();
    let mut room = vec![in alloc; 0u8; 1000]?;
    let mut other = vec![in alloc; 0u8; 1000]?;
    for row in &ROWS {
        let found = outcome_of(shown(alloc, &row.given, &mut room));
        assert_eq!(rt; found.answer, 0);
        let text = room.get(..found.count as usize).unwrap_or(b"");
        for said in [text, row.shown] {
            let told = outcome_of(publics(alloc, row.given.policy, said, &mut other));
            assert_eq!(rt; told.answer, 0);
            assert!(rt; other.get(..told.count as usize) == Some(row.public));
        }
    }
    Ok(())
}

#[test]
fn a_policy_has_lines_and_digests(rt: HostRuntime) -> Result<(), Fail> {
    let alloc = rt.alloc();
    let mut room = vec![in alloc; 0u8; 1000]?;
    let told = outcome_of(show(alloc, POLICY, &mut room));
    assert!(rt; room.get(..told.count as usize) == Some(LINES));
    let told = outcome_of(digest(alloc, POLICY, HOLLAND, &mut room));
    let bytes = room.get(..told.count as usize).unwrap_or(b"");
    let digits = hex::encode(alloc, bytes)?;
    let wanted = "e3f95c6ff6ffb48e2c78b7f46343b1f01d40ea42156f2566910b95cc985c47e5";
    assert!(rt; digits.as_str() == wanted);
    Ok(())
}

#[test]
fn a_policy_has_a_circuit(rt: HostRuntime) -> Result<(), Fail> {
    let alloc = rt.alloc();
    let mut room = vec![in alloc; 0u8; 700_000]?;
    let text = b"record 20\nfield birth date at 0\nshow digest\nshow birth at most LATEST\n";
    let told = outcome_of(circuit(alloc, text, &mut room));
    assert_eq!(rt; told.answer, 0);
    assert!(rt; room.starts_with(b"LZC1"));
    Ok(())
}
