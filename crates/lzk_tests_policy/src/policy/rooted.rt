//! A policy's circuit for a record whose digest is a leaf under a root.

use crate::policy::texts::read;
use lzk_circuit::Circuit;
use lzk_field::Field;
use lzk_goldilocks::Gold;
use lzk_policy_inputs::{
    InputsError, Place, PolicyInputs, RootedInputsError, Value, credential_circuit,
    credential_inputs, rooted_circuit, rooted_inputs,
};
use lzk_sha_path::PathError;
use lzk_tests_shared::{is_satisfied, word_elements, words};
use std::alloc::{AllocError, Global};
use std::test::Fail;

const POLICY: &[u8] = b"record 4\nfield day date at 0\nshow digest\nshow day as DAY\n";

const UNDER: &[u8] = b"record 4\nfield day date at 0\nshow under root 2\nshow day as DAY\n";

// The words that each of these texts has shown, and how many nodes stand beside the path.
const TEXTS: [(&[u8], &str, usize); 2] = [(POLICY, DIGEST, 0), (UNDER, ROOT, 2)];

// The digests of "sibling 0" and "sibling 1".
const SIBLINGS: [&str; 2] = [
    "f59e1a9a0b5b4e6ebdcaafa66df2981ad9eb8ec1cdc1ec336559dab8947dc27b",
    "5de4d950a6b2113fb869b5da895d0eaf7d7d67f52fa723bfbf55c8bf05df96ae",
];

const DAY: u32 = 20_100_304;

// The record's digest, by an independent implementation of SHA-256.
const DIGEST: &str = "f8b182f6b1030e8b6e3595bcd067e975f9174ae901a06e76e13245f655021c86";

// The root above it as leaf 2, by the same.
const ROOT: &str = "5c5fa531e57109fd94c6c82d1f320cb380fb08e92cef0f9953302f976c416ae6";

fn circuit_of(alloc: Global, depth: u32) -> Option<Circuit<Gold>> {
    let policy = read(alloc, POLICY).ok()?;
    rooted_circuit(alloc, &policy, depth).ok()
}

fn siblings() -> [[u32; 8]; 2] {
    [words(SIBLINGS[0]), words(SIBLINGS[1])]
}

// The inputs of the record of the day, which is told with this value, at this place beside so many nodes.
fn inputs_of(
    alloc: Global,
    value: Value,
    index: u32,
    depth: usize,
) -> Option<Result<PolicyInputs, RootedInputsError>> {
    let policy = read(alloc, POLICY).ok()?;
    let siblings = siblings();
    let place = Place {
        index,
        siblings: siblings.get(0..depth)?,
    };
    Some(rooted_inputs(alloc, &policy, &DAY.to_be_bytes(), &[value], &place))
}

// The words of a digest or a root, and the day.
fn shown(alloc: Global, root: &str, day: u32) -> Result<Vec<Gold>, AllocError> {
    let mut public = word_elements(alloc, &[root])?;
    public.push(Gold::of_word(u128::from(day)))?;
    Ok(public)
}

#[test]
fn a_record_stands_under_its_root(rt: HostRuntime) -> Result<(), Fail> {
    let alloc = rt.alloc();
    let Some(circuit) = circuit_of(alloc, 2) else {
        assert!(rt; false);
        return Ok(());
    };
    let Some(Ok(inputs)) = inputs_of(alloc, Value::Own, 2, 2) else {
        assert!(rt; false);
        return Ok(());
    };
    let public = shown(alloc, ROOT, DAY)?;
    let later = shown(alloc, ROOT, DAY + 1)?;
    let other = shown(alloc, DIGEST, DAY)?;
    let private = inputs.private();
    assert!(rt; inputs.public() == public.as_slice());
    assert!(rt; is_satisfied(alloc, &circuit, &public, private)?);
    assert!(rt; !is_satisfied(alloc, &circuit, &later, private)?);
    assert!(rt; !is_satisfied(alloc, &circuit, &other, private)?);
    Ok(())
}

// A text says by itself whether the digest is shown or a root.
#[test]
fn a_text_has_its_circuit_and_inputs(rt: HostRuntime) -> Result<(), Fail> {
    let alloc = rt.alloc();
    let siblings = siblings();
    for (text, root, depth) in TEXTS {
        let Ok(policy) = read(alloc, text) else {
            assert!(rt; false);
            return Ok(());
        };
        let place = Place {
            index: 2,
            siblings: &siblings[0..depth],
        };
        let Ok(circuit) = credential_circuit(alloc, &policy) else {
            assert!(rt; false);
            return Ok(());
        };
        let Ok(inputs) = credential_inputs(
            alloc,
            &policy,
            &DAY.to_be_bytes(),
            &[Value::Own],
            &place,
        ) else {
            assert!(rt; false);
            return Ok(());
        };
        let public = shown(alloc, root, DAY)?;
        assert!(rt; inputs.public() == public.as_slice());
        assert!(rt; is_satisfied(alloc, &circuit, &public, inputs.private())?);
    }
    Ok(())
}

#[test]
fn what_has_no_inputs_is_refused(rt: HostRuntime) -> Result<(), Fail> {
    let alloc = rt.alloc();
    assert!(rt;
        matches!(
            inputs_of(alloc, Value::Own, 0, 0),
            Some(Err(RootedInputsError::Path(PathError::Depth)))
        )
    );
    assert!(rt;
        matches!(
            inputs_of(alloc, Value::Own, 4, 2),
            Some(Err(RootedInputsError::Index))
        )
    );
    assert!(rt;
        matches!(
            inputs_of(alloc, Value::Number(20_100_305), 3, 2),
            Some(Err(RootedInputsError::Policy(InputsError::False(0))))
        )
    );
    Ok(())
}
