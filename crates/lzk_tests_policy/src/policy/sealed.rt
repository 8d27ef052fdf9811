//! A policy's circuit for a record that seals a secret.

use crate::policy::files::{SEALED, SEALED_RECORD};
use crate::policy::texts::read;
use lzk_field::Field;
use lzk_goldilocks::Gold;
use lzk_policy_inputs::{Value, policy_inputs, satisfied_circuit};
use lzk_tests_shared::{is_satisfied, word_elements};
use std::test::Fail;

const TAG: [u8; 16] = [
    0, 65, 151, 102, 91, 83, 118, 244, 233, 245, 227, 174, 233, 4, 220, 114,
];

// The record's digest, the tag and the pseudonym, by an independent implementation of SHA-256.
const DIGEST: &str = "8ec09b4dc5dfc7245f8f3f3fd6804f22a0f9a9f440ec75b71e54a7e7f8bf1ade";

const PSEUDONYM: &str =
    "004197665b5376f4e9f5e3aee904dc7251adc769e21875f56078e9bb6cc1f031c6a3dab9851aba12d5ec6dfd91764b05";

// Private inputs after a change of which nothing satisfies the circuit: a bit of the seal's label, one of the secret in
// the seal, a word of the seal's digest, a bit of the pseudonym's label, one of the secret there, one of the tag.
const CHANGED: [usize; 6] = [384, 416, 545, 552, 584, 720];

#[test]
fn a_sealed_secret_has_one_pseudonym(rt: HostRuntime) -> Result<(), Fail> {
    let alloc = rt.alloc();
    let Ok(policy) = read(alloc, SEALED) else {
        assert!(rt; false);
        return Ok(());
    };
    let value = Value::Sealed(TAG, *b"a secret of mine");
    let (Ok(circuit), Ok(inputs)) = (
        satisfied_circuit(alloc, &policy),
        policy_inputs(alloc, &policy, SEALED_RECORD, &[value]),
    ) else {
        assert!(rt; false);
        return Ok(());
    };
    let mut public = word_elements(alloc, &[DIGEST, PSEUDONYM])?;
    assert!(rt; inputs.public() == public.as_slice());
    assert!(rt; is_satisfied(alloc, &circuit, &public, inputs.private())?);
    for place in CHANGED {
        let mut private = Vec::from_slice(alloc, inputs.private())?;
        if let Some(old) = private.get_mut(place) {
            *old = Gold::one().sub(*old);
        }
        assert!(rt; !is_satisfied(alloc, &circuit, &public, &private)?);
    }
    if let Some(last) = public.last_mut() {
        *last = Gold::zero();
    }
    assert!(rt; !is_satisfied(alloc, &circuit, &public, inputs.private())?);
    Ok(())
}

#[test]
fn another_secret_is_not_true(rt: HostRuntime) -> Result<(), Fail> {
    let alloc = rt.alloc();
    let Ok(policy) = read(alloc, SEALED) else {
        assert!(rt; false);
        return Ok(());
    };
    for (value, said) in [
        (Value::Tag(TAG), "value 0 is of another kind"),
        (
            Value::Sealed(TAG, *b"a secret of hers"),
            "what is shown at 0 is not true",
        ),
    ] {
        match policy_inputs(alloc, &policy, SEALED_RECORD, &[value]) {
            Ok(_) => assert!(rt; false),
            Err(e) => {
                let text = format!(in alloc; "{e}")?;
                assert_eq!(rt; text.as_str(), said);
            }
        }
    }
    Ok(())
}
