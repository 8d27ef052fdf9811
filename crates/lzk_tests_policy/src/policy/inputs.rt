//! A policy's circuit, and inputs of records and values.

use crate::policy::rows::{
    ACCEPTED, Accepted, CHANGED, HOLLAND, POLICY, PRIVATE, PRIVATE_COUNT, REFUSED,
};
use crate::policy::texts::read;
use lzk_circuit::Circuit;
use lzk_field::Field;
use lzk_goldilocks::Gold;
use lzk_policy::Policy;
use lzk_policy_circuit::policy_circuit;
use lzk_policy_inputs::{Value, policy_inputs, satisfied_circuit};
use lzk_tests_shared::{bits, is_satisfied, word_elements};
use std::alloc::{AllocError, Global};
use std::test::Fail;

fn policy_of(alloc: Global) -> Option<Policy> {
    read(alloc, POLICY).ok()
}

fn circuit_of(alloc: Global) -> Option<Circuit<Gold>> {
    let policy = policy_of(alloc)?;
    policy_circuit(alloc, &policy).ok()
}

// The public inputs of an accepted row.
fn public_inputs(alloc: Global, row: &Accepted) -> Result<Vec<Gold>, AllocError> {
    let mut list = word_elements(alloc, &[row.digest])?;
    for number in row.shown {
        list.push(Gold::of_word(number))?;
    }
    let rest = word_elements(alloc, &[row.pseudonym])?;
    list.extend_from_slice(&rest)?;
    Ok(list)
}

// The private inputs of the first accepted row, and zeros for those that are idle.
fn private_inputs(alloc: Global, count: u32) -> Result<Vec<Gold>, AllocError> {
    let mut list = bits(alloc, PRIVATE, PRIVATE_COUNT)?;
    list.resize(count as usize, Gold::zero())?;
    Ok(list)
}

// The values of the first accepted row with this one in its place: so many, and the record's own behind them.
fn values_of(
    alloc: Global,
    place: usize,
    value: Value,
    count: usize,
) -> Result<Vec<Value>, AllocError> {
    let mut values = Vec::from_slice(alloc, &ACCEPTED[0].values)?;
    if let Some(old) = values.get_mut(place) {
        *old = value;
    }
    values.resize(count, Value::Own)?;
    Ok(values)
}

#[test]
fn a_record_satisfies_its_policy(rt: HostRuntime) -> Result<(), Fail> {
    let alloc = rt.alloc();
    let Some(circuit) = circuit_of(alloc) else {
        assert!(rt; false);
        return Ok(());
    };
    let public = public_inputs(alloc, &ACCEPTED[0])?;
    let private = private_inputs(alloc, circuit.privates())?;
    assert!(rt; is_satisfied(alloc, &circuit, &public, &private)?);
    Ok(())
}

#[test]
fn changed_numbers_do_not(rt: HostRuntime) -> Result<(), Fail> {
    let alloc = rt.alloc();
    let Some(circuit) = circuit_of(alloc) else {
        assert!(rt; false);
        return Ok(());
    };
    let private = private_inputs(alloc, circuit.privates())?;
    for (place, number) in CHANGED {
        let mut public = public_inputs(alloc, &ACCEPTED[0])?;
        if let Some(old) = public.get_mut(place) {
            *old = Gold::of_word(number);
        }
        assert!(rt; !is_satisfied(alloc, &circuit, &public, &private)?);
    }
    Ok(())
}

#[test]
fn true_rows_have_their_public_numbers(rt: HostRuntime) -> Result<(), Fail> {
    let alloc = rt.alloc();
    let Some(policy) = policy_of(alloc) else {
        assert!(rt; false);
        return Ok(());
    };
    for row in &ACCEPTED {
        let public = public_inputs(alloc, row)?;
        match policy_inputs(alloc, &policy, row.record, &row.values) {
            Ok(inputs) => assert!(rt; inputs.public() == public.as_slice()),
            Err(_) => assert!(rt; false),
        }
    }
    Ok(())
}

#[test]
fn other_rows_are_refused(rt: HostRuntime) -> Result<(), Fail> {
    let alloc = rt.alloc();
    let Some(policy) = policy_of(alloc) else {
        assert!(rt; false);
        return Ok(());
    };
    for (record, place, value, count, said) in &REFUSED {
        let values = values_of(alloc, *place, *value, *count)?;
        match policy_inputs(alloc, &policy, record, &values) {
            Ok(_) => assert!(rt; false),
            Err(e) => {
                let text = format!(in alloc; "{e}")?;
                assert_eq!(rt; text.as_str(), *said);
            }
        }
    }
    Ok(())
}

#[test]
fn inputs_satisfy_the_circuit(rt: HostRuntime) -> Result<(), Fail> {
    let alloc = rt.alloc();
    let Some(policy) = policy_of(alloc) else {
        assert!(rt; false);
        return Ok(());
    };
    let (Ok(circuit), Ok(inputs)) = (
        satisfied_circuit(alloc, &policy),
        policy_inputs(alloc, &policy, HOLLAND, &ACCEPTED[0].values),
    ) else {
        assert!(rt; false);
        return Ok(());
    };
    let mut public = Vec::from_slice(alloc, inputs.public())?;
    assert!(rt; is_satisfied(alloc, &circuit, &public, inputs.private())?);
    if let Some(last) = public.last_mut() {
        *last = Gold::zero();
    }
    assert!(rt; !is_satisfied(alloc, &circuit, &public, inputs.private())?);
    Ok(())
}
