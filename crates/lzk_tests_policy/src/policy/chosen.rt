//! Texts of more than seven bytes that are one of some. Digests are those of an independent implementation.

use crate::policy::texts::read;
use lzk_circuit::Circuit;
use lzk_goldilocks::Gold;
use lzk_policy::Policy;
use lzk_policy_inputs::{InputsError, PolicyInputs, Value, policy_inputs, satisfied_circuit};
use lzk_tests_shared::{is_satisfied, word_elements};
use std::alloc::{AllocError, Global};
use std::test::Fail;

// Policies up to their texts: one of eight bytes in one block, and of 32 bytes at the end of two.
const SHORT: &[u8] = b"record 12\nfield a text 8 at 2\nshow digest\nshow a one of ";

const LONG: &[u8] = b"record 119\nfield a text 32 at 87\nshow digest\nshow a one of ";

// What stands before the text in a record of the second.
const BEFORE: &[u8] =
    b"01234567890123456789012345678901234567890123456789012345678901234567890123456789abcdefg";

const SCHOOLS: &[u8] = b"Delft___ Leiden__ Utrecht_ Twente__";

// As many texts as a line may have: they differ in their last two bytes.
const SIXTEEN: &[u8] = b"a_text_of_thirty_two_bytes_no_00 a_text_of_thirty_two_bytes_no_01 \
    a_text_of_thirty_two_bytes_no_02 a_text_of_thirty_two_bytes_no_03 \
    a_text_of_thirty_two_bytes_no_04 a_text_of_thirty_two_bytes_no_05 \
    a_text_of_thirty_two_bytes_no_06 a_text_of_thirty_two_bytes_no_07 \
    a_text_of_thirty_two_bytes_no_08 a_text_of_thirty_two_bytes_no_09 \
    a_text_of_thirty_two_bytes_no_10 a_text_of_thirty_two_bytes_no_11 \
    a_text_of_thirty_two_bytes_no_12 a_text_of_thirty_two_bytes_no_13 \
    a_text_of_thirty_two_bytes_no_14 a_text_of_thirty_two_bytes_no_15";

// A text of a record, the record's digest, and whether it is one of the policy's texts.
struct Row {
    text: &'static [u8],
    digest: &'static str,
    right: bool,
}

// A policy up to its texts, these, what stands before and after the text in a record, and records.
struct List {
    policy: &'static [u8],
    texts: &'static [u8],
    before: &'static [u8],
    after: &'static [u8],
    rows: &'static [Row],
}

// The last bytes, the first, and two that change places.
const SCHOOL_ROWS: [Row; 5] = [
    Row {
        text: b"Utrecht_",
        digest: "0fc571eb554e8cfc1ab25d19d125192d2ccc26d9e96507f930398679fd977e2c",
        right: true,
    },
    Row {
        text: b"Twente__",
        digest: "5ea63291ae7a9e57b009f69a937d3bc938dd492a4d716c649d5501d064c8aedf",
        right: true,
    },
    Row {
        text: b"Utrecht-",
        digest: "10acbdb9311356bbbaaf3f77eab361c0e9b472f863ea494c526be120e753e38b",
        right: false,
    },
    Row {
        text: b"utrecht_",
        digest: "2df465e05faf93eb7feb550b5d80d5cf9dcb11fcc64619b4fc5bbb01ddad0753",
        right: false,
    },
    Row {
        text: b"Utrceht_",
        digest: "740edccf4f99689c40e11467230b19208b93a545c827b91e6632c9ec2776e126",
        right: false,
    },
];

const LONG_ROWS: [Row; 4] = [
    Row {
        text: b"a_text_of_thirty_two_bytes_no_00",
        digest: "4011882fdaf60bd1528e825754c400163e2385e3e6f68e5892facadd33eca515",
        right: true,
    },
    Row {
        text: b"a_text_of_thirty_two_bytes_no_15",
        digest: "3687b6c945561b11282e6ac846ee6ea0a3a0fb8d324d5f6ccff2fe7dfaf529e6",
        right: true,
    },
    Row {
        text: b"a_text_of_thirty_two_bytes_no_16",
        digest: "e7a5d8a07cb668c66fca2f28655ce09a66313ecea1ef15ef716fc99f120bcd95",
        right: false,
    },
    Row {
        text: b"b_text_of_thirty_two_bytes_no_15",
        digest: "536bc0311a9c884a6361a5c7a3d97394de8c0d3f8438e8438f20d746efadc5ba",
        right: false,
    },
];

const LISTS: [List; 2] = [
    List {
        policy: SHORT,
        texts: SCHOOLS,
        before: b"ab",
        after: b"yz",
        rows: &SCHOOL_ROWS,
    },
    List {
        policy: LONG,
        texts: SIXTEEN,
        before: BEFORE,
        after: b"",
        rows: &LONG_ROWS,
    },
];

// The policy with these texts.
fn policy_with(alloc: Global, front: &[u8], texts: &[u8]) -> Result<Option<Policy>, AllocError> {
    let mut text = Vec::from_slice(alloc, front)?;
    text.extend_from_slice(texts)?;
    Ok(read(alloc, &text).ok())
}

fn circuit_with(alloc: Global, list: &List) -> Result<Option<Circuit<Gold>>, AllocError> {
    let Some(policy) = policy_with(alloc, list.policy, list.texts)? else {
        return Ok(None);
    };
    Ok(satisfied_circuit(alloc, &policy).ok())
}

fn record_of(alloc: Global, list: &List, text: &[u8]) -> Result<Vec<u8>, AllocError> {
    let mut record = Vec::from_slice(alloc, list.before)?;
    record.extend_from_slice(text)?;
    record.extend_from_slice(list.after)?;
    Ok(record)
}

// The inputs of a record where its own text is the only one of the policy.
fn inputs_of(alloc: Global, list: &List, text: &[u8]) -> Result<Option<PolicyInputs>, AllocError> {
    let record = record_of(alloc, list, text)?;
    let Some(policy) = policy_with(alloc, list.policy, text)? else {
        return Ok(None);
    };
    Ok(policy_inputs(alloc, &policy, &record, &[Value::Own]).ok())
}

#[test]
fn texts_satisfy_a_policy_that_has_them(rt: HostRuntime) -> Result<(), Fail> {
    let alloc = rt.alloc();
    for list in &LISTS {
        let Some(circuit) = circuit_with(alloc, list)? else {
            assert!(rt; false);
            return Ok(());
        };
        for row in list.rows {
            let public = word_elements(alloc, &[row.digest])?;
            let Some(inputs) = inputs_of(alloc, list, row.text)? else {
                assert!(rt; false);
                return Ok(());
            };
            assert!(rt; inputs.public() == public.as_slice());
            let found = is_satisfied(alloc, &circuit, &public, inputs.private())?;
            assert_eq!(rt; found, row.right);
        }
    }
    Ok(())
}

#[test]
fn others_have_no_inputs(rt: HostRuntime) -> Result<(), Fail> {
    let alloc = rt.alloc();
    for list in &LISTS {
        let Some(policy) = policy_with(alloc, list.policy, list.texts)? else {
            assert!(rt; false);
            return Ok(());
        };
        for row in list.rows {
            let record = record_of(alloc, list, row.text)?;
            let said = policy_inputs(alloc, &policy, &record, &[Value::Own]);
            assert_eq!(rt; matches!(said, Ok(_)), row.right);
            assert_eq!(rt; matches!(said, Err(InputsError::False(0))), !row.right);
        }
    }
    Ok(())
}
