//! Texts of more than seven bytes that are told. Digests and numbers are those of an independent implementation.

use crate::policy::long::{changed, record_of};
use crate::policy::texts::read;
use lzk_circuit::Circuit;
use lzk_field::Field;
use lzk_goldilocks::Gold;
use lzk_policy_inputs::{InputsError, PolicyInputs, Value, policy_inputs, satisfied_circuit};
use lzk_tests_shared::{is_satisfied, word_elements};
use std::alloc::Global;
use std::test::Fail;

// A policy that tells a text, with its record, the record's digest and the text's numbers: one of up to seven bytes,
// five of more.
struct Row {
    text: &'static [u8],
    size: usize,
    digest: &'static str,
    numbers: &'static [u64],
}

const ROWS: [Row; 5] = [
    Row {
        text: b"record 64\nfield a text 7 at 3\nshow digest\nshow a as A\n",
        size: 64,
        digest: "86a5b5b39af87ee1cd8090a415ab3b67c68254ff88ec4845c0cd7d1739e24d36",
        numbers: &[13_827_876_694_794_351],
    },
    Row {
        text: b"record 64\nfield a text 8 at 2\nshow digest\nshow a as A\n",
        size: 64,
        digest: "86a5b5b39af87ee1cd8090a415ab3b67c68254ff88ec4845c0cd7d1739e24d36",
        numbers: &[21_164_638_396_638_240, 111, 0, 0, 0],
    },
    Row {
        text: b"record 40\nfield a text 32 at 8\nshow digest\nshow a as A\n",
        size: 40,
        digest: "46f8cfb4fe3327420c56b74d11235c5b770e86dba9654a4457809e680b6874f3",
        numbers: &[
            9_129_719_188_449_397,
            31_072_689_928_282_209,
            31_072_337_758_086_772,
            28_540_496_311_908_724,
            1_702_043_757,
        ],
    },
    Row {
        text: b"record 119\nfield a text 32 at 87\nshow digest\nshow a as A\n",
        size: 119,
        digest: "29cd66aaa71ad7075a802bbb5390181fc6ce42b200d2284397efb65239677555",
        numbers: &[
            30_521_770_274_484_070,
            9_098_769_050_972_725,
            15_264_658_996_884_321,
            30_527_090_481_705_266,
            859_059_510,
        ],
    },
    Row {
        text: b"record 119\nfield a text 15 at 50\nshow digest\nshow a as A\n",
        size: 119,
        digest: "29cd66aaa71ad7075a802bbb5390181fc6ce42b200d2284397efb65239677555",
        numbers: &[29_664_171_426_867_301, 9_126_365_059_358_831, 110, 0, 0],
    },
];

// A value for the text of the second row, and what is said: its own, another first and another last piece, and one that
// is compared by its first bytes alone.
const VALUES: [(Value, bool); 4] = [
    (Value::Spelled([21_164_638_396_638_240, 111, 0, 0, 0]), true),
    (
        Value::Spelled([21_164_638_396_638_241, 111, 0, 0, 0]),
        false,
    ),
    (
        Value::Spelled([21_164_638_396_638_240, 112, 0, 0, 0]),
        false,
    ),
    (
        Value::Spelled([21_164_638_396_638_240, 111, 0, 0, 1]),
        false,
    ),
];

// A row's circuit, and the inputs of its record.
fn made(alloc: Global, row: &Row) -> Option<(Circuit<Gold>, PolicyInputs)> {
    let policy = read(alloc, row.text).ok()?;
    let inputs = policy_inputs(alloc, &policy, record_of(row.size), &[Value::Own]).ok()?;
    let circuit = satisfied_circuit(alloc, &policy).ok()?;
    Some((circuit, inputs))
}

#[test]
fn texts_have_their_numbers(rt: HostRuntime) -> Result<(), Fail> {
    let alloc = rt.alloc();
    for row in &ROWS {
        let mut public = word_elements(alloc, &[row.digest])?;
        for number in row.numbers {
            public.push(Gold::of_word(u128::from(*number)))?;
        }
        let Some((circuit, inputs)) = made(alloc, row) else {
            assert!(rt; false);
            return Ok(());
        };
        assert!(rt; inputs.public() == public.as_slice());
        assert!(rt; is_satisfied(alloc, &circuit, &public, inputs.private())?);
        for place in 8..public.len() {
            let other = changed(alloc, &public, place)?;
            assert!(rt; !is_satisfied(alloc, &circuit, &other, inputs.private())?);
        }
    }
    Ok(())
}

#[test]
fn other_texts_are_not_true(rt: HostRuntime) -> Result<(), Fail> {
    let alloc = rt.alloc();
    let row = &ROWS[1];
    let Ok(policy) = read(alloc, row.text) else {
        assert!(rt; false);
        return Ok(());
    };
    for (value, right) in VALUES {
        let said = policy_inputs(alloc, &policy, record_of(row.size), &[value]);
        assert_eq!(rt; matches!(said, Ok(_)), right);
        assert_eq!(rt; matches!(said, Err(InputsError::False(0))), !right);
    }
    Ok(())
}
