//! Two circuits side by side: what an independent implementation makes of the parts' outputs, one part after the other.

ghost use Rattle.std.specs.Prelude.{◌<◌, ◌↔◌, IfSome, IsTrue, EachIndex, slice_index};
ghost use Rattle.lzk_circuit_reduce.specs.Renumbering.{AreNumbersBelow};

use lzk_circuit::{Circuit, Values};
use lzk_circuit_beside::{AnyPart, Part, beside, beside_any};
use lzk_field::Field;
use lzk_gf128::Gf128;
use lzk_goldilocks::Gold;
use lzk_tests_shared::{MIXED, TermRow, circuit_of, elements};
use std::alloc::{AllocError, Global};
use std::test::Fail;

// One layer over 1 public and 3 private inputs. The first two terms have opposite coefficients: p - 5 stands for the
// negative of five. They go out where both inputs are one.
const GOLD_FLAT: [TermRow; 5] = [
    (0, 0, 0, 2, 5),
    (0, 0, 0, 3, 0xffff_fffe_ffff_fffc),
    (0, 0, 1, 2, 3),
    (0, 1, 0, 1, 2),
    (0, 1, 4, 4, 1),
];

// The same over GF(2^128), where five is its own negative.
const GF_FLAT: [TermRow; 5] = [
    (0, 0, 0, 2, 5),
    (0, 0, 0, 3, 5),
    (0, 0, 1, 2, 3),
    (0, 1, 0, 1, 2),
    (0, 1, 4, 4, 1),
];

// Out of order; an input twice, and the one.
const DEEP_PLACES: [u32; 4] = [2, 3, 5, 1];

const FLAT_PLACES: [u32; 4] = [1, 4, 4, 0];

const PUBLIC: [u128; 2] = [7, 11];

const PRIVATE: [u128; 3] = [13, 17, 19];

// Two layers of version 2 over 1 public and 2 private inputs. A wire that is named above and an output are asserted.
const ASSERTING: [TermRow; 7] = [
    (0, 0, 0, 1, 1),
    (0, 1, 1, 2, 1),
    (0, 2, 3, 3, 0),
    (1, 0, 0, 0, 1),
    (1, 1, 1, 2, 1),
    (1, 2, 2, 3, 0),
    (1, 3, 0, 3, 2),
];

const ASSERTING_PLACES: [u32; 3] = [4, 1, 2];

const OTHER_PLACES: [u32; 3] = [5, 5, 0];

// The outputs that an independent implementation gives for the parts over these inputs.
const GOLD_DEEP: [u128; 4] = [81_984, 448, 13, 81_984];

const GOLD_FLAT_OUTPUTS: [u128; 2] = [357, 15];

const GF_DEEP: [u128; 4] = [9_762, 158, 13, 9_762];

const GF_FLAT_OUTPUTS: [u128; 2] = [153, 15];

// The outputs and then the asserted product, over the first places and over the others.
const GOLD_ASSERTING: [u128; 4] = [119, 0, 484, 77];

const GOLD_OTHER: [u128; 4] = [361, 0, 4, 19];

const GF_ASSERTING: [u128; 4] = [119, 0, 276, 49];

const GF_OTHER: [u128; 4] = [261, 0, 4, 19];

fn deep<F: Field>(alloc: Global) -> Result<Option<Circuit<F>>, AllocError> {
    circuit_of(alloc, 1, 2, 2, &[4, 4, 5], &MIXED)
}

fn asserting<F: Field>(alloc: Global) -> Result<Option<Circuit<F>>, AllocError> {
    circuit_of(alloc, 2, 1, 2, &[3, 4], &ASSERTING)
}

// Whether the outputs of a circuit over these inputs are these numbers, the first list's first.
fn has_outputs<F: Field>(
    alloc: Global,
    circuit: &Circuit<F>,
    first: &[u128],
    second: &[u128],
) -> Result<bool, AllocError> {
    let public = elements(alloc, &PUBLIC)?;
    let private = elements(alloc, &PRIVATE)?;
    if public.len() != circuit.publics() as usize || private.len() != circuit.privates() as usize {
        return Ok(false);
    }
    let mut values = Values::new(alloc, circuit)?;
    circuit.eval(&public, &private, &mut values);
    let mut numbers = Vec::new(alloc);
    for check in values.checks() {
        numbers.push(check.number())?;
    }
    let mut wanted = Vec::from_slice(alloc, first)?;
    wanted.extend_from_slice(second)?;
    Ok(numbers.as_slice() == wanted.as_slice())
}

// Whether both orders of the two parts have these outputs.
fn both_orders<F: Field>(
    alloc: Global,
    flat_rows: &[TermRow],
    deep_outputs: &[u128],
    flat_outputs: &[u128],
) -> Result<bool, Fail> {
    let flat = circuit_of::<F>(alloc, 1, 1, 3, &[2], flat_rows)?;
    let (Some(deep), Some(flat)) = (deep::<F>(alloc)?, flat) else {
        return Ok(false);
    };
    let Some(deep) = part_of(&deep, &DEEP_PLACES) else {
        return Ok(false);
    };
    let Some(flat) = part_of(&flat, &FLAT_PLACES) else {
        return Ok(false);
    };
    let one = beside(alloc, 2, 3, &deep, &flat)?;
    let other = beside(alloc, 2, 3, &flat, &deep)?;
    Ok(
        one.depth() == 3
            && has_outputs(alloc, &one, deep_outputs, flat_outputs)?
            && has_outputs(alloc, &other, flat_outputs, deep_outputs)?,
    )
}

// Whether an asserting circuit beside a deeper one, and beside itself over other inputs, has these checks: the outputs
// of both, and then what the inner layers assert.
fn has_asserts<F: Field>(
    alloc: Global,
    deep_outputs: &[u128],
    one: &[u128; 4],
    other: &[u128; 4],
) -> Result<bool, Fail> {
    let (Some(deep), Some(one_part)) = (deep::<F>(alloc)?, asserting::<F>(alloc)?) else {
        return Ok(false);
    };
    let Some(other_part) = asserting::<F>(alloc)? else {
        return Ok(false);
    };
    let Some(deep) = any_part_of(&deep, &DEEP_PLACES) else {
        return Ok(false);
    };
    let Some(first) = any_part_of(&one_part, &ASSERTING_PLACES) else {
        return Ok(false);
    };
    let Some(second) = any_part_of(&other_part, &OTHER_PLACES) else {
        return Ok(false);
    };
    let below = beside_any(alloc, 2, 3, &deep, &first)?;
    let twice = beside_any(alloc, 2, 3, &first, &second)?;
    let outputs = [
        one[0], one[1], one[2], other[0], other[1], other[2], one[3], other[3],
    ];
    Ok(
        below.version() == 2
            && has_outputs(alloc, &below, deep_outputs, one)?
            && has_outputs(alloc, &twice, &outputs, &[])?,
    )
}

// Whether each place is a wire of the input layer of 2 public and 3 private inputs.
fn are_below(places: &[u32]) -> bool
    ensures { IsTrue result ↔ EachIndex places.now (λ k. slice_index places.now k < 6) }
{
    places.iter().all(|place| *place < 6)
}

fn part_of<'a, F: Field>(circuit: &'a Circuit<F>, places: &'a [u32]) -> Option<Part<'a, F>>
    ensures { IfSome result (λ part. AreNumbersBelow 6 part.places.now) }
{
    let count = circuit.publics() as usize + circuit.privates() as usize;
    if circuit.version() == 1 && places.len() == count && are_below(places) {
        return Some(Part { circuit, places });
    }
    None
}

fn any_part_of<'a, F: Field>(circuit: &'a Circuit<F>, places: &'a [u32]) -> Option<AnyPart<'a, F>>
    ensures { IfSome result (λ part. AreNumbersBelow 6 part.places.now) }
{
    let count = circuit.publics() as usize + circuit.privates() as usize;
    if places.len() == count && are_below(places) {
        return Some(AnyPart { circuit, places });
    }
    None
}

#[test]
fn outputs_are_those_of_the_parts(rt: HostRuntime) -> Result<(), Fail> {
    let alloc = rt.alloc();
    assert!(rt; both_orders::<Gold>(alloc, &GOLD_FLAT, &GOLD_DEEP, &GOLD_FLAT_OUTPUTS)?);
    assert!(rt; both_orders::<Gf128>(alloc, &GF_FLAT, &GF_DEEP, &GF_FLAT_OUTPUTS)?);
    Ok(())
}

#[test]
fn asserts_are_those_of_the_parts(rt: HostRuntime) -> Result<(), Fail> {
    let alloc = rt.alloc();
    assert!(rt; has_asserts::<Gold>(alloc, &GOLD_DEEP, &GOLD_ASSERTING, &GOLD_OTHER)?);
    assert!(rt; has_asserts::<Gf128>(alloc, &GF_DEEP, &GF_ASSERTING, &GF_OTHER)?);
    Ok(())
}
