//! What a circuit of version 2 draws, number by number, as an independent implementation draws it for the same
//! messages.

use crate::sumcheck::combined_vectors::ASSERTING;
use crate::sumcheck::shared::{asserting_circuit_of, draw, undrawn};
use lzk_circuit::Circuit;
use lzk_field::Field;
use lzk_gf128::Gf128;
use lzk_goldilocks::Gold;
use lzk_sumcheck::{LayerScript, Script};
use std::alloc::{AllocError, Global};
use std::test::Fail;

// The outputs' point; for each of two layers alpha, beta, and the challenges of its rounds in turn; and gamma.
const GOLD: [u128; 17] = [
    0x9e2b894edcfdc89d,
    0xa6cbe2afc7a33c4e,
    0x93545fe7ecd1ded0,
    0x73d8f07320512845,
    0x2ef729dd31c7dda0,
    0xa954e3f46aa11ac3,
    0xaa8caaf050fa31f7,
    0xe8745ba342a70395,
    0x6340556b1af8e8bf,
    0x2a1dcb92d1b8f4d1,
    0xe855ce7657443c93,
    0xb76935d9c99624a9,
    0xa00e9c569d2ee0dd,
    0xba6b3ea076ed3244,
    0x305723bf319fbbbe,
    0x1127adb09a6da64,
    0x9cdd7b83b3458a57,
];

const GF: [u128; 17] = [
    0x8720849214a248ad898940a278c095dc,
    0xd33ca5bf3e13934568b84f6bd8f37552,
    0x8ec95c1a559d608d3db6ff5bd1389b77,
    0xe7266f7802646fcf3b2a976aee9d639,
    0xeb5f1a8ce2b3254e2169d2cab608cb33,
    0x8892ebc667131728fa8208d6548aa138,
    0xdeeea507ebe5c54ff932bc322def3a30,
    0xaf2895b5667d7a07b2bebea99588562e,
    0xb71bcd65019e13a7c6a81bbcfa724313,
    0xed3bf9fdc6fccbab3bd89cfa83c2af3e,
    0xb3432820f1d6c9e2c286876d80d5e2ca,
    0x8ea4599b4b5ba43e055a8c00ebb98a7c,
    0x8c28c6d4b0cd724563a33b868d14a1b5,
    0x4f07d9bb92928ad1b1c92be10ad18588,
    0xcfc661c1fb623080827197bca1d0dee8,
    0x4eaed62b93c098784dc058c0440da7ee,
    0xa1ad0d14060e53fa4151566643ca70c0,
];

fn push_layer<F: Field>(layer: &LayerScript<F>, list: &mut Vec<u128>) -> Result<(), AllocError> {
    list.push(layer.alpha.number())?;
    list.push(layer.beta.number())?;
    for (a, b) in layer.ra.as_slice().iter().zip(layer.rb.as_slice()) {
        list.push(a.number())?;
        list.push(b.number())?;
    }
    Ok(())
}

// All that a script holds, in the order in which it is drawn.
fn drawn_numbers<F: Field>(script: &Script<F>, alloc: Global) -> Result<Vec<u128>, AllocError> {
    let mut list = Vec::new(alloc);
    for x in script.out_point.as_slice() {
        list.push(x.number())?;
    }
    for layer in script.layers.as_slice() {
        push_layer(layer, &mut list)?;
    }
    list.push(script.gamma.number())?;
    Ok(list)
}

fn draws<F: Field>(circuit: &Circuit<F>, alloc: Global) -> Result<Vec<u128>, AllocError> {
    let mut drawn = undrawn(circuit, alloc)?;
    draw(circuit, &mut drawn);
    let numbers = drawn_numbers(&drawn.script, alloc);
    drop(drawn);
    numbers
}

// Whether the circuit draws these numbers.
fn are_drawn_for<F: Field>(
    circuit: &Option<Circuit<F>>,
    numbers: &[u128],
    alloc: Global,
) -> Result<bool, AllocError> {
    match circuit {
        Some(circuit) => Ok(draws(circuit, alloc)?.as_slice() == numbers),
        None => Ok(false),
    }
}

// Whether the circuit of two layers that assert draws these numbers.
fn are_drawn<F: Field>(numbers: &[u128], alloc: Global) -> Result<bool, AllocError> {
    let circuit = asserting_circuit_of::<F>(ASSERTING[1].0, alloc)?;
    let are = are_drawn_for(&circuit, numbers, alloc);
    drop(circuit);
    are
}

#[test]
fn beta_is_drawn_behind_alpha(rt: HostRuntime) -> Result<(), Fail> {
    let over_gold = are_drawn::<Gold>(&GOLD, rt.alloc())?;
    let over_gf = are_drawn::<Gf128>(&GF, rt.alloc())?;
    assert_eq!(rt; [over_gold, over_gf], [true, true]);
    Ok(())
}
