//! What is seen of a statement's prover.

ghost use Rattle.std.specs.Prelude.{◌≡◌, ◌≤◌, length};

use crate::ligero::vectors::Case;
use crate::ligero::writing::{Inputs, Written, written_over};
use lzk_afft::Transform;
use lzk_circbytes::{AnyCircuit, decode};
use lzk_circuit::Circuit;
use lzk_field::{Field, Gate};
use lzk_gf128::Gf128;
use lzk_goldilocks::Gold;
use lzk_poly::RowExtend;
use lzk_poly_ntt::NttExtender;
use lzk_tests_shared::Rows;
use std::alloc::Global;
use std::marker::Sync;
use std::thread::Threads;

/// The statement is none of a circuit with such inputs, or memory was not given.
#[derive(Clone, Copy, Debug, PartialEq, Eq)]
pub struct Unseen;

/// What extends rows over the binary field: the additive transform, or sums.
#[derive(Clone, Copy)]
pub enum Method {
    Transform,
    Sums,
}

// What a prover over this circuit writes for inputs of its counts.
fn seen_over<R: Threads + Sync, F: Field, X: RowExtend<F>, G: Gate>(
    rt: &R,
    alloc: Global,
    circuit: &Circuit<F>,
    case: &Case,
    inputs: &Inputs<'_, F>,
    gate: &G,
) -> Result<Written, Unseen> {
    let (publics, privates) = (circuit.publics() as usize, circuit.privates() as usize);
    if case.session.len() > 64
        || inputs.public.len() != publics
        || inputs.private.len() != privates
        || inputs.four.len() != privates
    {
        return Err(Unseen);
    }
    written_over::<R, F, X, G>(rt, alloc, circuit, case, inputs, gate).map_err(|_| Unseen)
}

// What a prover for this statement writes over a circuit.
fn seen_of<R: Threads + Sync, G: Gate>(
    rt: &R,
    alloc: Global,
    held: &AnyCircuit,
    case: &Case,
    method: Method,
    gate: &G,
) -> Result<Written, Unseen> {
    match held {
        AnyCircuit::Gold(circuit) => {
            let inputs = Inputs {
                public: &[Gold::of_word(case.public)],
                private: &[Gold::of_word(case.private)],
                four: &[Gold::of_word(4)],
            };
            seen_over::<R, Gold, NttExtender<Gold>, G>(rt, alloc, circuit, case, &inputs, gate)
        }
        AnyCircuit::Gf(circuit) => {
            let inputs = Inputs {
                public: &[Gf128::of_word(case.public)],
                private: &[Gf128::of_word(case.private)],
                four: &[Gf128::of_word(4)],
            };
            match method {
                Method::Transform => {
                    seen_over::<R, Gf128, Transform, G>(rt, alloc, circuit, case, &inputs, gate)
                }
                Method::Sums => {
                    seen_over::<R, Gf128, Rows<Gf128>, G>(rt, alloc, circuit, case, &inputs, gate)
                }
            }
        }
    }
}

/// What a prover for this statement writes. Over Goldilocks there is one method.
pub fn seen<R: Threads + Sync, G: Gate>(
    rt: &R,
    alloc: Global,
    case: &Case,
    method: Method,
    gate: &G,
) -> Result<Written, Unseen> {
    let Ok(held) = decode(alloc, case.circuit) else {
        return Err(Unseen);
    };
    let written = seen_of(rt, alloc, &held, case, method, gate);
    drop(held);
    written
}
