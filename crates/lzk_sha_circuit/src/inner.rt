//! The inner layer: the inputs go on, and exclusive ors of two entries of words stand behind them.

ghost use Rattle.std.specs.Prelude.{◌≡◌, ℕ, ◌+◌, ◌-◌, ◌*◌, map, IfOk, OnOk};
ghost use Rattle.std.specs.List.{range_with_len};
ghost use Rattle.lzk_goldilocks.specs.Elements.{ops, of_number};
ghost use Rattle.lzk_sha_circuit.specs.Found.{places_of};
ghost use Rattle.lzk_sha_circuit.specs.Layers.{IsBuilt, Grows, input_count, pass_row, pair_rows, schedule_pairs, round_pairs, inner_rows};

use crate::entries::{Word, turned_entry};
use crate::given::Given;
use crate::placed::{Ors, Placed};
use crate::products::{Product, or_of};
use crate::rounds::{LaterRound, Round};
use crate::rows::push_row;
use lzk_circuit::Term;
use lzk_field::Field;
use lzk_goldilocks::Gold;
use std::alloc::{AllocError, Global};

// So many wires that go on from below.
fn push_inputs(alloc: Global, count: u32, terms: &mut Vec<Term<Gold>>) -> Result<(), AllocError>
    ensures { OnOk result
        (Grows ops count 0 terms.old.items (map (pass_row ops) (range_with_len 0 count)) terms.new.items) }
{
    for k in 0..count {
        let product = Product {
            coef: Gold::one(),
            a: 0,
            b: k,
        };
        push_row(alloc, k, &[product], terms)?;
    }
    Ok(())
}

// The exclusive ors of the entries of two words, which are rotated right by `j` and `k` places.
fn push_pairs(
    alloc: Global,
    given: &Given,
    ors: Ors,
    x: (Placed, u8),
    y: (Placed, u8),
    terms: &mut Vec<Term<Gold>>,
) -> Result<(), AllocError>
    ensures { OnOk result (Grows ops (input_count (places_of given.now)) ors.first terms.old.items
        (pair_rows ops of_number (places_of given.now) x.0.word x.1 y.0.word y.1) terms.new.items) }
{
    for i in 0..32 {
        let first = turned_entry(given, x.0, x.1, i);
        let second = turned_entry(given, y.0, y.1, i);
        let products = or_of(Gold::one(), first, second);
        push_row(alloc, ors.first + i, &products, terms)?;
    }
    Ok(())
}

// Those of σ1 and σ0 for W t.
fn push_schedule_pairs(
    alloc: Global,
    given: &Given,
    round: LaterRound,
    terms: &mut Vec<Term<Gold>>,
) -> Result<(), AllocError>
    ensures { OnOk result (Grows ops (input_count (places_of given.now))
        (input_count (places_of given.now) + 64 * (round.t - 16)) terms.old.items
        (schedule_pairs ops of_number (places_of given.now) round.t) terms.new.items) }
{
    let t = round.t;
    let first = given.inputs + 6385 + 64 * (t - 16);
    let two = Placed {
        word: Word::Schedule(t - 2),
    };
    push_pairs(alloc, given, Ors { first }, (two, 17), (two, 19), terms)?;
    let fifteen = Placed {
        word: Word::Schedule(t - 15),
    };
    let next = Ors { first: first + 32 };
    push_pairs(alloc, given, next, (fifteen, 7), (fifteen, 18), terms)
}

// Those of Σ1, Σ0 and Maj for a round.
fn push_round_pairs(
    alloc: Global,
    given: &Given,
    round: Round,
    terms: &mut Vec<Term<Gold>>,
) -> Result<(), AllocError>
    ensures { OnOk result (Grows ops (input_count (places_of given.now))
        (input_count (places_of given.now) + 3072 + 96 * round.t) terms.old.items
        (round_pairs ops of_number (places_of given.now) round.t) terms.new.items) }
{
    let t = round.t;
    let first = given.inputs + 9457 + 96 * t;
    let e = Placed {
        word: Word::E(t + 3),
    };
    push_pairs(alloc, given, Ors { first }, (e, 6), (e, 11), terms)?;
    let a = Placed {
        word: Word::A(t + 3),
    };
    let second = Ors { first: first + 32 };
    push_pairs(alloc, given, second, (a, 2), (a, 13), terms)?;
    let b = Placed {
        word: Word::A(t + 2),
    };
    let third = Ors { first: first + 64 };
    push_pairs(alloc, given, third, (a, 0), (b, 0), terms)
}

// The terms of the inner layer.
pub(crate) fn inner_terms(alloc: Global, given: &Given) -> Result<Vec<Term<Gold>>, AllocError>
    ensures { IfOk result (λ terms.
        IsBuilt ops (input_count (places_of given.now)) (inner_rows ops of_number (places_of given.now)) terms.items) }
{
    let mut terms = Vec::new(alloc);
    push_inputs(alloc, given.inputs + 6385, &mut terms)?;
    for t in 16..64 {
        push_schedule_pairs(alloc, given, LaterRound { t }, &mut terms)?;
    }
    for round in 0..64 {
        push_round_pairs(alloc, given, Round { t: round }, &mut terms)?;
    }
    Ok(terms)
}
