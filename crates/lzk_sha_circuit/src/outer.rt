//! The outputs' layer.

ghost use Rattle.std.specs.Prelude.{◌≡◌, ℕ, ◌+◌, ◌-◌, ◌/◌, ◌%◌, ◌<◌, nat_lt, if◌then◌else◌, ◌∷◌, [], ◌++◌, IfOk, OnOk};
ghost use Rattle.lzk_goldilocks.specs.Elements.{ops, of_number};
ghost use Rattle.lzk_sha_circuit.specs.Found.{places_of};
ghost use Rattle.lzk_sha_circuit.specs.Layers.{IsBuilt, Grows, inner_count, last_word_of, bit_row, w_row, row_at};
ghost use Rattle.lzk_sha_circuit.specs.Layers.{first_list, a_row, e_row, f_row, digest_row, output_rows};

use crate::entries::{Move, Word, wire_entry};
use crate::given::Given;
use crate::placed::{Carried, Ors, Placed, Row};
use crate::products::{Product, bilinear, linear};
use crate::rounds::{LaterRound, Round, StateWord};
use crate::rows::push_row;
use crate::sums::{push_carry, push_ch, push_maj, push_or_word, push_row_worth, push_worth};
use lzk_circuit::Term;
use lzk_field::Field;
use lzk_goldilocks::Gold;
use lzk_sha_lanes::ROUND_CONSTANTS;
use std::alloc::{AllocError, Global};

// A number, as a product of the one with itself.
fn number(n: u32) -> Product<Gold>
    ensures { result ≡ record { coef = of_number n; a = 0; b = 0 } }
{
    Product {
        coef: Gold::of_word(u128::from(n)),
        a: 0,
        b: 0,
    }
}

// Whether private input `j` is a bit. Like the functions below it leaves the products of one wire alone in the list.
fn bit_products(j: u32, products: &mut Vec<Product<Gold>>) -> Result<(), AllocError>
    requires { j < 8192 }
    ensures { OnOk result (products.new.items ≡ bit_row ops j) }
{
    let x = wire_entry(9 + j);
    products.clear();
    products.extend_from_slice(&[bilinear(Gold::one(), x, x), linear(Gold::one().neg(), x)])
}

// Whether W t follows from the words before it.
fn w_products(
    given: &Given,
    round: LaterRound,
    products: &mut Vec<Product<Gold>>,
) -> Result<(), AllocError>
    ensures { OnOk result (products.new.items ≡ w_row ops of_number (places_of given.now) round.t) }
{
    let t = round.t;
    let first = given.inputs + 6385 + 64 * (t - 16);
    products.clear();
    let two = Placed {
        word: Word::Schedule(t - 2),
    };
    push_or_word(given, Ors { first }, two, Move::Shifted(10), products)?;
    let seven = Placed {
        word: Word::Schedule(t - 7),
    };
    push_worth(given, Gold::one(), seven, products)?;
    let fifteen = Placed {
        word: Word::Schedule(t - 15),
    };
    let second = Ors { first: first + 32 };
    push_or_word(given, second, fifteen, Move::Shifted(3), products)?;
    let sixteen = Placed {
        word: Word::Schedule(t - 16),
    };
    push_worth(given, Gold::one(), sixteen, products)?;
    let place = given.inputs + 34 * (t - 16);
    push_carry(Carried { place, bits: 2 }, products)
}

// The part of a round's sums that A and E have in common.
fn push_first(
    given: &Given,
    round: Round,
    products: &mut Vec<Product<Gold>>,
) -> Result<(), AllocError>
    ensures { OnOk result
        (products.new.items ≡ products.old.items ++ first_list ops of_number (places_of given.now) round.t) }
{
    let t = round.t;
    let first = given.inputs + 9457 + 96 * t;
    let h = Placed { word: Word::E(t) };
    let Ok(()) = push_worth(given, Gold::one(), h, products) else {
        return Err(AllocError);
    };
    let e = Placed {
        word: Word::E(t + 3),
    };
    let Ok(()) = push_or_word(given, Ors { first }, e, Move::Turned(25), products) else {
        return Err(AllocError);
    };
    let f = Placed {
        word: Word::E(t + 2),
    };
    let g = Placed {
        word: Word::E(t + 1),
    };
    let Ok(()) = push_ch(given, e, f, g, products) else {
        return Err(AllocError);
    };
    let Ok(()) = products.push(number(ROUND_CONSTANTS[t as usize])) else {
        return Err(AllocError);
    };
    let schedule = Placed {
        word: Word::Schedule(t),
    };
    push_worth(given, Gold::one(), schedule, products)
}

// Whether A t follows.
fn a_products(
    given: &Given,
    round: Round,
    products: &mut Vec<Product<Gold>>,
) -> Result<(), AllocError>
    ensures { OnOk result (products.new.items ≡ a_row ops of_number (places_of given.now) round.t) }
{
    let t = round.t;
    let first = given.inputs + 9457 + 96 * t;
    products.clear();
    push_first(given, round, products)?;
    let a = Placed {
        word: Word::A(t + 3),
    };
    let second = Ors { first: first + 32 };
    push_or_word(given, second, a, Move::Turned(22), products)?;
    let b = Placed {
        word: Word::A(t + 2),
    };
    let c = Placed {
        word: Word::A(t + 1),
    };
    let third = Ors { first: first + 64 };
    push_maj(given, a, b, c, third, products)?;
    let place = given.inputs + 1632 + 70 * t;
    push_carry(Carried { place, bits: 3 }, products)
}

// Whether E t follows.
fn e_products(
    given: &Given,
    round: Round,
    products: &mut Vec<Product<Gold>>,
) -> Result<(), AllocError>
    ensures { OnOk result (products.new.items ≡ e_row ops of_number (places_of given.now) round.t) }
{
    let t = round.t;
    products.clear();
    let a = Placed { word: Word::A(t) };
    push_worth(given, Gold::one(), a, products)?;
    push_first(given, round, products)?;
    let place = given.inputs + 1632 + 70 * t + 35;
    push_carry(Carried { place, bits: 3 }, products)
}

// Word `i` of A 63, A 62, A 61, A 60, E 63, E 62, E 61, E 60.
fn last_word(of: StateWord) -> Placed
    ensures { result.word ≡ last_word_of ops of_number of.i }
{
    let word = if of.i < 4 {
        Word::A(67 - of.i)
    } else {
        Word::E(71 - of.i)
    };
    Placed { word }
}

// Whether word `i` of the digest follows.
fn f_products(
    given: &Given,
    of: StateWord,
    products: &mut Vec<Product<Gold>>,
) -> Result<(), AllocError>
    ensures { OnOk result (products.new.items ≡ f_row ops of_number (places_of given.now) of.i) }
{
    let first = Word::State(of.i);
    let place = given.inputs + 6112 + 33 * of.i;
    products.clear();
    push_worth(given, Gold::one(), Placed { word: first }, products)?;
    push_worth(given, Gold::one(), last_word(of), products)?;
    push_carry(Carried { place, bits: 1 }, products)
}

// Whether it is public input `i`.
fn digest_products(
    given: &Given,
    of: StateWord,
    products: &mut Vec<Product<Gold>>,
) -> Result<(), AllocError>
    ensures { OnOk result (products.new.items ≡ digest_row ops of_number (places_of given.now) of.i) }
{
    let place = given.inputs + 6112 + 33 * of.i;
    products.clear();
    push_row_worth(Gold::one(), Row { place, count: 32 }, products)?;
    products.extend_from_slice(&[linear(Gold::one().neg(), wire_entry(1 + of.i))])
}

// Output `k` of those of the rounds: A's and E's in turn.
fn round_products(
    given: &Given,
    k: u32,
    products: &mut Vec<Product<Gold>>,
) -> Result<(), AllocError>
    requires { k < 128 }
    ensures { let place = places_of given.now in
        OnOk result (products.new.items
        ≡ row_at (a_row ops of_number place (k / 2) ∷ e_row ops of_number place (k / 2) ∷ []) (k % 2)) }
{
    let round = Round { t: k / 2 };
    if k % 2 == 0 {
        a_products(given, round, products)
    } else {
        e_products(given, round, products)
    }
}

// Output `k` of those of the digest.
fn last_products(given: &Given, k: u32, products: &mut Vec<Product<Gold>>) -> Result<(), AllocError>
    requires { k < 16 }
    ensures { let place = places_of given.now in
        OnOk result (products.new.items
        ≡ (if nat_lt k 8 then f_row ops of_number place k else digest_row ops of_number place (k - 8))) }
{
    if k < 8 {
        f_products(given, StateWord { i: k }, products)
    } else {
        digest_products(given, StateWord { i: k - 8 }, products)
    }
}

// Output `k`.
fn output_products(
    given: &Given,
    k: u32,
    products: &mut Vec<Product<Gold>>,
) -> Result<(), AllocError>
    requires { k < given.now.inputs + 6568 }
    ensures { OnOk result (products.new.items ≡ row_at (output_rows ops of_number (places_of given.now)) k) }
{
    let privates = given.inputs + 6376;
    if k < privates {
        return bit_products(k, products);
    }
    let at = k - privates;
    if at < 48 {
        w_products(given, LaterRound { t: 16 + at }, products)
    } else if at < 176 {
        round_products(given, at - 48, products)
    } else {
        last_products(given, at - 176, products)
    }
}

// Appends the terms of the outputs' layer, by a list for the products of one wire.
fn push_outputs(
    alloc: Global,
    given: &Given,
    products: &mut Vec<Product<Gold>>,
    terms: &mut Vec<Term<Gold>>,
) -> Result<(), AllocError>
    ensures { OnOk result (Grows ops (inner_count (places_of given.now)) 0 terms.old.items
        (output_rows ops of_number (places_of given.now)) terms.new.items) }
{
    for k in 0..given.inputs + 6568 {
        output_products(given, k, products)?;
        push_row(alloc, k, products, terms)?;
    }
    Ok(())
}

// The terms of the outputs' layer.
pub(crate) fn output_terms(alloc: Global, given: &Given) -> Result<Vec<Term<Gold>>, AllocError>
    ensures { IfOk result (λ terms.
        IsBuilt ops (inner_count (places_of given.now)) (output_rows ops of_number (places_of given.now)) terms.items) }
{
    let mut products = Vec::new(alloc);
    let mut terms = Vec::new(alloc);
    push_outputs(alloc, given, &mut products, &mut terms)?;
    Ok(terms)
}
