//! Writing a circuit's parts from left to right.

ghost use Rattle.std.specs.Prelude.{◌≡◌, ◌≤◌, ◌<◌, ◌^◌, ◌+◌, ◌-◌, ◌++◌, length, map, vec_len, vec_capacity, OnOk, IfOk};
ghost use Rattle.std.specs.Int.{w32, to_le_bytes};
ghost use Rattle.lzk_field.specs.Bytes.{bytes_of};
ghost use Rattle.lzk_circbytes.specs.Numbered.{shape, numbered_term, numbered_layer};
ghost use Rattle.lzk_circbytes.specs.Reading.{as_before};
ghost use Rattle.lzk_circbytes.specs.Spelling.{spells, septets, varint, index_of, term_bytes, layer_bytes, constants_bytes};
ghost use Rattle.lzk_circbytes.specs.Fits.{CanWriteAll};
ghost use Rattle.lzk_circbytes.specs.Answers.{under};

use crate::slots::Constants;
use lzk_circuit::{Layer, Term};
use lzk_field::Field;
use std::alloc::AllocError;

/// A count in four bytes.
pub(crate) fn push_word(out: &mut Vec<u8>, n: u32) -> Result<(), AllocError>
    ensures { OnOk result (out.new.items ≡ out.old.items ++ to_le_bytes w32 n) }
{
    out.extend_from_slice(&n.to_le_bytes())
}

/// The bytes of a term, at most: four numbers of five bytes each.
const MOST_OF_TERM: usize = 20;

#[tactic(auto, using(crate::proofs::Varints::septets_small, crate::proofs::Varints::septets_big))]
fn put_septets(out: &mut Vec<u8>, k: u32, n: u32)
    requires some { 1 ≤ k }
    requires most { k ≤ 5 }
    requires small { n < 128 ^ k }
    requires room { vec_len out.old + k ≤ vec_capacity out.old }
    ensures items { out.new.items ≡ out.old.items ++ septets k n }
    ensures len { vec_len out.new ≤ vec_len out.old + k }
    ensures capacity { vec_capacity out.new ≡ vec_capacity out.old }
{
    if n < 128 {
        out.push_reserved(n as u8);
        return;
    }
    out.push_reserved((128 + n % 128) as u8);
    put_septets(out, k - 1, n / 128);
}

// A wire's number has at most three bytes, which are written with no call for each.
#[tactic(auto, using(crate::proofs::Varints::varint_of_one, crate::proofs::Varints::varint_of_two, crate::proofs::Varints::varint_of_three))]
fn put_varint(out: &mut Vec<u8>, n: u32)
    requires room { vec_len out.old + 5 ≤ vec_capacity out.old }
    ensures items { out.new.items ≡ out.old.items ++ varint n }
    ensures len { vec_len out.new ≤ vec_len out.old + 5 }
    ensures capacity { vec_capacity out.new ≡ vec_capacity out.old }
{
    if n < 128 {
        out.push_reserved(n as u8);
    } else if n < 16_384 {
        out.push_reserved((128 + n % 128) as u8);
        out.push_reserved((n / 128) as u8);
    } else if n < 2_097_152 {
        out.push_reserved((128 + n % 128) as u8);
        out.push_reserved((128 + n / 128 % 128) as u8);
        out.push_reserved((n / 16_384) as u8);
    } else {
        put_septets(out, 5, n);
    }
}

/// A number's lowest bytes, the lowest first.
fn push_bytes(out: &mut Vec<u8>, count: usize, n: u128) -> Result<(), AllocError>
    ensures { OnOk result (out.new.items ≡ out.old.items ++ bytes_of count n) }
{
    let mut rest = n;
    for _ in 0..count {
        out.push((rest % 256) as u8)?;
        rest /= 256;
    }
    Ok(())
}

/// The constants, by their numbers.
pub(crate) fn push_constants<F: Field>(
    out: &mut Vec<u8>,
    constants: &[u128],
) -> Result<(), AllocError>
    ensures { OnOk result (out.new.items
        ≡ out.old.items ++ constants_bytes (shape F.coding.id F.coding.bytes F.coding.size) constants.now) }
{
    for c in constants {
        push_bytes(out, F::BYTES, *c)?;
    }
    Ok(())
}

/// Writes a term behind one of wire `before`.
fn push_term<F: Field>(
    out: &mut Vec<u8>,
    constants: &Constants<'_>,
    before: u32,
    term: Term<F>,
) -> Result<(), AllocError>
    requires found { index_of constants.now.numbers.now (F.coding.number term.coef) < length constants.now.numbers.now }
    requires g { before ≤ term.g }
    requires a { term.a ≤ term.b }
    ensures { OnOk result (out.new.items
        ≡ (((out.old.items ++ varint (term.g - before)) ++ varint term.a) ++ varint (term.b - term.a))
        ++ varint (index_of constants.now.numbers.now (F.coding.number term.coef))) }
{
    let at = constants.place_of(term.coef.number());
    out.reserve(MOST_OF_TERM)?;
    put_varint(out, term.g - before);
    put_varint(out, term.a);
    put_varint(out, term.b - term.a);
    put_varint(out, at);
    Ok(())
}

fn push_terms<F: Field>(
    out: &mut Vec<u8>,
    constants: &Constants<'_>,
    terms: &[Term<F>],
) -> Result<(), AllocError>
    requires fit { CanWriteAll constants.now.numbers.now (map (numbered_term F.coding.number) terms.now) }
    ensures { OnOk result (out.new.items
        ≡ out.old.items
        ++ spells as_before (term_bytes constants.now.numbers.now) None
        (map (numbered_term F.coding.number) terms.now)) }
{
    let mut before = 0;
    for t in terms {
        push_term(out, constants, before, *t)?;
        before = t.g;
    }
    Ok(())
}

/// A layer's counts and terms.
#[tactic(auto, unfolding(crate::specs::Spelling::layer_bytes))]
pub(crate) fn push_layer<F: Field>(
    out: &mut Vec<u8>,
    constants: &Constants<'_>,
    layer: &Layer<F>,
) -> Result<(), AllocError>
    requires fit { CanWriteAll constants.now.numbers.now (map (numbered_term F.coding.number) layer.now.terms) }
    requires terms { length layer.now.terms < 2 ^ 32 }
    ensures { OnOk result (out.new.items
        ≡ out.old.items
        ++ layer_bytes constants.now.numbers.now (under 0 0 0) (numbered_layer F.coding.number layer.now)) }
{
    let terms = layer.terms.as_slice();
    push_word(out, layer.wires)?;
    push_word(out, terms.len() as u32)?;
    push_terms(out, constants, terms)
}
