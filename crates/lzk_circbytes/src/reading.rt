//! Reading a circuit's parts from left to right.

ghost use Rattle.std.specs.Prelude.{◌≡◌, ◌≤◌, ◌<◌, ◌^◌, ◌*◌, ◌+◌, [], length, map, drop, IfOk, slice_index_or};
ghost use Rattle.std.specs.List.Sorted.{IsStrictlyIncreasing};
ghost use Rattle.std.specs.Option.{option_map};
ghost use Rattle.lzk_circuit.specs.Faults.{are_apart};
ghost use Rattle.lzk_circbytes.specs.Numbered.{shape, coefs_of, zeros_of, numbered_term, numbered_layer, is_in_terms, is_coefficient};
ghost use Rattle.lzk_circbytes.specs.Reading.{word_at, septets_at, varint_at, step_at, limited_at, constant_at};
ghost use Rattle.lzk_circbytes.specs.Reading.{constants_at, stands_behind, wire_before, term_at, terms_at, layer_at};
ghost use Rattle.lzk_circbytes.specs.Reading.{layers_at};
ghost use Rattle.lzk_circbytes.specs.Answers.{Gives, Marks, unmarked_from, end_at, under};
ghost use Rattle.lzk_circuit.specs.Limits.{most_total};

use crate::fault::{ByteKind, ReadError};
use lzk_circuit::{Layer, MOST_IN_ALL, MOST_WIRES, Term, Terms};
use lzk_field::Field;
use std::alloc::{AllocError, Global};

/// The bytes of a term, at least, and of a layer with no terms.
const LEAST_TERM: usize = 4;

const LEAST_LAYER: usize = 8;

/// A check failed of the field that these bytes begin with.
pub(crate) fn stop(kind: ByteKind, bytes: &[u8]) -> ReadError
    ensures { result ≡ ReadError.Stops (length bytes.now) kind }
{
    ReadError::Stops(bytes.len(), kind)
}

#[tactic(auto, unfolding(crate::specs::Reading::word_at))]
fn word_of(bytes: &[u8]) -> Result<(u32, &[u8]), ReadError>
    ensures { Gives (λ x. (x.0, x.1.now)) result (word_at bytes.now) }
{
    if bytes.len() < 4 {
        return Err(stop(ByteKind::Truncated, bytes));
    }
    let (front, rest) = bytes.split_at(4);
    let number = u32::from_le_bytes([front[0], front[1], front[2], front[3]]);
    Ok((number, rest))
}

/// A count from `low` to `high`.
#[tactic(auto, unfolding(crate::specs::Reading::limited_at))]
pub(crate) fn limited_of(low: u32, high: u32, bytes: &[u8]) -> Result<(u32, &[u8]), ReadError>
    ensures value { Gives (λ x. (x.0, x.1.now)) result (limited_at low high bytes.now) }
    ensures bound { IfOk result (λ x. x.0 ≤ high) }
{
    let (n, rest) = word_of(bytes)?;
    if n < low || high < n {
        return Err(stop(ByteKind::Limit, bytes));
    }
    Ok((n, rest))
}

#[tactic(auto, unfolding(crate::specs::Reading::septets_at))]
fn septets_of<'a>(k: u32, field: &[u8], bytes: &'a [u8]) -> Result<(u64, &'a [u8]), ReadError>
    requires { k ≤ 5 }
    ensures value { Gives (λ x. (x.0, x.1.now)) result (septets_at k field.now bytes.now) }
    ensures bound { IfOk result (λ x. x.0 < 128 ^ k) }
{
    if k == 0 {
        return Err(stop(ByteKind::Varint, field));
    }
    match bytes {
        [] => Err(stop(ByteKind::Truncated, field)),
        [b, rest @ ..] => {
            if *b < 128 {
                return Ok((*b as u64, rest));
            }
            let (high, rest) = septets_of(k - 1, field, rest)?;
            if high == 0 {
                return Err(stop(ByteKind::Varint, field));
            }
            Ok(((*b - 128) as u64 + 128 * high, rest))
        }
    }
}

// A number of any length.
#[tactic(auto, unfolding(crate::specs::Reading::varint_at))]
fn long_varint_of(bytes: &[u8]) -> Result<(u32, &[u8]), ReadError>
    ensures { Gives (λ x. (x.0, x.1.now)) result (varint_at bytes.now) }
{
    let (n, rest) = septets_of(5, bytes, bytes)?;
    if n > u32::MAX as u64 {
        return Err(stop(ByteKind::Varint, bytes));
    }
    Ok((n as u32, rest))
}

// A wire's number has at most three bytes, which are read with no call for each.
#[tactic(auto, unfolding(crate::specs::Reading::varint_at, crate::specs::Reading::septets_at))]
fn varint_of(bytes: &[u8]) -> Result<(u32, &[u8]), ReadError>
    ensures { Gives (λ x. (x.0, x.1.now)) result (varint_at bytes.now) }
{
    match bytes {
        [a, rest @ ..] if *a < 128 => Ok((*a as u32, rest)),
        [a, b, rest @ ..] if *b < 128 && *b > 0 => {
            Ok(((*a - 128) as u32 + 128 * *b as u32, rest))
        }
        [a, b, c, rest @ ..] if *b >= 128 && *c < 128 && *c > 0 => {
            let high = (*b - 128) as u32 + 128 * *c as u32;
            Ok(((*a - 128) as u32 + 128 * high, rest))
        }
        _ => long_varint_of(bytes),
    }
}

#[tactic(auto, unfolding(crate::specs::Reading::step_at))]
fn step_of(base: u32, limit: u32, bytes: &[u8]) -> Result<(u32, &[u8]), ReadError>
    ensures value { Gives (λ x. (x.0, x.1.now)) result (step_at base limit bytes.now) }
    ensures bound { IfOk result (λ x. x.0 < limit) }
{
    let (n, rest) = varint_of(bytes)?;
    let sum = base as u64 + n as u64;
    if sum >= limit as u64 {
        return Err(stop(ByteKind::Range, bytes));
    }
    Ok((sum as u32, rest))
}

#[tactic(auto, unfolding(crate::specs::Reading::constant_at))]
fn constant_of<F: Field>(before: u128, bytes: &[u8]) -> Result<(F, &[u8]), ReadError>
    ensures { Gives (λ x. (F.coding.number x.0, x.1.now)) result
        (constant_at (shape F.coding.id F.coding.bytes F.coding.size) before bytes.now) }
{
    if bytes.len() < F::BYTES {
        return Err(stop(ByteKind::Truncated, bytes));
    }
    let (front, rest) = bytes.split_at(F::BYTES);
    match F::of_le(front) {
        Some(c) => {
            if c.number() <= before {
                return Err(stop(ByteKind::Constant, bytes));
            }
            Ok((c, rest))
        }
        None => Err(stop(ByteKind::Constant, bytes)),
    }
}

/// Room for so many constants, and in version 2 zero before them.
fn zeros_before<F: Field>(alloc: Global, version: u8, room: usize) -> Result<Vec<F>, AllocError>
    requires { room < 2 ^ 32 }
    ensures { IfOk result (λ zeros. map F.coding.number zeros.items ≡ coefs_of version []) }
{
    let mut zeros = Vec::with_capacity(alloc, room + 1)?;
    if version == 2 {
        zeros.push_reserved(F::zero());
    }
    Ok(zeros)
}

/// What the last numbers of terms count among: so many constants, ascending, and in version 2 zero before them. Room is
/// kept for no more than the bytes can hold.
pub(crate) fn coefs_of<F: Field>(
    alloc: Global,
    version: u8,
    count: u32,
    bytes: &[u8],
) -> Result<(Vec<F>, &[u8]), ReadError>
    ensures value { Gives (λ x. (drop (zeros_of version) (map F.coding.number x.0.items), x.1.now)) result
        (constants_at (shape F.coding.id F.coding.bytes F.coding.size) count bytes.now) }
    ensures zero { IfOk result (λ x.
        map F.coding.number x.0.items ≡ coefs_of version (drop (zeros_of version) (map F.coding.number x.0.items))) }
{
    let room = (count as usize).min(bytes.len() / F::BYTES);
    let mut coefs = zeros_before(alloc, version, room)?;
    let mut before = 0;
    let mut rest = bytes;
    for _ in 0..count {
        let (c, after) = constant_of::<F>(before, rest)?;
        before = c.number();
        coefs.push(c)?;
        rest = after;
    }
    Ok((coefs, rest))
}

/// The flags of the constants, behind that of zero in version 2.
pub(crate) fn constants_part<X>(version: u8, list: &[X]) -> &[X]
    requires { zeros_of version ≤ length list.now }
    ensures { result.now ≡ drop (zeros_of version) list.now }
{
    if version == 2 { &list[1..] } else { list }
}

fn is_behind<F: Field>(before: &Option<Term<F>>, g: u32, a: u32, b: u32) -> bool
    ensures { result ≡ stands_behind (option_map (numbered_term F.coding.number) before.now) g a b }
{
    match before {
        None => true,
        Some(t) => t.g < g || (t.g == g && (t.a < a || (t.a == a && t.b < b))),
    }
}

fn wire_before<F: Field>(before: &Option<Term<F>>) -> u32
    ensures { result ≡ wire_before (option_map (numbered_term F.coding.number) before.now) }
{
    match before {
        None => 0,
        Some(t) => t.g,
    }
}

fn is_apart<F: Field>(before: &Option<Term<F>>, term: &Term<F>) -> bool
    ensures { result
        ≡ are_apart (λ n. n) (option_map (numbered_term F.coding.number) before.now)
        (numbered_term F.coding.number term.now) }
{
    match before {
        None => true,
        Some(s) => s.g != term.g || (s.coef.number() != 0 && term.coef.number() != 0),
    }
}

/// What the last numbers of terms count among, each above the one before it.
#[derive(Drop)]
pub(crate) struct Coefs<'a, F: Field> {
    pub(crate) list: &'a [F],
    ghost few: { length list.now < 2 ^ 32 },
    ghost rising: { IsStrictlyIncreasing (map F.coding.number list.now) },
}

/// A term, and the number of its constant.
#[tactic(auto, unfolding(crate::specs::Reading::term_at))]
fn term_of<'a, F: Field>(
    coefs: &Coefs<'_, F>,
    wires: u32,
    below: u32,
    before: &Option<Term<F>>,
    bytes: &'a [u8],
) -> Result<((Term<F>, u32), &'a [u8]), ReadError>
    ensures value { Gives (λ x. (numbered_term F.coding.number x.0.0, x.1.now)) result (term_at
        (map F.coding.number coefs.now.list.now) wires below (option_map (numbered_term F.coding.number) before.now)
        bytes.now) }
    ensures bound { IfOk result (λ x. x.0.1 < length coefs.now.list.now) }
    ensures constant { IfOk result
        (λ x. F.coding.number x.0.0.coef ≡ slice_index_or (map F.coding.number coefs.now.list.now) x.0.1 0) }
{
    let (g, at_a) = step_of(wire_before(before), wires, bytes)?;
    let (a, at_b) = step_of(0, below, at_a)?;
    let (b, at_coef) = step_of(a, below, at_b)?;
    if !is_behind(before, g, a, b) {
        return Err(stop(ByteKind::Order, at_b));
    }
    let (k, rest) = step_of(0, coefs.list.len() as u32, at_coef)?;
    let coef = coefs.list[k as usize];
    let term = Term { g, a, b, coef };
    if !is_apart(before, &term) {
        return Err(stop(ByteKind::Assertion, at_coef));
    }
    Ok(((term, k), rest))
}

/// So many terms of a layer. Marks the constants that they have.
pub(crate) fn terms_of<'a, F: Field>(
    alloc: Global,
    coefs: &Coefs<'_, F>,
    wires: u32,
    below: u32,
    count: u32,
    used: &mut [bool],
    bytes: &'a [u8],
) -> Result<(Vec<Term<F>>, &'a [u8]), ReadError>
    requires { length used.old ≡ length coefs.now.list.now }
    ensures value { Gives (λ x. (map (numbered_term F.coding.number) x.0.items, x.1.now)) result
        (terms_at (map F.coding.number coefs.now.list.now) wires below count bytes.now) }
    ensures count { IfOk result (λ x. length x.0.items ≡ count) }
    ensures used { IfOk result (λ x.
        Marks (map F.coding.number coefs.now.list.now) (is_in_terms (map (numbered_term F.coding.number) x.0.items))
        used.old used.new) }
{
    let room = (count as usize).min(bytes.len() / LEAST_TERM);
    let mut terms = Vec::with_capacity(alloc, room)?;
    let mut before = None;
    let mut rest = bytes;
    for _ in 0..count {
        let ((term, k), after) = term_of(coefs, wires, below, &before, rest)?;
        used[k as usize] = true;
        terms.push(term)?;
        before = Some(term);
        rest = after;
    }
    Ok((terms, rest))
}

/// The layers that were read: the width of the uppermost, and how many wires and terms they have.
#[derive(Clone, Copy)]
pub(crate) struct Below {
    pub width: u32,
    pub wires: u32,
    pub terms: u32,
}

#[tactic(auto, unfolding(crate::specs::Reading::layer_at))]
fn layer_of<'a, F: Field>(
    alloc: Global,
    coefs: &Coefs<'_, F>,
    below: Below,
    used: &mut [bool],
    bytes: &'a [u8],
) -> Result<(Layer<F>, &'a [u8]), ReadError>
    requires flags { length used.old ≡ length coefs.now.list.now }
    requires wires { below.wires ≤ most_total }
    requires terms { below.terms ≤ most_total }
    ensures value { Gives (λ x. (numbered_layer F.coding.number x.0, x.1.now)) result
        (layer_at (map F.coding.number coefs.now.list.now) (under below.width below.wires below.terms) bytes.now) }
    ensures wires { IfOk result (λ x. below.wires + x.0.wires ≤ most_total) }
    ensures terms { IfOk result (λ x. below.terms + length x.0.terms ≤ most_total) }
    ensures used { IfOk result (λ x.
        Marks (map F.coding.number coefs.now.list.now) (is_in_terms (map (numbered_term F.coding.number) x.0.terms))
        used.old used.new) }
{
    let most = MOST_WIRES.min(MOST_IN_ALL - below.wires);
    let (wires, at_count) = limited_of(1, most, bytes)?;
    let (count, rest) = limited_of(0, MOST_IN_ALL - below.terms, at_count)?;
    let (terms, rest) = terms_of(alloc, coefs, wires, below.width, count, used, rest)?;
    let terms = Terms::new(terms);
    Ok((Layer { wires, terms }, rest))
}

/// So many layers, from the inputs up. Marks the constants that their terms have.
pub(crate) fn layers_of<'a, F: Field>(
    alloc: Global,
    coefs: &Coefs<'_, F>,
    inputs: u32,
    count: u32,
    used: &mut [bool],
    bytes: &'a [u8],
) -> Result<(Vec<Layer<F>>, &'a [u8]), ReadError>
    requires { length used.old ≡ length coefs.now.list.now }
    ensures value { Gives (λ x. (map (numbered_layer F.coding.number) x.0.items, x.1.now)) result
        (layers_at (map F.coding.number coefs.now.list.now) inputs count bytes.now) }
    ensures used { IfOk result (λ x.
        Marks (map F.coding.number coefs.now.list.now) (is_coefficient (map (numbered_layer F.coding.number) x.0.items))
        used.old used.new) }
{
    let mut layers = Vec::with_capacity(alloc, (count as usize).min(bytes.len() / LEAST_LAYER))?;
    let mut below = Below {
        width: inputs,
        wires: 0,
        terms: 0,
    };
    let mut rest = bytes;
    for _ in 0..count {
        let (layer, after) = layer_of(alloc, coefs, below, used, rest)?;
        below = Below {
            width: layer.wires,
            wires: below.wires + layer.wires,
            terms: below.terms + layer.terms.as_slice().len() as u32,
        };
        layers.push(layer)?;
        rest = after;
    }
    Ok((layers, rest))
}

/// That each constant is used, and that no byte is left. The bytes begin with the constants, of so many bytes each.
pub(crate) fn check_end(
    used: &[bool],
    width: usize,
    bytes: &[u8],
    rest: &[u8],
) -> Result<(), ReadError>
    requires { length used.now * width ≤ length bytes.now }
    ensures { Gives (λ u. tt) result (end_at (unmarked_from width used.now bytes.now) rest.now) }
{
    for i in 0..used.len() {
        if !used[i] {
            return Err(ReadError::Stops(bytes.len() - i * width, ByteKind::Constant));
        }
    }
    if !rest.is_empty() {
        return Err(stop(ByteKind::Trailing, rest));
    }
    Ok(())
}
