//! Which layers make a valid circuit.

ghost use Rattle.std.specs.Prelude.{◌≡◌, ◌≤◌, length, None, Some, MatchResult};
ghost use Rattle.lzk_circuit.specs.Faults.{over_limit, are_apart, coef_fault, term_fault, terms_fault, limits_fault, layer_fault, layers_fault, counts_fault};
ghost use Rattle.lzk_circuit.specs.Limits.{most_layers, most_total};
ghost use Rattle.lzk_circuit.specs.Valid.{Under, follows};

use crate::fault::{CircuitFault, CircuitKind};
use crate::layer::{Layer, Term};
use crate::limits::{MOST_IN_ALL, MOST_LAYERS, MOST_PRIVATES, MOST_PUBLICS, MOST_WIRES};
use lzk_field::Field;

fn over(layer: u32) -> CircuitFault
    ensures { result ≡ over_limit layer }
{
    CircuitFault {
        kind: CircuitKind::Limit,
        layer,
        place: 0,
    }
}

pub(crate) fn check_counts(publics: u32, privates: u32, depth: usize) -> Result<(), CircuitFault>
    ensures { MatchResult result (λ _. counts_fault publics privates depth ≡ None)
        (λ fault. counts_fault publics privates depth ≡ Some fault) }
{
    if publics > MOST_PUBLICS
        || privates > MOST_PRIVATES
        || depth < 1
        || depth > MOST_LAYERS as usize
    {
        return Err(over(0));
    }
    Ok(())
}

fn is_after<F: Field>(before: Option<Term<F>>, term: &Term<F>) -> bool
    ensures { result ≡ follows before term.now }
{
    let Some(before) = before else {
        return true;
    };
    before.g < term.g
        || (before.g == term.g && (before.a < term.a || (before.a == term.a && before.b < term.b)))
}

fn is_apart<F: Field>(before: Option<Term<F>>, term: &Term<F>) -> bool
    ensures { result ≡ are_apart F.coding.number before term.now }
{
    let Some(before) = before else {
        return true;
    };
    before.g != term.g || (before.coef.number() != 0 && term.coef.number() != 0)
}

fn find_coef_fault<F: Field>(
    version: u8,
    before: Option<Term<F>>,
    term: &Term<F>,
) -> Option<CircuitKind>
    ensures { result ≡ coef_fault F.coding.number version before term.now }
{
    if version == 1 {
        if term.coef.number() == 0 {
            return Some(CircuitKind::ZeroCoef);
        }
        return None;
    }
    if !is_apart(before, term) {
        return Some(CircuitKind::Assertion);
    }
    None
}

fn find_fault<F: Field>(
    version: u8,
    wires: u32,
    width: u32,
    before: Option<Term<F>>,
    term: &Term<F>,
) -> Option<CircuitKind>
    ensures { result ≡ term_fault F.coding.number version wires width before term.now }
{
    if term.g >= wires || term.a > term.b || term.b >= width {
        return Some(CircuitKind::Range);
    }
    if !is_after(before, term) {
        return Some(CircuitKind::Order);
    }
    find_coef_fault(version, before, term)
}

fn check_terms<F: Field>(
    version: u8,
    layer: u32,
    wires: u32,
    width: u32,
    terms: &[Term<F>],
) -> Result<(), CircuitFault>
    requires { length terms.now ≤ most_total }
    ensures { MatchResult result
        (λ _. terms_fault F.coding.number version layer wires width None 0 terms.now ≡ None)
        (λ fault. terms_fault F.coding.number version layer wires width None 0 terms.now ≡ Some fault) }
{
    let mut before = None;
    for place in 0..terms.len() {
        let term = terms[place];
        if let Some(kind) = find_fault(version, wires, width, before, &term) {
            return Err(CircuitFault {
                kind,
                layer,
                place: place as u32,
            });
        }
        before = Some(term);
    }
    Ok(())
}

fn check_limits(
    l: u32,
    under_wires: u32,
    under_terms: u32,
    wires: u32,
    terms: usize,
) -> Result<(), CircuitFault>
    requires wires { under_wires ≤ most_total }
    requires terms { under_terms ≤ most_total }
    ensures { MatchResult result (λ _. limits_fault l under_wires under_terms wires terms ≡ None)
        (λ fault. limits_fault l under_wires under_terms wires terms ≡ Some fault) }
{
    if wires < 1 || wires > MOST_WIRES {
        return Err(over(l));
    }
    if wires > MOST_IN_ALL - under_wires || terms > (MOST_IN_ALL - under_terms) as usize {
        return Err(over(l));
    }
    Ok(())
}

pub(crate) fn check_layers<F: Field>(
    version: u8,
    inputs: u32,
    layers: &[Layer<F>],
) -> Result<(), CircuitFault>
    requires { length layers.now ≤ most_layers }
    ensures { MatchResult result
        (λ _. layers_fault F.coding.number version inputs 0 layers.now ≡ None)
        (λ fault. layers_fault F.coding.number version inputs 0 layers.now ≡ Some fault) }
{
    let mut width = inputs;
    let mut wires = 0;
    let mut count = 0;
    for l in (0..layers.len()).rev() {
        let layer = &layers[l];
        let terms = layer.terms.as_slice();
        check_limits(l as u32, wires, count, layer.wires, terms.len())?;
        check_terms(version, l as u32, layer.wires, width, terms)?;
        width = layer.wires;
        wires += layer.wires;
        count += terms.len() as u32;
    }
    Ok(())
}
