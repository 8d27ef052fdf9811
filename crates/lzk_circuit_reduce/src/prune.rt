//! Wires that nothing uses go, from the outputs down.

ghost use Rattle.std.specs.Prelude.{◌≡◌, ℕ, ◌+◌, ◌<◌, ◌^◌, None, true, [], ◌∷◌, ◌++◌, length, IfOk};
ghost use Rattle.lzk_circuit.specs.Valid.{AreTerms, under_of};
ghost use Rattle.lzk_circuit_reduce.specs.Marks.{is_marked, marked_before, AreMarkedPlaces};
ghost use Rattle.lzk_circuit_reduce.specs.Targets.{AreBelow};
ghost use Rattle.lzk_circuit_reduce.specs.Used.{used_layer, marks_of_under, IsPruned, ArePrunedTo};
ghost use Rattle.lzk_circuit_reduce.specs.Asserting.{AreUsedWith, AreAllUsedWith};

use crate::marks::{first_marked, mark_named, mark_used, marked_places};
use crate::push::push;
use crate::reducible::Reducible;
use crate::targets::{Targets, add_renumbered, mark_each, targets_of};
use lzk_circuit::{Layer, Term, Terms};
use lzk_field::Field;
use std::alloc::{AllocError, Global};

// Which wires of a layer stay.
#[derive(Drop)]
struct Marked {
    marks: Vec<bool>,
    // Each wire's number among the marked ones.
    places: Vec<u32>,
    // How many are marked.
    count: u32,
    ghost placed: { AreMarkedPlaces marks.items places.items },
    ghost counted: { count ≡ marked_before marks.items (length marks.items) },
}

// The marked wires with their numbers.
fn with_places(alloc: Global, marks: Vec<bool>) -> Result<Marked, AllocError>
    requires { length marks.items < 2 ^ 32 }
    ensures { IfOk result (λ marked. marked.marks ≡ marks) }
{
    let Ok((places, count)) = marked_places(alloc, &marks) else {
        return Err(AllocError);
    };
    Ok(Marked {
        marks,
        places,
        count,
    })
}

// So many wires, all of them marked.
fn all_marked(alloc: Global, count: u32) -> Result<Marked, AllocError>
    ensures count { IfOk result (λ all. length all.marks.items ≡ count) }
    ensures marks { IfOk result (λ all. (k : ℕ) → k < count → is_marked all.marks.items k ≡ true) }
{
    let mut marks = Vec::new(alloc);
    let Ok(()) = marks.resize(count as usize, true) else {
        return Err(AllocError);
    };
    with_places(alloc, marks)
}

// The wires below a layer, that is of the first of the layers under it. Those that its terms name are marked, and
// those that it asserts. All inputs are marked.
fn marks_with<F: Field>(
    alloc: Global,
    inputs: u32,
    layer: &Layer<F>,
    marks: &[bool],
    own: &[u32],
    under: &[Layer<F>],
) -> Result<Marked, AllocError>
    requires terms { AreTerms F.ops (length marks.now) (under_of inputs under.now).width None layer.now.terms }
    requires targets { AreBelow (under_of inputs under.now).width own.now }
    ensures { IfOk result
        (λ below. below.marks.items ≡ marks_of_under inputs marks.now layer.now.terms own.now under.now) }
{
    let Some(first) = under.first() else {
        return all_marked(alloc, inputs);
    };
    let Ok(mut below) = first_marked(alloc, first.wires) else {
        return Err(AllocError);
    };
    let named = below.as_mut_slice();
    mark_used(named, layer.terms.as_slice(), marks);
    mark_each(named, own);
    with_places(alloc, below)
}

// Adds the marked wires of a layer, over the marked ones below, to the layers.
fn add_marked<F: Field>(
    alloc: Global,
    layer: &Layer<F>,
    above: &Marked,
    below: &Marked,
    kept: &mut Vec<Layer<F>>,
) -> Result<(), AllocError>
    requires { AreTerms F.ops (length above.now.marks.items) (length below.now.marks.items) None layer.now.terms }
    ensures { IfOk result (λ _.
        kept.new.items ≡ kept.old.items ++ used_layer above.now.marks.items below.now.marks.items layer.now ∷ []) }
{
    let terms = layer.terms.as_slice();
    let Ok(mut used) = Vec::with_capacity(alloc, terms.len()) else {
        return Err(AllocError);
    };
    for i in 0..terms.len() {
        let term = terms[i];
        if above.marks[term.g as usize] {
            used.push_reserved(Term {
                g: above.places[term.g as usize],
                a: below.places[term.a as usize],
                b: below.places[term.b as usize],
                coef: term.coef,
            });
        }
    }
    push(
        kept,
        Layer {
            wires: above.count,
            terms: Terms::new(used),
        },
    )
}

// Whether all of these wires are marked.
fn are_marked(marks: &[bool]) -> bool
    ensures { result ≡ true → (k : ℕ) → k < length marks.now → is_marked marks.now k ≡ true }
{
    for mark in marks {
        if !*mark {
            return false;
        }
    }
    true
}

// Whether a layer that asserts these wires names or asserts each wire of the layer below it, other than wire 0.
fn is_used<F: Field>(
    alloc: Global,
    above: &Layer<F>,
    own: &[u32],
    layer: &Layer<F>,
) -> Result<bool, AllocError>
    requires terms { AreTerms F.ops above.now.wires layer.now.wires None above.now.terms }
    requires targets { AreBelow layer.now.wires own.now }
    ensures { IfOk result (λ used. used ≡ true → AreUsedWith above.now own.now layer.now) }
{
    let Ok(mut below) = first_marked(alloc, layer.wires) else {
        return Err(AllocError);
    };
    let marks = below.as_mut_slice();
    mark_named(marks, above.terms.as_slice());
    mark_each(marks, own);
    Ok(are_marked(marks))
}

/// Whether each wire of an inner layer, other than wire 0, is named by a term above, or asserted there.
pub(crate) fn are_used<F: Field>(
    alloc: Global,
    given: &Reducible<'_, F>,
) -> Result<bool, AllocError>
    ensures { IfOk result (λ used. used ≡ true → AreAllUsedWith given.now.targets.now given.now.layers.now) }
{
    let layers = given.layers;
    for l in 1..layers.len() {
        let own = targets_of(given.targets, l - 1);
        let Ok(used) = is_used(alloc, &layers[l - 1], own, &layers[l]) else {
            return Err(AllocError);
        };
        if !used {
            return Ok(false);
        }
    }
    Ok(true)
}

// Adds the marked wires of layer `l` to the layers, and what it asserts to the lists. Gives which wires below stay.
fn add_pruned<F: Field>(
    alloc: Global,
    given: &Reducible<'_, F>,
    l: usize,
    above: &Marked,
    kept: &mut Vec<Layer<F>>,
    moved: &mut Vec<Targets>,
) -> Result<Marked, AllocError>
    requires there { l < length given.now.layers.now }
    requires done { ArePrunedTo F.ops given.now.inputs given.now.targets.now given.now.layers.now above.now.marks.items
        l moved.now.items kept.now.items }
    ensures { IfOk result (λ below.
        ArePrunedTo F.ops given.now.inputs given.now.targets.now given.now.layers.now below.marks.items (l + 1)
        moved.new.items kept.new.items) }
{
    let layers = given.layers;
    let layer = &layers[l];
    let own = targets_of(given.targets, l);
    let Ok(below) = marks_with(
        alloc,
        given.inputs,
        layer,
        &above.marks,
        own,
        &layers[l + 1..],
    ) else {
        return Err(AllocError);
    };
    let Ok(()) = add_marked(alloc, layer, above, &below, kept) else {
        return Err(AllocError);
    };
    let Ok(()) = add_renumbered(alloc, own, &below.places, moved) else {
        return Err(AllocError);
    };
    Ok(below)
}

/// Layers without the wires, other than wire 0, of inner layers that no term above names and that are
/// not asserted there, and what they assert.
pub(crate) fn pruned<F: Field>(
    alloc: Global,
    given: &Reducible<'_, F>,
) -> Result<(Vec<Layer<F>>, Vec<Targets>), AllocError>
    ensures { IfOk result (λ kept.
        IsPruned given.now.inputs given.now.targets.now given.now.layers.now kept.1.items kept.0.items) }
{
    let layers = given.layers;
    let Ok(mut above) = all_marked(alloc, layers[0].wires) else {
        return Err(AllocError);
    };
    let mut kept = Vec::new(alloc);
    let mut moved = Vec::new(alloc);
    for l in 0..layers.len() {
        let Ok(below) = add_pruned(alloc, given, l, &above, &mut kept, &mut moved) else {
            return Err(AllocError);
        };
        above = below;
    }
    drop(above);
    Ok((kept, moved))
}
