//! The last level that uses each node.

ghost use Rattle.std.specs.Prelude.{◌≡◌, ℕ, ◌+◌, ◌-◌, ◌<◌, ◌≤◌, min, length, IfOk};
ghost use Rattle.lzk_circuit_reduce.specs.Renumbering.{at};
ghost use Rattle.lzk_level.specs.Stacking.{AreOutputs, AreNeededTo};
ghost use Rattle.lzk_level.specs.Stacks.{AreAssertable};
ghost use Rattle.lzk_level.specs.Uses.{node_form, IsFormed, AreBefore, AreUsedTo, AreUses};

use crate::forms::Forms;
use crate::node::{Node, of_node};
use lzk_circuit::Term;
use lzk_field::Field;
use std::alloc::{AllocError, Global};

// A node is used up to a level at least.
fn use_node(last: &mut Vec<u32>, k: u32, level: u32)
    requires node { k < length last.now.items }
    ensures count { length last.new.items ≡ length last.old.items }
    ensures grown { (j : ℕ) → at last.old.items j ≤ at last.new.items j }
    ensures others { (j : ℕ) → k < j → at last.new.items j ≡ at last.old.items j }
    ensures used { level ≤ at last.new.items k }
{
    let k = k as usize;
    if last[k] < level {
        last[k] = level;
    }
}

// So are the nodes of terms.
fn use_terms<F: Field>(last: &mut Vec<u32>, terms: &[Term<F>], level: u32)
    requires terms { AreBefore (length last.now.items) terms.now }
    ensures count { length last.new.items ≡ length last.old.items }
    ensures grown { (j : ℕ) → at last.old.items j ≤ at last.new.items j }
    ensures others { (k : ℕ) → AreBefore k terms.now → (j : ℕ) → k ≤ j → at last.new.items j ≡ at last.old.items j }
    ensures used { AreUsedTo last.new.items level terms.now }
{
    for i in 0..terms.len() {
        let term = terms[i];
        use_node(last, term.a, level);
        use_node(last, term.b, level);
    }
}

// So are those of the form of node `k`, if this is used at its own depth.
fn use_form<F: Field>(last: &mut Vec<u32>, k: usize, form: &[Term<F>], depth: u32)
    requires node { k < length last.now.items }
    requires form { AreBefore k form.now }
    ensures count { length last.new.items ≡ length last.old.items }
    ensures grown { (j : ℕ) → at last.old.items j ≤ at last.new.items j }
    ensures others { (j : ℕ) → k ≤ j → at last.new.items j ≡ at last.old.items j }
    ensures used { depth ≤ at last.new.items k → AreUsedTo last.new.items depth form.now }
{
    if depth <= last[k] {
        use_terms(last, form, depth);
    }
}

// A node that is used at its depth uses the nodes of its form there, since their wires make its own.
fn use_forms<F: Field>(last: &mut Vec<u32>, inputs: usize, forms: &Forms<F>, depths: &[u32])
    requires count { length last.now.items ≡ length depths.now }
    requires formed { IsFormed inputs forms.now depths.now }
    ensures count { length last.new.items ≡ length depths.now }
    ensures grown { (j : ℕ) → at last.old.items j ≤ at last.new.items j }
    ensures used { (k : ℕ) → inputs ≤ k → k < length depths.now → at depths.now k ≤ at last.new.items k
        → AreUsedTo last.new.items (at depths.now k)
        (node_form inputs forms.now k) }
{
    let count = depths.len() - inputs;
    for j in 0..count {
        let i = count - 1 - j;
        let k = inputs + i;
        use_form(last, k, forms.form(i), depths[k]);
    }
}

// Nodes are used up to the level above their own, or the uppermost, and all of them up to the lowest of some levels.
fn use_nodes(last: &mut Vec<u32>, depths: &[u32], nodes: &[Node], lowest: u32, count: u32)
    requires count { length last.now.items ≡ length depths.now }
    requires nodes { (i : ℕ) → i < length nodes.now → at nodes.now i < length depths.now }
    ensures count { length last.new.items ≡ length last.old.items }
    ensures grown { (j : ℕ) → at last.old.items j ≤ at last.new.items j }
    ensures lowest { (i : ℕ) → i < length nodes.now → lowest ≤ at last.new.items (at nodes.now i) }
    ensures used { (i : ℕ) → i < length nodes.now
        → min count (at depths.now (at nodes.now i) + 1) ≤ at last.new.items (at nodes.now i) }
{
    for i in 0..nodes.len() {
        let node = nodes[i];
        let k = node.number();
        let depth = of_node(depths, node);
        let level = if depth < count { depth + 1 } else { count };
        use_node(last, k, level);
        use_node(last, k, lowest);
    }
}

/// The last level that uses each node. The outputs and the one are used up to the uppermost, and the asserted nodes at
/// the level above their own, or at the uppermost.
pub(crate) fn last_uses<F: Field>(
    alloc: Global,
    inputs: usize,
    forms: &Forms<F>,
    depths: &[u32],
    outputs: &[Node],
    asserts: &[Node],
    count: u32,
) -> Result<Vec<u32>, AllocError>
    requires formed { IsFormed inputs forms.now depths.now }
    requires outputs { AreOutputs depths.now outputs.now count }
    requires asserts { (i : ℕ) → i < length asserts.now → at asserts.now i < length depths.now }
    ensures uses { IfOk result (λ last. AreUses inputs forms.now depths.now last.items) }
    ensures outputs { IfOk result (λ last. AreNeededTo last.items outputs.now count) }
    ensures asserts { IfOk result (λ last. AreAssertable depths.now last.items asserts.now count) }
{
    let mut last = vec![in alloc; 1; depths.len()]?;
    last[0] = count;
    use_nodes(&mut last, depths, outputs, count, count);
    use_nodes(&mut last, depths, asserts, 0, count);
    use_forms(&mut last, inputs, forms, depths);
    Ok(last)
}
