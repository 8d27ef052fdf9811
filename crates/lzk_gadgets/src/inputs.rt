//! The nodes of inputs that stand in a row.

ghost use Rattle.std.specs.Prelude.{◌≡◌, ℕ, ◌+◌, ◌<◌, ◌≤◌, List, length, IfOk};
ghost use Rattle.lzk_goldilocks.specs.Elements.{ops};
ghost use Rattle.lzk_goldilocks.specs.declared.element.Gold.{Gold};
ghost use Rattle.lzk_field.specs.Sums.{entry};
ghost use Rattle.lzk_gadgets.specs.Claims.{AreInputs, AreNodes, value};
ghost use Rattle.lzk_level.specs.Nodes.{node_count};
ghost use Rattle.lzk_circuit_reduce.specs.Renumbering.{at};

use crate::statement::Statement;
use lzk_level::Node;
use std::alloc::{AllocError, Global};

/// The nodes of so many public inputs, from `start` on.
pub fn public_nodes(
    alloc: Global,
    s: &Statement,
    start: u32,
    count: u32,
) -> Result<Vec<Node>, AllocError>
    requires { start + count ≤ s.now.nodes.publics }
    ensures count { IfOk result (λ nodes. length nodes.items ≡ count) }
    ensures nodes { IfOk result (λ nodes. AreNodes (node_count s.now.nodes) nodes.items) }
    ensures each { (public private : List Gold) → AreInputs s.now public private → IfOk result (λ nodes.
        (k : ℕ) → k < count → value ops s.now public private (at nodes.items k) ≡ entry ops public (start + k)) }
{
    s.room_laws();
    let mut nodes = Vec::with_capacity(alloc, count as usize)?;
    for k in 0..count {
        let node = s.public(start + k);
        nodes.push(node)?;
    }
    Ok(nodes)
}

/// The nodes of so many private inputs, from `start` on.
pub fn private_nodes(
    alloc: Global,
    s: &Statement,
    start: u32,
    count: u32,
) -> Result<Vec<Node>, AllocError>
    requires { start + count ≤ s.now.nodes.privates }
    ensures count { IfOk result (λ nodes. length nodes.items ≡ count) }
    ensures nodes { IfOk result (λ nodes. AreNodes (node_count s.now.nodes) nodes.items) }
    ensures each { (public private : List Gold) → AreInputs s.now public private → IfOk result (λ nodes.
        (k : ℕ) → k < count → value ops s.now public private (at nodes.items k) ≡ entry ops private (start + k)) }
{
    s.room_laws();
    let mut nodes = Vec::with_capacity(alloc, count as usize)?;
    for k in 0..count {
        let node = s.private(start + k);
        nodes.push(node)?;
    }
    Ok(nodes)
}
