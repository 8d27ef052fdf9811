//! Numbers that private inputs spell.

ghost use Rattle.std.specs.Prelude.{◌≡◌, ◌+◌, ◌*◌, ◌≤◌, List, take, drop, length, IfOk};
ghost use Rattle.lzk_goldilocks.specs.Elements.{ops};
ghost use Rattle.lzk_goldilocks.specs.declared.element.Gold.{Gold};
ghost use Rattle.lzk_level.specs.Nodes.{node_count, IsNode};
ghost use Rattle.lzk_gadgets.specs.Claims.{AreInputs, AreNodes, value, values, Makes, Adds};
ghost use Rattle.lzk_gadgets.specs.Spelled.{Spells};
ghost use Rattle.lzk_policy_circuit.specs.Met.{byte_worth, number_worth};

use lzk_field::Field;
use lzk_gadgets::Statement;
use lzk_goldilocks::Gold;
use lzk_level::Node;
use std::alloc::{AllocError, Global};

/// The byte whose bits stand from private input `at` on, the highest first.
pub(crate) fn byte(s: &mut Statement, at: u32) -> Result<Node, AllocError>
    requires there { at + 8 ≤ s.old.nodes.privates }
    ensures makes { IfOk result (λ node. Makes ops 9 s.old s.new node) }
    ensures value { (public private : List Gold) → AreInputs s.old public private →
        IfOk result (λ node. value ops s.new public private node ≡ byte_worth private at) }
{
    s.room_laws();
    let bits = [
        s.private(at + 7),
        s.private(at + 6),
        s.private(at + 5),
        s.private(at + 4),
        s.private(at + 3),
        s.private(at + 2),
        s.private(at + 1),
        s.private(at),
    ];
    let node = s.worth(&bits)?;
    Ok(node)
}

/// The number of `size` bytes whose bits stand from private input `at` on.
pub(crate) fn number(s: &mut Statement, at: u32, size: u32) -> Result<Node, AllocError>
    requires there { at + 8 * size ≤ s.old.nodes.privates }
    ensures makes { IfOk result (λ node. Makes ops (1 + 10 * size) s.old s.new node) }
    ensures value { (public private : List Gold) → AreInputs s.old public private →
        IfOk result (λ node. value ops s.new public private node ≡ number_worth private at size) }
{
    if size == 0 {
        let zero = s.constant(Gold::zero())?;
        return Ok(zero);
    }
    s.room_laws();
    let above = number(s, at, size - 1)?;
    let last = byte(s, at + 8 * (size - 1))?;
    let node = s.weighted(Gold::one(), last, Gold::of_word(256), above)?;
    Ok(node)
}

// So many private inputs from `at` on.
fn bits_from(alloc: Global, s: &Statement, at: u32, count: u32) -> Result<Vec<Node>, AllocError>
    requires { at + count ≤ s.now.nodes.privates }
    ensures count { IfOk result (λ bits. length bits.items ≡ count) }
    ensures nodes { IfOk result (λ bits. AreNodes (node_count s.now.nodes) bits.items) }
    ensures values { (public private : List Gold) → AreInputs s.now public private →
        IfOk result (λ bits. values ops s.now public private bits.items ≡ take count (drop at private)) }
{
    s.room_laws();
    let mut bits = Vec::new(alloc);
    for k in 0..count {
        bits.push(s.private(at + k))?;
    }
    Ok(bits)
}

/// Claims that a node is a number of 32 bits, which are the private inputs from `at` on, the lowest first.
pub(crate) fn assert_word(
    alloc: Global,
    s: &mut Statement,
    x: Node,
    at: u32,
) -> Result<(), AllocError>
    requires there { at + 32 ≤ s.old.nodes.privates }
    requires node { IsNode (node_count s.old.nodes) x }
    ensures { IfOk result (λ _. Adds ops 98 33 s.old s.new
        (λ public private. Spells (value ops s.old public private x).n (take 32 (drop at private)))) }
{
    let bits = bits_from(alloc, s, at, 32)?;
    s.assert_spelled(x, &bits)?;
    Ok(())
}
