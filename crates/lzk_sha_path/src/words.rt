//! What the statement of a level asserts of the words of its children.

ghost use Rattle.std.specs.Prelude.{◌≡◌, ℕ, ◌+◌, ◌*◌, ◌<◌, ◌≤◌, ◌↔◌, List, length, IfOk};
ghost use Rattle.lzk_field.specs.Sums.{entry};
ghost use Rattle.lzk_goldilocks.specs.Elements.{ops};
ghost use Rattle.lzk_goldilocks.specs.declared.element.Gold.{Gold};
ghost use Rattle.lzk_level.specs.Nodes.{node_count};
ghost use Rattle.lzk_gadgets.specs.Claims.{AreInputs, Holds, Keeps, Makes, value};
ghost use Rattle.lzk_sha_path.specs.Levels.{bits_worth, chosen_word, side};
ghost use Rattle.lzk_circuit.specs.Limits.{most_privates};

use lzk_field::Field;
use lzk_gadgets::Statement;
use lzk_goldilocks::Gold;
use lzk_level::Node;
use std::alloc::AllocError;

// The number whose bits are the private inputs from `at` on, the most significant first.
fn number(s: &mut Statement, at: u32, count: u32) -> Result<Node, AllocError>
    requires few { count ≤ 32 }
    requires there { at + count ≤ s.old.nodes.privates }
    requires inputs { s.old.nodes.privates ≤ most_privates }
    requires room { node_count s.old.nodes + (1 + count) ≤ 2147483648 }
    ensures makes { IfOk result (λ node. Makes ops (1 + count) s.old s.new node) }
    ensures value { (public private : List Gold) → AreInputs s.old public private →
        IfOk result (λ node. value ops s.new public private node ≡ bits_worth private at count) }
{
    if count == 0 {
        let zero = s.constant(Gold::zero())?;
        return Ok(zero);
    }
    let above = number(s, at, count - 1)?;
    let bit = s.private(at + (count - 1));
    let node = s.weighted(Gold::one(), bit, Gold::of_word(2), above)?;
    Ok(node)
}

// Claims that public input `i` is word `i` of the child on the side of the node below.
fn assert_word(s: &mut Statement, i: u32) -> Result<(), AllocError>
    requires word { i < 8 }
    requires publics { s.old.nodes.publics ≡ 16 }
    requires privates { s.old.nodes.privates ≡ 513 }
    requires room { node_count s.old.nodes + 70 ≤ 2147483648 }
    ensures keeps { IfOk result (λ _. Keeps ops 70 s.old s.new) }
    ensures count { IfOk result (λ _. length s.new.asserts ≡ length s.old.asserts + 1) }
    ensures claim { (public private : List Gold) → AreInputs s.old public private → side private < 2 →
        IfOk result (λ _. Holds ops s.new public private ↔
        (Holds ops s.old public private × (entry ops public i ≡ chosen_word private i))) }
{
    let left = number(s, 32 * i, 32)?;
    let right = number(s, 256 + 32 * i, 32)?;
    let side = s.private(512);
    let chosen = s.select(side, right, left)?;
    let word = s.public(i);
    s.assert_equal(word, chosen)?;
    Ok(())
}

/// Claims that the first public inputs, so many, are words of the child on the side of the node below.
pub(crate) fn assert_words(s: &mut Statement, count: u32) -> Result<(), AllocError>
    requires few { count ≤ 8 }
    requires publics { s.old.nodes.publics ≡ 16 }
    requires privates { s.old.nodes.privates ≡ 513 }
    requires room { node_count s.old.nodes + 70 * count ≤ 2147483648 }
    ensures keeps { IfOk result (λ _. Keeps ops (70 * count) s.old s.new) }
    ensures count { IfOk result (λ _. length s.new.asserts ≡ length s.old.asserts + count) }
    ensures claim { (public private : List Gold) → AreInputs s.old public private → side private < 2 →
        IfOk result (λ _. Holds ops s.new public private ↔ (Holds ops s.old public private ×
        ((i : ℕ) → i < count → entry ops public i ≡ chosen_word private i))) }
{
    if count == 0 {
        return Ok(());
    }
    assert_words(s, count - 1)?;
    assert_word(s, count - 1)?;
    Ok(())
}
