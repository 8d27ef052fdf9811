//! The circuit of a path.

ghost use Rattle.std.specs.Prelude.{◌≡◌, ℕ, ◌+◌, ◌≤◌, ◌↔◌, List, ◌++◌, length, IfOk, IfErr};
ghost use Rattle.lzk_circuit.specs.Checks.{IsSatisfied};
ghost use Rattle.lzk_circuit.specs.Wires.{inputs_of};
ghost use Rattle.lzk_goldilocks.specs.Elements.{ops, number};
ghost use Rattle.lzk_goldilocks.specs.declared.element.Gold.{Gold};
ghost use Rattle.lzk_sha_path.specs.Causes.{IsPathCause};
ghost use Rattle.lzk_sha_path.specs.Climbs.{private_count, AreClimbing, IsClimb, IsOfLevels};
ghost use Rattle.lzk_profile.specs.Profile.{most_levels};

use crate::error::PathError;
use crate::level::level_circuit;
use crate::places::{Run, places_of};
use lzk_circuit::Circuit;
use lzk_circuit_beside::{Part, beside};
use lzk_goldilocks::Gold;
use lzk_profile::MOST_LEVELS;
use std::alloc::Global;

// So many levels, and others above them.
#[derive(Clone, Copy)]
struct Stack {
    own: u32,
    others: u32,
    ghost some: { 1 ≤ own },
    ghost more: { 1 ≤ others },
    ghost few: { own + others ≤ most_levels },
}

// The circuit of so many levels, and beside it that of others above them.
fn with_levels(
    alloc: Global,
    stack: Stack,
    below: &Circuit<Gold>,
    above: &Circuit<Gold>,
) -> Result<Circuit<Gold>, PathError>
    requires below { IsOfLevels stack.own below.now }
    requires above { IsOfLevels stack.others above.now }
    ensures levels { IfOk result (IsOfLevels (stack.own + stack.others)) }
    ensures cause { IfErr result (IsPathCause 1) }
{
    let count = 6897 * stack.own - 8;
    let more = 6897 * stack.others - 8;
    let (leaf, root) = (Run { start: 1, count: 8 }, Run { start: 9, count: 8 });
    let middle = Run {
        start: 17 + count,
        count: 8,
    };
    let private = Run { start: 17, count };
    let lower = places_of(alloc, leaf, middle, private)?;
    let first = Part {
        circuit: below,
        places: &lower,
    };
    let private = Run {
        start: 25 + count,
        count: more,
    };
    let upper = places_of(alloc, middle, root, private)?;
    let second = Part {
        circuit: above,
        places: &upper,
    };
    match beside(alloc, 16, count + 8 + more, &first, &second) {
        Ok(whole) => Ok(whole),
        Err(e) => Err(PathError::Beside(e)),
    }
}

// Two levels or more.
#[derive(Clone, Copy)]
struct Several {
    count: u32,
    ghost some: { 2 ≤ count },
    ghost few: { count ≤ most_levels },
}

// The circuit of two levels or more, by that of one: the circuit of half of them stands twice, or that of one stands
// below the others. So a level is laid down about twice, however many there are.
fn levels_circuit(
    alloc: Global,
    levels: Several,
    one: &Circuit<Gold>,
) -> Result<Circuit<Gold>, PathError>
    requires { IsOfLevels 1 one.now }
    ensures levels { IfOk result (IsOfLevels levels.count) }
    ensures cause { IfErr result (IsPathCause 1) }
{
    if levels.count == 2 {
        return with_levels(alloc, Stack { own: 1, others: 1 }, one, one);
    }
    let half = levels.count / 2;
    if levels.count == half + half {
        let circuit = levels_circuit(alloc, Several { count: half }, one)?;
        let stack = Stack {
            own: half,
            others: half,
        };
        return with_levels(alloc, stack, &circuit, &circuit);
    }
    let count = levels.count - 1;
    let circuit = levels_circuit(alloc, Several { count }, one)?;
    let stack = Stack {
        own: 1,
        others: count,
    };
    with_levels(alloc, stack, one, &circuit)
}

/// The circuit of a path of one level to [`MOST_LEVELS`]. Its public inputs are the eight words of a leaf, and the
/// eight words of a root.
pub fn path_circuit(alloc: Global, depth: u32) -> Result<Circuit<Gold>, PathError>
    ensures version { IfOk result (λ c. c.version ≡ 1) }
    ensures publics { IfOk result (λ c. c.publics ≡ 16) }
    ensures privates { IfOk result (λ c. c.privates ≡ private_count depth) }
    ensures climbs { (leaf root : List Gold) → length leaf ≡ 8 → length root ≡ 8 →
        IfOk result (λ c. ((private : List Gold) × (length private ≡ c.privates) ×
        IsSatisfied ops number c.layers (inputs_of ops (leaf ++ root) private)) ↔ IsClimb depth leaf root) }
    ensures satisfied { (leaf root private : List Gold) → length leaf ≡ 8 → length root ≡ 8 →
        length private ≡ private_count depth →
        IfOk result (λ c. IsSatisfied ops number c.layers (inputs_of ops (leaf ++ root) private) ↔
        AreClimbing depth leaf root private) }
    ensures some { IfOk result (λ _. 1 ≤ depth) }
    ensures few { IfOk result (λ _. depth ≤ most_levels) }
    ensures cause { IfErr result (IsPathCause depth) }
{
    if depth == 0 || depth > MOST_LEVELS {
        return Err(PathError::Depth);
    }
    let level = level_circuit(alloc)?;
    if depth == 1 {
        return Ok(level);
    }
    let whole = levels_circuit(alloc, Several { count: depth }, &level)?;
    Ok(whole)
}
