//! Inputs that satisfy the source.

ghost use Rattle.std.specs.Prelude.{◌≡◌, ◌∷◌, ◌≤◌, [], IfOk};
ghost use Rattle.lzk_goldilocks.specs.Elements.{ops, of_number};
ghost use Rattle.lzk_expr.specs.SourceValues.{source_value};
ghost use Rattle.lzk_demo.specs.Demo.{differ, bit_of, demo_public, demo_private, demo_statements};

use lzk_field::Field;
use lzk_goldilocks::Gold;
use std::alloc::{AllocError, Global};

/// Inputs of the demo's source.
#[derive(Drop)]
pub struct DemoInputs {
    /// The one public input.
    pub public: Vec<Gold>,
    /// As many private inputs as there are private bits.
    pub private: Vec<Gold>,
}

// One of two bits, and not both.
fn differ(a: bool, b: bool) -> bool
    ensures { result ≡ differ a b }
{
    if a { !b } else { b }
}

// The element that a bit stands for.
fn bit_of(bit: bool) -> Gold
    ensures { result ≡ bit_of ops bit }
{
    if bit { Gold::one() } else { Gold::zero() }
}

/// The inputs of the source with `n` private bits. `Err` where there is no memory for them.
///
/// Private input xi is 1 where i is odd and 0 where i is even, and the public input is 1 where an odd number of them
/// are 1. They satisfy the source.
pub fn demo_inputs(alloc: Global, n: u32) -> Result<DemoInputs, AllocError>
    requires { 1 ≤ n }
    ensures public { IfOk result (λ inputs. inputs.public.items ≡ demo_public ops n) }
    ensures private { IfOk result (λ inputs. inputs.private.items ≡ demo_private ops n) }
    ensures value { IfOk result (λ inputs.
        source_value ops of_number inputs.public.items inputs.private.items (demo_statements n) ≡ ops.zero ∷ []) }
{
    let Ok(mut private) = Vec::with_capacity(alloc, n as usize) else {
        return Err(AllocError);
    };
    let mut odd = false;
    let mut bit = true;
    for _ in 0..n {
        private.push_reserved(bit_of(bit));
        odd = differ(odd, bit);
        bit = !bit;
    }
    let mut public = Vec::new(alloc);
    let Ok(()) = public.push(bit_of(odd)) else {
        return Err(AllocError);
    };
    Ok(DemoInputs { public, private })
}
