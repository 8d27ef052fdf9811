//! Residuals.

ghost use Rattle.lzk_profile.specs.Profile.{most_bits};
ghost use Rattle.std.specs.Prelude.{◌≡◌, ◌*◌, ◌^◌, ◌≤◌, length};
ghost use Rattle.lzk_layout.specs.Places.{depth};
ghost use Rattle.lzk_layout.specs.Sizes.{sent_counts, committed_count};
ghost use Rattle.lzk_sumcheck.specs.Coefficients.{coefficients};
ghost use Rattle.lzk_sumcheck.specs.Script.{HasShape};
ghost use Rattle.lzk_accept.specs.Forms.{IsForm};
ghost use Rattle.lzk_accept.specs.Residuals as spec;
ghost use Rattle.lzk_accept.specs.Residuals.{linear_coefficient, right_side};

use crate::bound::bound_of;
use crate::claims::{after_rounds, claims_on, product_of};
use crate::inputs::inputs_of;
use crate::witnessed::Witnessed;
use lzk_accept::{Exchange, Scripted};
use lzk_circuit::Circuit;
use lzk_field::Field;
use lzk_sumcheck::Script;

/// What is left of the claims when the pads and the private inputs are `w`: of layer `i`, or of the inputs where `i` is
/// the number of layers. `room` has 262,144 places in LZK1, twice as many as there are numbers of so many bits as
/// number wires, and no memory is taken. It is the plain form beside `combine_factored`, for tests.
pub fn residual<'a, F: Field>(
    circuit: &'a Circuit<F>,
    public: &'a [F],
    script: &'a Script<F>,
    messages: &'a [F],
    i: u32,
    w: &'a [F],
    room: &mut [F],
) -> F
    requires public { length public.now ≡ circuit.now.publics }
    requires shape { HasShape circuit.now script.now }
    requires messages { length messages.now ≡ sent_counts circuit.now }
    requires i { i ≤ depth circuit.now }
    requires w { length w.now ≡ committed_count circuit.now }
    requires room { length room.old ≡ 2 * 2 ^ most_bits }
    ensures value { let q = coefficients F.ops circuit.now script.now in
        result ≡ spec.residual F.ops F.coding.element circuit.now q public.now script.now messages.now w.now i }
    ensures affine { let q = coefficients F.ops circuit.now script.now in
        IsForm F.ops (committed_count circuit.now)
        (λ v. spec.residual F.ops F.coding.element circuit.now q public.now script.now messages.now v i)
        (F.ops.neg (right_side F.ops F.coding.element circuit.now q public.now script.now messages.now i))
        (linear_coefficient F.ops F.coding.element circuit.now q public.now script.now messages.now i) }
    ensures room { length room.new ≡ length room.old }
{
    let exchange = Exchange {
        scripted: Scripted { circuit, script },
        public,
        messages,
    };
    let witnessed = Witnessed { exchange, w };
    if i < circuit.depth() {
        let claim = after_rounds(&witnessed, i);
        let bound = bound_of(&witnessed.exchange.scripted, i);
        claim.sub(bound.mul(product_of(&witnessed, i)))
    } else {
        let inputs = inputs_of(&witnessed, room);
        let (first, second) = claims_on(&witnessed, i);
        inputs.sub(first).sub(script.gamma.mul(second))
    }
}
