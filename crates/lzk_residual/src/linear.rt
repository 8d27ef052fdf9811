//! The linear constraints of a proof, with all their coefficients.

ghost use Rattle.std.specs.Prelude.{◌≡◌, ℕ, ◌+◌, ◌<◌, length};
ghost use Rattle.lzk_layout.specs.Places.{depth};
ghost use Rattle.lzk_layout.specs.Sizes.{sent_counts, committed_count};
ghost use Rattle.lzk_sumcheck.specs.Coefficients.{coefficients};
ghost use Rattle.lzk_sumcheck.specs.Script.{HasShape};
ghost use Rattle.lzk_accept.specs.Kept.{coefficient, right, AreFormsOf};
ghost use Rattle.lzk_accept.specs.Residuals.{linear_coefficient, right_side};

use lzk_accept::{Exchange, Forms, Scripted, rest_forms};
use lzk_circuit::Circuit;
use lzk_field::Field;
use lzk_sumcheck::Script;

/// Sets the forms to the coefficients and right sides of all linear constraints: what the sumchecks' residuals are less
/// at a list of pads and private inputs. No memory is taken. It is the plain form beside `combine_factored`, for tests.
pub fn linear_forms<'a, F: Field>(
    circuit: &'a Circuit<F>,
    public: &'a [F],
    script: &'a Script<F>,
    messages: &'a [F],
    forms: &mut Forms<F>,
)
    requires public { length public.now ≡ circuit.now.publics }
    requires shape { HasShape circuit.now script.now }
    requires messages { length messages.now ≡ sent_counts circuit.now }
    requires made { AreFormsOf F.ops circuit.now forms.old }
    ensures made { AreFormsOf F.ops circuit.now forms.new }
    ensures coefficients { let q = coefficients F.ops circuit.now script.now in
        (i j : ℕ) → i < depth circuit.now + 1 → j < committed_count circuit.now
        → coefficient F.ops forms.new i j
        ≡ linear_coefficient F.ops F.coding.element circuit.now q public.now script.now messages.now i j }
    ensures rights { let q = coefficients F.ops circuit.now script.now in
        (i : ℕ) → i < depth circuit.now + 1
        → right F.ops forms.new i
        ≡ right_side F.ops F.coding.element circuit.now q public.now script.now messages.now i }
{
    let exchange = Exchange {
        scripted: Scripted { circuit, script },
        public,
        messages,
    };
    rest_forms(exchange, 0, forms);
}
