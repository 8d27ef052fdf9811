//! The constraints, combined in all rows.

ghost use Rattle.std.specs.Prelude.{◌≡◌, ℕ, ◌+◌, ◌-◌, ◌*◌, ◌<◌, length};
ghost use Rattle.lzk_field.specs.Sums.{entry};
ghost use Rattle.lzk_circuit.specs.Valid.{Wiring};
ghost use Rattle.lzk_layout.specs.Sizes.{AreBounded, params_of};
ghost use Rattle.lzk_accept.specs.Challenges.{HasShape};
ghost use Rattle.lzk_accept.specs.Combination as spec;
ghost use Rattle.lzk_accept.specs.Kept.{coefficient, right, AreFormsOf, AreFormsFor};

use lzk_accept::{Challenges, Combining, Forms, combine_from};
use lzk_field::Field;
use lzk_layout::Params;

/// Combines all constraints into one, with the challenges as factors. `a` is set to the coefficients of what stands in
/// the rows, row by row from row 3 on: of the linear constraints at the committed entries, and of each copy, at its
/// place, less at the entry that it copies. Gives the sum that is wanted of them. No memory is taken. It is the plain
/// form beside `combine_factored`, for tests.
pub fn combine<F: Field>(
    params: &Params,
    forms: &Forms<F>,
    challenges: &Challenges<F>,
    a: &mut [F],
) -> F
    requires bounded { AreBounded params.now }
    requires forms { AreFormsFor F.ops params.now forms.now }
    requires shape { HasShape params.now challenges.now }
    requires room { length a.old ≡ (params.now.nrow - 3) * params.now.wr }
    ensures room { length a.new ≡ length a.old }
    ensures combined { (c : Wiring F) → params.now ≡ params_of c → AreFormsOf F.ops c forms.now → (i s : ℕ)
        → i < params.now.nrow - 3 → s < params.now.wr
        → entry F.ops a.new (i * params.now.wr + s)
        ≡ spec.combined F.ops c (coefficient F.ops forms.now) challenges.now (3 + i) s }
    ensures wanted { (c : Wiring F) → params.now ≡ params_of c → AreFormsOf F.ops c forms.now →
        result ≡ spec.wanted F.ops c (right F.ops forms.now) challenges.now }
{
    let combining = Combining {
        params,
        forms,
        challenges,
        rows: 0,
    };
    combine_from(&combining, a)
}
