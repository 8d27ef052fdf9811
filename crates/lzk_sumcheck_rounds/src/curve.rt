//! A round's value as a polynomial, from two tables whose products are summed.

ghost use Rattle.std.specs.Prelude.{◌≡◌, ℕ, ◌*◌, ◌≤◌, length, ⊤};
ghost use Rattle.lzk_field.specs.Sums.{sum_below};
ghost use Rattle.lzk_sumcheck_rounds.specs.Pairs.{bound_entry};
ghost use Rattle.lzk_sumcheck_rounds.specs.Rows.{round_at};

use crate::arithmetic::plus_product;
use lzk_field::Field;
use lzk_sumcheck::entry_at;
use std::alloc::AllocError;

/// The sum of two tables' products, that of the even places' products, and that of the products of the differences from
/// an even place to the next.
#[derive(Copy)]
pub struct RoundSums<F> {
    pub all: F,
    pub even: F,
    pub lead: F,
}

impl<F: Copy> Clone for RoundSums<F> {
    ghost is_clone = { λ sums copy. copy ≡ sums };

    ghost is_infallible = { λ _. ⊤ };

    fn clone(&self) -> Result<RoundSums<F>, AllocError> {
        Ok(*self)
    }
}

/// The sums of a round, from which its value at each point follows.
pub(crate) fn round_sums<F: Field>(rows: &[F], table: &[F]) -> RoundSums<F>
    requires { length rows.now ≡ length table.now }
    ensures { let o = F.ops in
        (half : ℕ) → length table.now ≤ 2 * half → (t : F)
        → round_at o result t
        ≡ sum_below o half (λ i. o.times (bound_entry o t rows.now i) (bound_entry o t table.now i)) }
{
    let all = F::dot(rows, table);
    let mut even = F::zero();
    let mut lead = F::zero();
    for i in 0..table.len() / 2 + table.len() % 2 {
        let (row, value) = (rows[2 * i], table[2 * i]);
        let row_step = entry_at(rows, 2 * i + 1).sub(row);
        let value_step = entry_at(table, 2 * i + 1).sub(value);
        even = plus_product(even, row, value);
        lead = plus_product(lead, row_step, value_step);
    }
    RoundSums { all, even, lead }
}

impl<F: Field> RoundSums<F> {
    ghost use Rattle.std.specs.Prelude.{◌≡◌};
    ghost use Rattle.lzk_sumcheck_rounds.specs.Rows.{round_at};

    /// The round's value at t.
    pub fn at(self, t: F) -> F
        ensures { result ≡ round_at F.ops self t }
    {
        let slope = self.all.sub(self.even).sub(self.even).sub(self.lead);
        self.even.add(t.mul(slope.add(t.mul(self.lead))))
    }
}
