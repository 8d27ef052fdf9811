//! Tables of how wires agree with a layer's points, and their weights.

ghost use Rattle.lzk_profile.specs.Profile.{most_bits};
ghost use Rattle.std.specs.Prelude.{◌≡◌, ℕ, ◌^◌, ◌<◌, ◌≤◌, length};
ghost use Rattle.lzk_field.specs.Sums.{entry};
ghost use Rattle.lzk_mle.specs.Multilinear.{eq};
ghost use Rattle.lzk_sumcheck.specs.Weights.{weighted};

use crate::arithmetic::plus_product;
use lzk_circuit::power_of;
use lzk_field::Field;
use lzk_mle::eq_table;
use lzk_sumcheck::entry_at;

/// Sets the first entries of a table to how their numbers agree with a point.
pub(crate) fn set_table<F: Field>(r: &[F], table: &mut [F])
    requires few { length r.now ≤ most_bits }
    requires room { 2 ^ length r.now ≤ length table.old }
    ensures { let o = F.ops in (i : ℕ) → i < 2 ^ length r.now → entry o table.new i ≡ eq o i r.now }
{
    let size = power_of(r.len() as u32);
    eq_table(r, &mut table[..size]);
}

/// Sets the weight of each wire of a layer, by the tables of its two points.
pub(crate) fn set_weights<F: Field>(alpha: F, first: &[F], second: &[F], weights: &mut [F])
    ensures { weights.new ≡ weighted F.ops alpha first.now second.now (length weights.old) }
{
    for g in 0..weights.len() {
        weights[g] = plus_product(entry_at(first, g), alpha, entry_at(second, g));
    }
}
