//! Tables of how numbers agree with a point.

ghost use Rattle.std.specs.Prelude.{◌≡◌, ℕ, ◌+◌, ◌*◌, ◌^◌, ◌<◌, ◌≤◌, length};
ghost use Rattle.lzk_field.specs.Sums.{minus, entry};
ghost use Rattle.lzk_mle.specs.Multilinear.{eq};
ghost use Rattle.lzk_profile.specs.Profile.{most_bits};

use lzk_field::Field;

// Puts x times each entry into the other half.
fn fill_ones<F: Field>(low: &[F], high: &mut [F], x: F)
    requires { length high.old ≡ length low.now }
    ensures length { length high.new ≡ length high.old }
    ensures products { let o = F.ops in
        (i : ℕ) → i < length low.now → entry o high.new i ≡ o.times x (entry o low.now i) }
{
    for i in 0..low.len() {
        high[i] = x.mul(low[i]);
    }
}

// Takes the other half's entry from each.
fn take_ones<F: Field>(low: &mut [F], high: &[F])
    requires { length low.old ≡ length high.now }
    ensures length { length low.new ≡ length low.old }
    ensures differences { let o = F.ops in
        (i : ℕ) → i < length high.now → entry o low.new i ≡ minus o (entry o low.old i) (entry o high.now i) }
{
    for i in 0..high.len() {
        low[i] = low[i].sub(high[i]);
    }
}

// Doubles the table of the first `size` entries: each times 1 - x, and behind them each times x. Products and
// differences have a loop each, so that no difference waits for its product.
fn double<F: Field>(table: &mut [F], size: usize, x: F)
    requires { 2 * size ≤ length table.old }
    ensures length { length table.new ≡ length table.old }
    ensures zeros { let o = F.ops in
        (i : ℕ) → i < size → entry o table.new i ≡ o.times (minus o o.one x) (entry o table.old i) }
    ensures ones { let o = F.ops in
        (i : ℕ) → i < size → entry o table.new (size + i) ≡ o.times x (entry o table.old i) }
{
    let (low, rest) = table.split_at_mut(size);
    let (high, _) = rest.split_at_mut(size);
    fill_ones(low, high, x);
    take_ones(low, high);
}

/// Sets each entry of the table to `eq` of its number and `r`: the product over the bits of the
/// number, the least significant first, of `r[j]` for a one and of `1 - r[j]` for a zero.
pub fn eq_table<F: Field>(r: &[F], out: &mut [F])
    requires few { length r.now ≤ most_bits }
    requires size { length out.old ≡ 2 ^ length r.now }
    ensures length { length out.new ≡ length out.old }
    ensures entries { let o = F.ops in (i : ℕ) → i < length out.new → entry o out.new i ≡ eq o i r.now }
{
    out[0] = F::one();
    let mut size = 1;
    for j in 0..r.len() {
        double(out, size, r[j]);
        size *= 2;
    }
}
