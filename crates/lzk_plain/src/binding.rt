//! Tables whose variables are bound one after the other, the lowest bit's first.

ghost use Rattle.std.specs.Prelude.{◌≡◌, ℕ, ◌+◌, ◌*◌, ◌/◌, ◌%◌, ◌^◌, ◌<◌, ◌≤◌, List, ◌∷◌, length, take};
ghost use Rattle.lzk_field.specs.Sums.{minus, entry};
ghost use Rattle.lzk_mle.specs.Multilinear.{tilde, corner};
ghost use Rattle.lzk_profile.specs.Profile.{most_bits};

use lzk_field::Field;

// What stands at x on the line from low at 0 to high at 1.
fn between<F: Field>(low: F, high: F, x: F) -> F
    ensures { let o = F.ops in result ≡ o.plus (o.times (minus o o.one x) low) (o.times x high) }
{
    low.add(x.mul(high.sub(low)))
}

// Puts in place of the first 2 * half entries one for each pair of them, as if bit 0 of their numbers were r.
fn bind_first<F: Field>(table: &mut [F], half: usize, r: F)
    requires { 2 * half ≤ length table.old }
    ensures length { length table.new ≡ length table.old }
    ensures low { let o = F.ops in (i : ℕ) → i < half → entry o table.new i ≡
        o.plus (o.times (minus o o.one r) (entry o table.old (2 * i))) (o.times r (entry o table.old (2 * i + 1))) }
    ensures high { let o = F.ops in (i : ℕ) → half ≤ i → entry o table.new i ≡ entry o table.old i }
{
    for i in 0..half {
        table[i] = between(table[2 * i], table[2 * i + 1], r);
    }
}

/// Binds the lowest bit's variable at `r`: the lower half becomes the table of the other variables.
pub fn bind<F: Field>(table: &mut [F], r: F)
    requires even { length table.old % 2 ≡ 0 }
    ensures length { length table.new ≡ length table.old }
    ensures low { let o = F.ops in (i : ℕ) → i < length table.old / 2 → entry o table.new i ≡
        o.plus (o.times (minus o o.one r) (entry o table.old (2 * i))) (o.times r (entry o table.old (2 * i + 1))) }
    ensures high { let o = F.ops in (i : ℕ) → length table.old / 2 ≤ i → entry o table.new i ≡ entry o table.old i }
    ensures extension { (s : List F)
        → tilde F.ops (take (length table.old / 2) table.new) s ≡ tilde F.ops table.old (r ∷ s) }
{
    bind_first(table, table.len() / 2, r);
}

// Copies the values, and writes zeros after them.
fn fill<F: Field>(values: &[F], room: &mut [F])
    requires { length values.now ≤ length room.old }
    ensures length { length room.new ≡ length room.old }
    ensures entries { let o = F.ops in (i : ℕ) → entry o room.new i ≡ entry o values.now i }
{
    for i in 0..room.len() {
        if i < values.len() {
            room[i] = values[i];
        } else {
            room[i] = F::zero();
        }
    }
}

/// The extension of the values at `r`, those past their end being zero. `room` is written over.
pub fn tilde<F: Field>(values: &[F], r: &[F], room: &mut [F]) -> F
    requires few { length r.now ≤ most_bits }
    requires fits { length values.now ≤ 2 ^ length r.now }
    requires room { length room.old ≡ 2 ^ length r.now }
    ensures value { result ≡ tilde F.ops values.now r.now }
    ensures entry { let o = F.ops in
        (i : ℕ) → i < length room.old → r.now ≡ corner o (length r.now) i → result ≡ entry o values.now i }
{
    fill(values, room);
    let mut size = room.len();
    for x in r {
        size /= 2;
        bind_first(room, size, *x);
    }
    room[0]
}
