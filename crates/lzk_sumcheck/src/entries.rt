//! Entries of tables, and how they agree with a variable.

ghost use Rattle.std.specs.Prelude.{◌≡◌};
ghost use Rattle.lzk_field.specs.Sums.{entry};
ghost use Rattle.lzk_mle.specs.Multilinear.{low_bit, agree};

use lzk_field::Field;

/// The entry at a place of a table, and 0 past its end.
pub fn entry_at<F: Field>(table: &[F], i: usize) -> F
    ensures { result ≡ entry F.ops table.now i }
{
    if i < table.len() { table[i] } else { F::zero() }
}

/// How bit 0 of a number agrees with a variable: the variable where it is 1, and 1 less it where it is 0.
pub fn agreement<F: Field>(number: u32, x: F) -> F
    ensures { let o = F.ops in result ≡ agree o (low_bit o number) x }
{
    if number % 2 == 0 { F::one().sub(x) } else { x }
}
