ghost use Rattle.lzk_profile.specs.Profile.{most_row};
ghost use Rattle.lzk_shares.specs.Shares.{
  binary_share,
  few_share,
  long,
  longest,
  most_bad,
  prime_share,
  prime_size,
  short,
  shortest,
};
ghost use Rattle.std.specs.Prelude.{◌^◌};
ghost use Rattle.lzk_soundness.specs.Count.Laws.{
  BluffsAreRare,
  ElementsAreAll,
  FalseIsRare,
  PassersAreCounted,
  PassersKnow,
};
ghost use Rattle.lzk_soundness.specs.Count.Numbers.{
  BadAreBounded,
  BluffsPassByOneIn,
  ColumnsMissRarely,
  PassesByOneIn,
  RowsAreBounded,
  SharesHold,
};

use lzk_field::Field;

/// Whoever passes by more than few of all lists of draws and sets of columns has committed to private inputs that
/// satisfy the circuit. So a false statement passes by few.
pub fn count_laws<F: Field>()
    ensures know { PassersKnow F.ops F.coding }
    ensures bluffs { BluffsAreRare F.ops F.coding }
    ensures rare { FalseIsRare F.ops F.coding }
    ensures elements { ElementsAreAll F.coding }
    ensures players { PassersAreCounted F.ops F.coding }
{}

/// The count for every circuit, by the numbers of lzk_shares: how many elements are bad at most, and one in how many
/// sets of columns misses. So over the prime field whoever has not committed to satisfying inputs passes by at most one
/// in 2^prime_share, and by one in 2^few_share for circuits that have no more than 1,024 bad elements; over 2^128
/// elements by one in 2^binary_share. So with a false statement. In LZK1 that is 28,345 and 3 * 2^53; 49, 53 and 54.
pub fn number_laws<F: Field>()
    ensures bad { BadAreBounded F.ops most_row most_bad }
    ensures rows { RowsAreBounded F.ops most_row }
    ensures columns { ColumnsMissRarely F.ops }
    ensures prime { BluffsPassByOneIn F.ops F.coding most_bad prime_share prime_size }
    ensures prime_few { BluffsPassByOneIn F.ops F.coding 1024 few_share prime_size }
    ensures gf128 { BluffsPassByOneIn F.ops F.coding most_bad binary_share (2 ^ 128) }
    ensures false_prime { PassesByOneIn F.ops F.coding most_bad prime_share prime_size }
    ensures false_prime_few { PassesByOneIn F.ops F.coding 1024 few_share prime_size }
    ensures false_gf128 { PassesByOneIn F.ops F.coding most_bad binary_share (2 ^ 128) }
{}

/// The count by the width of a row, in LZK1 64, 128, 256 or 512 elements: one in how many sets of columns misses, how
/// many elements are bad at most, and by one in how many pairs passes whoever has not committed to satisfying inputs.
pub fn width_laws<F: Field>()
    ensures shortest { SharesHold F.ops F.coding shortest }
    ensures short { SharesHold F.ops F.coding short }
    ensures long { SharesHold F.ops F.coding long }
    ensures longest { SharesHold F.ops F.coding longest }
{}
