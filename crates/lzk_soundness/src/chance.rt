//! Sets with few members, and lists of draws in which one may be bad.
//!
//! How many challenges of any list without repetition can be bad, and how many of all lists of draws then have a bad
//! one. The roots of a polynomial are the first such set (Schwartz 1980, Zippel 1979).

ghost use Rattle.std.specs.Prelude.{List, ℕ};
ghost use Rattle.lzk_soundness.specs.Chance.Laws.{
  AgreesRarely,
  BadDrawsAreFew,
  ChoicesAreLists,
  PairsAreFew,
  PartsAreFew,
  RootsAreFew,
  SetsAreCounted,
  SetsAreFew,
  ShiftsAreFew,
  SlopesAreFew,
};

use lzk_field::Field;

/// A polynomial with at most n coefficients that are not all zero has at most n - 1 roots. Two polynomials that are
/// not the same everywhere agree at as few places. Two lines of different slopes, or of different heights, meet at
/// most once.
pub fn root_laws<F: Field>()
    ensures roots { RootsAreFew F.ops }
    ensures agree { AgreesRarely F.ops }
    ensures slopes { SlopesAreFew F.ops }
    ensures shifts { ShiftsAreFew F.ops }
{}

/// Where behind any draws few of the next ones are bad, few lists of draws have a bad one. So with lists of draws in
/// two parts.
pub fn counting_laws<F: Field>()
    ensures draws { BadDrawsAreFew F }
    ensures parts { PartsAreFew F }
{}

/// How many sets of so many members there are, and how many of them a test can let through.
pub fn set_laws<F: Field>()
    ensures counted { SetsAreCounted ℕ }
    ensures lists { ChoicesAreLists }
    ensures few { SetsAreFew ℕ }
    ensures pairs { PairsAreFew (List F) (List ℕ) }
{}
