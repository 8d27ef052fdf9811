//! Words that are not codewords: how few weights of a combination make it close to codewords where its words are not.
//!
//! A word is a function of the column, a codeword the values of a polynomial with few coefficients (Ligero, CCS
//! 2017).

ghost use Rattle.lzk_soundness.specs.Near.Laws.{
  CombinationsAreRare,
  FarAgreesRarely,
  FarUnlessBad,
  LinesAreFew,
  MixesAreFew,
  MixesAreRare,
};

use lzk_field::Field;

/// Words of which a line is not close to codewords are close to them at few places of the line.
pub fn line_laws<F: Field>()
    ensures lines { LinesAreFew F.ops }
{}

/// Few weights are bad at each place of a combination of words; where none is, or for all lists of weights but few,
/// the combination of words that are not close to codewords is not close to one. Such a word agrees with a codeword
/// at few columns.
pub fn mix_laws<F: Field>()
    ensures weights { MixesAreFew F.ops }
    ensures far { FarUnlessBad F.ops }
    ensures lists { MixesAreRare F.ops }
    ensures all { CombinationsAreRare F.ops }
    ensures columns { FarAgreesRarely F.ops }
{}
