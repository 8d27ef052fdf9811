//! How many lists of weights hide what a combination combines: a share of one over the number of elements that
//! weights are drawn from.
//!
//! The weights of the linear constraints, of the copies and of the triples are such lists (Ligero, CCS 2017).

ghost use Rattle.lzk_soundness.specs.Weights.Laws.{CombinationsAreFew};

use lzk_field::Field;

/// Where one of n gaps is not 0, few lists of n weights make the combination 0.
pub fn weights_laws<F: Field>()
    ensures { CombinationsAreFew F.ops }
{}
