//! How many lists of challenges let a prover of a false statement through the sumchecks, whatever he sends.
//!
//! A prover is any function of the challenges to the elements that he sends, each of which stands on the challenges
//! before it alone. The list that he committed to stands before all. Of all lists of draws from any elements without
//! repetition, the share by which he makes every residual 0 is at most a sum over the draws, of the degree of each,
//! over the number of the elements.

ghost use Rattle.lzk_soundness.specs.Draws.Laws.{ForgersAreFew, MostIs, SomeForger};

use lzk_field::Field;

/// A prover of a circuit and a list by which an output is not 0, or of which an assertion term counts what is not 0,
/// makes all residuals 0 by few of all lists of draws. Some prover of this kind wins now and then.
pub fn forger_laws<F: Field>()
    ensures few { ForgersAreFew F.ops F.coding }
    ensures most { MostIs F }
    ensures some { SomeForger F.ops F.coding }
{}
