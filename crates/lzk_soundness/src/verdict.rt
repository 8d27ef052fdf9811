//! What acceptance is, in the words of `count`: the file of a proof that passes by the draws of its own tape, at 128
//! columns of it, with this circuit's id and columns that lead to its root.
//!
//! So what is believed is named: that the root, by SHA-256, binds the columns, and that the tape's draws are like
//! those that are counted.

ghost use Rattle.lzk_soundness.specs.Verdict.Sound.{AcceptedPasses};

use lzk_field::Field;

/// Accepted bytes, and no others, are the file of a proof that passes by the draws and at the columns of its own
/// tape.
pub fn passing_laws<F: Field>()
    ensures { AcceptedPasses F.ops F.coding }
{}
