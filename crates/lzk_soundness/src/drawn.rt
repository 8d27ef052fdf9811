//! The draws of a proof's own tape, as one of the lists that `count` counts; and how evenly words pick columns.

ghost use Rattle.lzk_soundness.specs.Drawn.Picks.{BiasIsSmall, PicksAreEven, SetsAreEven, SetsArePicked, TapesPick};
ghost use Rattle.lzk_soundness.specs.Drawn.Tape.{DrawsAreCounted, PassingIsCounted};

use lzk_field::Field;

/// The draws of a proof's own tape, in its order, are a list of which the count speaks; and a proof that passes by them
/// is one of the pairs that it counts, whichever table its opened columns are of.
pub fn drawn_laws<F: Field>()
    ensures draws { DrawsAreCounted F.ops F.coding }
    ensures passing { PassingIsCounted F.ops F.coding }
{}

/// A tape picks columns by words: any different columns, in any order, are picked by equally many lists of words of 128
/// bits, but for one part in 2^108, and so is each set of them.
pub fn pick_laws<F: Field>()
    ensures tape { TapesPick }
    ensures even { PicksAreEven }
    ensures picked { SetsArePicked }
    ensures sets { SetsAreEven }
    ensures bias { BiasIsSmall F.ops }
{}
