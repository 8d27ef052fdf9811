//! A tree of hashes as a commitment in the random oracle model (Merkle 1987): how seldom somebody shows two different
//! leaves at one place of one root.

ghost use Rattle.std.specs.Prelude.{List, ℕ};
ghost use Rattle.lzk_soundness.specs.Trees.Laws.{OpeningsBind, OpeningsPrecede};

use lzk_field::Field;

/// Few oracles let somebody show two leaves at one place of one root, or a leaf that was asked after a root was named.
pub fn tree_laws<F: Field>()
    ensures bind { OpeningsBind (List ℕ) (List ℕ) }
    ensures precede { OpeningsPrecede (List ℕ) (List ℕ) }
{}
