//! Commitment to the rows.

ghost use Rattle.std.specs.Prelude.{◌≡◌, ℕ, ◌≤◌, length};
ghost use Rattle.lzk_merkle.specs.Nodes.{tree_node};
ghost use Rattle.lzk_merkle.specs.Tree.{IsBuilt};
ghost use Rattle.lzk_layout.specs.Sizes.{params_of};
ghost use Rattle.lzk_ligero_tableau.specs.Filled.{AreReaching};
ghost use Rattle.lzk_ligero_tableau.specs.Table.{IsTable, IsTableOf};
ghost use Rattle.lzk_ligero_tableau.specs.Tableau as spec;
ghost use Rattle.lzk_ligero_tableau.specs.Tableau.{low_words, randoms};

use crate::filling::fill;
use crate::hashing::hash;
use lzk_field::{Field, Gate, Words};
use lzk_ligero_tableau::{Extenders, Given, Tableau};
use lzk_merkle::Tree;
use lzk_poly::RowExtend;
use lzk_work_crew::Crew;
use lzk_work_threads::Hands;

/// Fills the rows and hashes their columns. Gives the root of the columns' tree.
pub fn commit<R: Hands, F: Field, W: Words, X: RowExtend<F>, G: Gate>(
    crew: &Crew<R, G>,
    given: &Given<F, W>,
    extenders: &Extenders<X>,
    tableau: &mut Tableau<F>,
    tree: &mut Tree,
) -> [u8; 32]
    requires made { IsTableOf given.now.plan.now.circuit.now tableau.old }
    requires reaching { let e = extenders.now in AreReaching (params_of given.now.plan.now.circuit.now)
        (X.reach e.short) (X.reach e.long) (X.rooms e.short) (X.rooms e.long) tableau.old.room }
    requires leaves { length tree.old.leaves ≡ (params_of given.now.plan.now.circuit.now).mcol }
    ensures root { let g = given.now in result ≡ tree_node (params_of g.plan.now.circuit.now).mcol
        (spec.leaves F.ops F.coding g.plan.now.circuit.now g.private.now (low_words (W.at g.words.now))) 1 }
    ensures pads { let g = given.now in tableau.new.pads ≡
        randoms F.ops F.coding (low_words (W.at g.words.now)) 0 (params_of g.plan.now.circuit.now).nsum }
    ensures rows { let g = given.now in
        IsTable F.ops F.coding.element (params_of g.plan.now.circuit.now).ncol
        (spec.tableau F.ops F.coding g.plan.now.circuit.now g.private.now (low_words (W.at g.words.now)))
        tableau.new.rows }
    ensures leaves { let g = given.now in tree.new.leaves ≡
        spec.leaves F.ops F.coding g.plan.now.circuit.now g.private.now (low_words (W.at g.words.now)) }
    ensures count { length tree.new.leaves ≡ (params_of given.now.plan.now.circuit.now).mcol }
    ensures built { IsBuilt tree.new }
    ensures made { IsTableOf given.now.plan.now.circuit.now tableau.new }
    ensures room { tableau.new.room ≡ tableau.old.room }
{
    fill(crew, given, extenders, tableau);
    hash(crew, given, tableau.rows(), tree.leaves_mut());
    tree.build();
    tree.root()
}
