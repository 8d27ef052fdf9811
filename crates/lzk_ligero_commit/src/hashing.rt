//! The columns' digests, made side by side.

ghost use Rattle.std.specs.Prelude.{◌≡◌, ℕ, ◌+◌, ◌*◌, ◌<◌, ◌≤◌, [], length, slice_index_or};
ghost use Rattle.lzk_ligero_tableau.specs.Digests.{digest_at};
ghost use Rattle.lzk_ligero_tableau.specs.Table.{IsTable};
ghost use Rattle.lzk_ligero_tableau.specs.Tableau as spec;
ghost use Rattle.lzk_ligero_tableau.specs.Tableau.{low_words};

use lzk_field::{Field, Words};
use lzk_ligero_tableau::{Given, hash_chunk};
use lzk_work_crew::Crew;
use lzk_work_threads::{Hands, for_each_chunk_mut};

/// Sets leaves to the digests of the columns of these rows, with the words that they were filled from. The leaves are
/// hashed side by side where threads can be made, and no memory is taken.
pub(crate) fn hash<R: Hands, F: Field, W: Words, G>(
    crew: &Crew<R, G>,
    given: &Given<F, W>,
    rows: &[F],
    leaves: &mut [[u8; 32]],
)
    requires rows { length rows.now ≡ given.now.plan.now.params.nrow * given.now.plan.now.params.ncol }
    requires leaves { length leaves.old ≡ given.now.plan.now.params.mcol }
    ensures length { length leaves.new ≡ length leaves.old }
    ensures leaves { let e = F.coding in let g = given.now in let word = low_words (W.at g.words.now) in
        IsTable F.ops e.element g.plan.now.params.ncol
        (spec.tableau F.ops e g.plan.now.circuit.now g.private.now word) rows.now →
        leaves.new ≡ spec.leaves F.ops e g.plan.now.circuit.now g.private.now word }
{
    let chunk = |first: usize, part: &mut [[u8; 32]]|
        requires { let p = given.now.plan.now.params in
            (length rows.now ≡ p.nrow * p.ncol) × (first + length part.now ≤ p.mcol) }
        ensures { let g = given.entry.now in (k : ℕ) → k < length part.entry.now →
            slice_index_or part.exit.now k [] ≡ digest_at F.ops F.coding.bytes F.coding.number
            (low_words (W.at g.words.now)) g.plan.now.params rows.entry.now (first + k) }
    {
        hash_chunk(given, rows, first, part);
    };
    let size = leaves.len().div_ceil(crew.workers);
    for_each_chunk_mut(crew.rt, leaves, size, &chunk);
}
