//! Rows filled and extended in chunks, side by side.

ghost use Rattle.std.specs.Prelude.{◌≡◌, ℕ, ◌+◌, ◌-◌, ◌*◌, ◌/◌, ◌<◌, ◌≤◌, length};
ghost use Rattle.std.specs.Int.{div_ceil};
ghost use Rattle.lzk_field.specs.Sums.{entry};
ghost use Rattle.lzk_poly.specs.Extension.{extension};
ghost use Rattle.lzk_ligero_tableau.specs.Filled.{AreFilled, filled_row, place_in_chunks};
ghost use Rattle.lzk_ligero_tableau.specs.Tableau.{low_words};

use lzk_field::{Field, Gate, Words};
use lzk_ligero_tableau::{Source, set_chunk};
use lzk_poly::RowExtend;
use lzk_work_crew::Crew;
use lzk_work_threads::{Hands, for_each_chunk_mut};

/// Fills and extends all rows, in chunks of so many that there is one for each worker. Behind the rows of each chunk
/// there is its room.
pub(crate) fn extend_rows<R: Hands, F: Field, W: Words, X: RowExtend<F>, G: Gate>(
    crew: &Crew<R, G>,
    source: &Source<F, W, X>,
    table: &mut [F],
)
    requires table { let p = source.now.given.now.plan.now.params in
        p.nrow * p.ncol + crew.now.workers * source.now.room ≤ length table.old }
    ensures length { length table.new ≡ length table.old }
    ensures rows { let s = source.now in let p = s.given.now.plan.now.params in (i k : ℕ) → i < p.nrow → k < p.ncol →
        entry F.ops table.new (place_in_chunks (div_ceil p.nrow crew.now.workers) p.ncol s.room i k) ≡
        extension F.ops F.coding.element
        (filled_row F.ops F.coding (low_words (W.at s.given.now.words.now)) p s.elements.now i) k }
{
    let rows = source.given.plan.params.nrow as usize;
    let width = source.given.plan.params.ncol as usize;
    let room = source.room;
    let gate = crew.gate;
    let each = rows.div_ceil(crew.workers);
    let of = rows.div_ceil(each);
    let size = each * width + room;
    let (used, _) = table.split_at_mut(rows * width + of * room);
    let chunk = |start: usize, part: &mut [F]|
        requires { let p = source.now.given.now.plan.now.params in
            (0 < size) × (0 < width) × (width ≡ p.ncol) × (room ≡ source.now.room) ×
            (room ≤ length part.now) × (length part.now ≡ (length part.now - room) / width * width + room) ×
            (start / size * each + (length part.now - room) / width ≤ p.nrow) }
        ensures { let s = source.entry.now in
            AreFilled F.ops F.coding (low_words (W.at s.given.now.words.now)) s.given.now.plan.now.params s.elements.now
            (start / size * each) ((length part.entry.now - room) / width) part.exit.now }
    {
        gate.enter(start / size, of);
        set_chunk(
            source,
            start / size * each,
            (part.len() - room) / width,
            part,
        );
    };
    for_each_chunk_mut(crew.rt, used, size, &chunk);
}
