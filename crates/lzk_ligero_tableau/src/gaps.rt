//! Chunks of rows moved together.

ghost use Rattle.std.specs.Prelude.{◌≡◌, ℕ, ◌+◌, ◌-◌, ◌*◌, ◌<◌, ◌≤◌, length};
ghost use Rattle.std.specs.Int.{div_ceil};
ghost use Rattle.lzk_field.specs.Sums.{entry};
ghost use Rattle.lzk_ligero_tableau.specs.Filled.{place_in_chunks};

use crate::rows::Source;
use lzk_field::{Field, Words};
use lzk_poly::RowExtend;
use lzk_work_crew::Crew;

// Moves so many entries down.
fn move_down<F: Field>(table: &mut [F], from: usize, to: usize, count: usize)
    requires down { to ≤ from }
    requires inside { from + count ≤ length table.old }
    ensures length { length table.new ≡ length table.old }
    ensures moved { (k : ℕ) → k < count → entry F.ops table.new (to + k) ≡ entry F.ops table.old (from + k) }
    ensures before { (j : ℕ) → j < to → entry F.ops table.new j ≡ entry F.ops table.old j }
    ensures behind { (j : ℕ) → to + count ≤ j → entry F.ops table.new j ≡ entry F.ops table.old j }
{
    for k in 0..count {
        table[to + k] = table[from + k];
    }
}

/// Moves the chunks' rows down over the room that stands behind each chunk.
pub fn close_gaps<R, G, F: Field, W: Words, X: RowExtend<F>>(
    crew: &Crew<R, G>,
    source: &Source<F, W, X>,
    table: &mut [F],
)
    requires table { let p = source.now.given.now.plan.now.params in
        p.nrow * p.ncol + crew.now.workers * source.now.room ≤ length table.old }
    ensures length { length table.new ≡ length table.old }
    ensures rows { let s = source.now in
        let p = s.given.now.plan.now.params in
        (i k : ℕ) → i < p.nrow → k < p.ncol
        → entry F.ops table.new (i * p.ncol + k)
        ≡ entry F.ops table.old (place_in_chunks (div_ceil p.nrow crew.now.workers) p.ncol s.room i k) }
{
    let rows = source.given.plan.params.nrow as usize;
    let width = source.given.plan.params.ncol as usize;
    let room = source.room;
    let each = rows.div_ceil(crew.workers);
    for n in 1..rows.div_ceil(each) {
        let count = each.min(rows - n * each);
        let to = n * each * width;
        move_down(table, to + n * room, to, count * width);
    }
}
