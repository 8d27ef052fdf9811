//! A tableau filled from inputs and words.

ghost use Rattle.std.specs.Prelude.{◌≡◌, ◌+◌, ◌-◌, ◌*◌, ◌<◌, ◌≤◌, length};
ghost use Rattle.lzk_layout.specs.Sizes.{params_of};
ghost use Rattle.lzk_ligero_tableau.specs.Filled.{AreReaching};
ghost use Rattle.lzk_ligero_tableau.specs.Table.{IsTable, IsTableOf};
ghost use Rattle.lzk_ligero_tableau.specs.Tableau as spec;
ghost use Rattle.lzk_ligero_tableau.specs.Tableau.{low_words, randoms};

use crate::rows::extend_rows;
use lzk_field::{Field, Gate, Words};
use lzk_ligero_tableau::{
    Extenders, Given, Source, Tableau, close_gaps, fill_elements, set_pads, set_rooms,
};
use lzk_poly::RowExtend;
use lzk_work_crew::Crew;
use lzk_work_threads::Hands;

// Fills the lists of a tableau, where an extension may take so many elements of room.
fn fill_table<R: Hands, F: Field, W: Words, X: RowExtend<F>, G: Gate>(
    crew: &Crew<R, G>,
    given: &Given<F, W>,
    extenders: &Extenders<X>,
    room: usize,
    pads: &mut [F],
    elements: &mut [F],
    table: &mut [F],
)
    requires reaching { let e = extenders.now in
        AreReaching given.now.plan.now.params (X.reach e.short) (X.reach e.long) (X.rooms e.short)
        (X.rooms e.long) room }
    requires pads { length pads.old ≡ given.now.plan.now.params.nsum }
    requires elements { length elements.old ≡ (given.now.plan.now.params.nrow - 3) * given.now.plan.now.params.wr }
    requires table { given.now.plan.now.params.nrow * given.now.plan.now.params.ncol + crew.now.workers * room
        ≤ length table.old }
    ensures pads { pads.new
        ≡ randoms F.ops F.coding (low_words (W.at given.now.words.now)) 0 given.now.plan.now.params.nsum }
    ensures rows { let g = given.now in
        IsTable F.ops F.coding.element given.now.plan.now.params.ncol
        (spec.tableau F.ops F.coding g.plan.now.circuit.now g.private.now (low_words (W.at g.words.now))) table.new }
{
    set_pads(given.words, pads);
    fill_elements(given.plan, given.private, pads, elements);
    let source = Source {
        given,
        elements,
        extenders,
        room,
    };
    extend_rows(crew, &source, table);
    close_gaps(crew, &source, table);
}

/// Fills the rows from what is given, and extends each to all points.
///
/// The rows are filled and extended in chunks of `ceil(nrow / workers)` rows, side by side where threads can be made.
/// Each chunk's worker enters the gate once before its first row, with the chunk's number and the number of chunks. No
/// memory is taken.
pub(crate) fn fill<R: Hands, F: Field, W: Words, X: RowExtend<F>, G: Gate>(
    crew: &Crew<R, G>,
    given: &Given<F, W>,
    extenders: &Extenders<X>,
    tableau: &mut Tableau<F>,
)
    requires made { IsTableOf given.now.plan.now.circuit.now tableau.old }
    requires reaching { let e = extenders.now in AreReaching (params_of given.now.plan.now.circuit.now)
        (X.reach e.short) (X.reach e.long) (X.rooms e.short) (X.rooms e.long) tableau.old.room }
    ensures pads { let g = given.now in tableau.new.pads ≡
        randoms F.ops F.coding (low_words (W.at g.words.now)) 0 (params_of g.plan.now.circuit.now).nsum }
    ensures rows { let g = given.now in
        IsTable F.ops F.coding.element (params_of g.plan.now.circuit.now).ncol
        (spec.tableau F.ops F.coding g.plan.now.circuit.now g.private.now (low_words (W.at g.words.now)))
        tableau.new.rows }
    ensures made { IsTableOf given.now.plan.now.circuit.now tableau.new }
    ensures room { tableau.new.room ≡ tableau.old.room }
{
    set_rooms(crew, &tableau.params, tableau.room, &mut tableau.table);
    fill_table(
        crew,
        given,
        extenders,
        tableau.room,
        &mut tableau.pads,
        &mut tableau.elements,
        &mut tableau.table,
    );
}
