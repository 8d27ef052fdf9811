//! What the linear constraints are set from.

ghost use Rattle.std.specs.Prelude.{◌≡◌, ◌<◌, ◌≤◌};
ghost use Rattle.lzk_layout.specs.Places.{depth, places_of, AreWithin};
ghost use Rattle.lzk_sumcheck.specs.Coefficients.{coefficients, bound_at, AreBounds};
ghost use Rattle.lzk_accept.specs.Kept.{above_a, above_b, AreTablesAt, IsPlacedAt};

use crate::exchange::Exchange;
use crate::forms::Form;
use crate::linear::Factors;
use lzk_field::Field;
use lzk_layout::LayerPlaces;

/// An exchange with the layers' bound coefficients, and with the tables of the inputs' two points. The coefficients at
/// the first `skip` private inputs are not wanted.
#[derive(Drop)]
pub(crate) struct Prepared<'e, 'b, 't, F: Field> {
    pub(crate) exchange: Exchange<'e, F>,
    pub(crate) bounds: &'b [F],
    pub(crate) first: &'t [F],
    pub(crate) second: &'t [F],
    pub(crate) skip: usize,
    ghost are: { AreBounds F.ops exchange.scripted.circuit.now exchange.scripted.script.now bounds.now },
    ghost at: { let c = exchange.scripted.circuit.now in
        AreTablesAt F.ops c exchange.scripted.script.now (depth c) first.now second.now },
    ghost few: { skip ≤ exchange.scripted.circuit.now.privates },
}

/// A layer in its turn: its number and places, a form in its place, the factors that the layer above sends, and its
/// bound coefficient.
#[derive(Drop)]
pub(crate) struct Turn<'p, 'e, F: Field> {
    pub(crate) exchange: &'p Exchange<'e, F>,
    pub(crate) l: u32,
    pub(crate) places: LayerPlaces,
    pub(crate) form: Form<F>,
    pub(crate) above: Factors<F>,
    pub(crate) bound: F,
    ghost inside: { l < depth exchange.now.scripted.circuit.now },
    ghost placed: { places ≡ places_of exchange.now.scripted.circuit.now l },
    ghost within: { AreWithin exchange.now.scripted.circuit.now places },
    ghost form_placed: { IsPlacedAt exchange.now.scripted.circuit.now l form },
    ghost above_first: { above.first ≡ above_a F.ops exchange.now.scripted.circuit.now exchange.now.messages.now l },
    ghost above_second: { above.second ≡ above_b F.ops exchange.now.scripted.circuit.now exchange.now.messages.now l },
    ghost bounded: { let c = exchange.now.scripted.circuit.now in let s = exchange.now.scripted.script.now in
        bound ≡ bound_at F.ops c (coefficients F.ops c s) s l },
}
