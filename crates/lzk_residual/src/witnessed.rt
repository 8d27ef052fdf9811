//! What a proof's sumchecks leave to constrain, with what is committed to.

ghost use Rattle.std.specs.Prelude.{◌≡◌, length};
ghost use Rattle.lzk_layout.specs.Sizes.{committed_count};

use lzk_accept::Exchange;
use lzk_field::Field;

/// An exchange with a list of pads and private inputs.
#[derive(Drop)]
pub(crate) struct Witnessed<'a, F: Field> {
    pub(crate) exchange: Exchange<'a, F>,
    pub(crate) w: &'a [F],
    ghost count: { length w.now ≡ committed_count exchange.scripted.circuit.now },
}
