//! Graphs of nodes.

ghost use Rattle.std.proofs.Props.{props};
ghost use Rattle.lzk_level.specs.Uses.{node_form, IsFormed, AreUses};

use crate::forms::Forms;

/// Forms of nodes with their depths, and the last level that uses each.
#[derive(Drop)]
pub(crate) struct Graph<'a, F> {
    /// How many there are of the one and the inputs.
    pub inputs: usize,
    /// The forms of the nodes behind them.
    pub forms: &'a Forms<F>,
    /// The depth of each node by its number.
    pub depths: &'a [u32],
    /// The last level that uses it.
    pub last: &'a [u32],
    ghost formed: { IsFormed inputs forms.now depths.now } by { Prim.hlevel props },
    ghost uses: { AreUses inputs forms.now depths.now last.now } by { Prim.hlevel props },
}
