//! What a proof answers for.

ghost use Rattle.std.specs.Prelude.{◌≡◌, ◌*◌, length};
ghost use Rattle.lzk_sumcheck.specs.Script as sumcheck;
ghost use Rattle.lzk_accept.specs.Challenges as accept;

use lzk_accept::Challenges;
use lzk_field::Field;
use lzk_layout::Plan;
use lzk_sumcheck::Script;

/// A circuit with its parameters and public inputs, the values of its rows at all points, and what the tape gave behind
/// the messages.
#[derive(Drop)]
pub struct Asked<'k, 'c, F: Field> {
    /// The circuit with its parameters.
    pub plan: &'k Plan<'c, F>,
    /// The public inputs.
    pub public: &'k [F],
    /// The values of the rows at all points, row by row.
    pub table: &'k [F],
    /// What the sumchecks drew.
    pub script: &'k Script<F>,
    /// What was drawn behind them.
    pub challenges: &'k Challenges<F>,
    pub ghost publics: { length public.now ≡ plan.now.circuit.now.publics },
    pub ghost table_fits: { length table.now ≡ plan.now.params.nrow * plan.now.params.ncol },
    pub ghost script_fits: { sumcheck.HasShape plan.now.circuit.now script.now },
    pub ghost challenges_fit: { accept.HasShape plan.now.params challenges.now },
}
