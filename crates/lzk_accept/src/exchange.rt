//! What a proof's sumchecks leave to constrain: a circuit, what is drawn and sent over it, and the lists that go with
//! them. The facts about their lengths stand with the values.

ghost use Rattle.std.specs.Prelude.{◌≡◌, length};
ghost use Rattle.lzk_layout.specs.Sizes.{sent_counts};
ghost use Rattle.lzk_sumcheck.specs.Script.{HasShape};

use lzk_circuit::Circuit;
use lzk_field::Field;
use lzk_sumcheck::Script;

/// A circuit with what the sumchecks over it draw.
#[derive(Drop)]
pub struct Scripted<'a, F: Field> {
    /// The circuit.
    pub circuit: &'a Circuit<F>,
    /// What is drawn.
    pub script: &'a Script<F>,
    pub ghost shape: { HasShape circuit.now script.now },
}

/// A circuit and its script with the public inputs and with what is sent.
#[derive(Drop)]
pub struct Exchange<'a, F: Field> {
    /// The circuit with what is drawn.
    pub scripted: Scripted<'a, F>,
    /// The public inputs.
    pub public: &'a [F],
    /// What is sent.
    pub messages: &'a [F],
    pub ghost publics: { length public.now ≡ scripted.circuit.now.publics },
    pub ghost count: { length messages.now ≡ sent_counts scripted.circuit.now },
}
