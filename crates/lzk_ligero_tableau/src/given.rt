//! What a proof is made from, and what extends its rows.

ghost use Rattle.std.specs.Prelude.{◌≡◌, length};

use lzk_field::Field;
use lzk_layout::Plan;

/// What a proof is made from: a circuit with its parameters, inputs of it, a session, and the random words.
#[derive(Drop)]
pub struct Given<'a, 'c, F: Field, W> {
    /// The circuit with its parameters.
    pub plan: &'a Plan<'c, F>,
    /// At most 64 bytes.
    pub session: &'a [u8],
    /// The public inputs.
    pub public: &'a [F],
    /// The private inputs.
    pub private: &'a [F],
    /// The random words.
    pub words: &'a W,
    pub ghost publics: { length public.now ≡ plan.now.circuit.now.publics },
    pub ghost privates: { length private.now ≡ plan.now.circuit.now.privates },
}

/// What extends rows, rows of products, and rows of coefficients.
#[derive(Drop)]
pub struct Extenders<X: Drop> {
    /// What extends rows of `block` values.
    pub short: X,
    /// What extends the two rows of `dblock` values.
    pub long: X,
    /// What extends rows of coefficients.
    pub coefficients: X,
}
