//! What is drawn behind the sumchecks' draws.

ghost use Rattle.std.specs.Prelude.{◌≡◌, IfOk};
ghost use Rattle.lzk_transcript.specs.Columns.{after_draws};
ghost use Rattle.lzk_layout.specs.Sizes.{AreParams};
ghost use Rattle.lzk_accept.specs.Challenges.{challenges, challenge_count, zero_challenges, HasShape};

use lzk_field::Field;
use lzk_layout::{Elements, Params};
use lzk_sumcheck::draw_all;
use lzk_transcript::Tape;
use std::alloc::{AllocError, Global};

/// What is drawn behind gamma, in this order.
#[derive(Drop)]
pub struct Challenges<F> {
    /// A factor for each row from row 3 on, in the low degree answer.
    pub u: Elements<F>,
    /// A factor for each linear constraint, the layers' first and the inputs' last.
    pub lambda: Elements<F>,
    /// Three factors for each layer: of its factors' pads and of their product.
    pub mu: Elements<F>,
    /// A factor for each triple of rows, in the quadratic answer.
    pub v: Elements<F>,
}

impl<F: Field> Challenges<F> {
    /// Zeros, as many as these parameters say.
    pub fn new(alloc: Global, params: &Params) -> Result<Challenges<F>, AllocError>
        requires params { AreParams F.ops params.now }
        ensures zeros { IfOk result (λ challenges. challenges ≡ zero_challenges F.ops params.now) }
        ensures shape { IfOk result (λ challenges. HasShape params.now challenges) }
    {
        let u = Elements::zeros(alloc, params.nrow as usize - 3)?;
        let lambda = Elements::zeros(alloc, params.layers as usize + 1)?;
        let mu = Elements::zeros(alloc, 3 * params.layers as usize)?;
        let v = Elements::zeros(alloc, params.ntriple as usize)?;
        Ok(Challenges { u, lambda, mu, v })
    }
}

/// Sets the challenges to what the tape gives behind gamma. No memory is taken.
pub fn draw_challenges<F: Field>(params: &Params, tape: &mut Tape, out: &mut Challenges<F>)
    requires shape { HasShape params.now out.old }
    ensures challenges { out.new ≡ challenges F.coding params.now tape.old }
    ensures tape { tape.new ≡ after_draws (challenge_count params.now) tape.old }
    ensures shape { HasShape params.now out.new }
{
    draw_all(tape, out.u.as_mut_slice());
    draw_all(tape, out.lambda.as_mut_slice());
    draw_all(tape, out.mu.as_mut_slice());
    draw_all(tape, out.v.as_mut_slice());
}
