//! Circuits of small shapes, and what is sent and drawn for them.

ghost use Rattle.std.specs.Prelude.{◌≡◌, length, IfOk};
ghost use Rattle.lzk_layout.specs.Sizes.{sent_counts, params_of};
ghost use Rattle.lzk_sumcheck.specs.Script.{HasShape};
ghost use Rattle.lzk_accept.specs.Challenges as accept;

use lzk_accept::{Challenges, draw_challenges};
use lzk_circuit::{Circuit, Layer, Term, Terms};
use lzk_field::Field;
use lzk_layout::{Elements, Params};
use lzk_sumcheck::{Script, message_count, replay};
use lzk_transcript::Tape;
use std::alloc::{AllocError, Global};

/// A term's g, a and b, and its coefficient's number; in version 1 the one that is minus one is written as 0.
pub type Entry = (u32, u32, u32, u128);

/// Public and private inputs, and each layer's wires and terms, the outputs' first.
pub type Shape<'a> = (u32, u32, &'a [(u32, &'a [Entry])]);

// Terms whose coefficient is this one where the number is 0.
fn terms_of<F: Field>(
    entries: &[Entry],
    of_zero: F,
    alloc: Global,
) -> Result<Vec<Term<F>>, AllocError> {
    let mut terms = Vec::new(alloc);
    for &(g, a, b, number) in entries {
        let coef = if number == 0 {
            of_zero
        } else {
            F::of_word(number)
        };
        terms.push(Term { g, a, b, coef })?;
    }
    Ok(terms)
}

/// One layer of one wire: a private input's square, less the public input.
pub const SQUARE: Shape<'static> = (1, 1, &[(1, &[(0, 0, 1, 0), (0, 2, 2, 1)])]);

fn push_layers<F: Field>(
    rows: &[(u32, &[Entry])],
    of_zero: F,
    alloc: Global,
    layers: &mut Vec<Layer<F>>,
) -> Result<(), AllocError> {
    for &(wires, entries) in rows {
        let terms = Terms::new(terms_of(entries, of_zero, alloc)?);
        layers.push(Layer { wires, terms })?;
    }
    Ok(())
}

fn layers_of<F: Field>(
    rows: &[(u32, &[Entry])],
    of_zero: F,
    alloc: Global,
) -> Result<Vec<Layer<F>>, AllocError> {
    let mut layers = Vec::new(alloc);
    push_layers(rows, of_zero, alloc, &mut layers)?;
    Ok(layers)
}

/// The circuit of a shape, if it is one.
pub fn circuit_of<F: Field>(
    shape: Shape<'_>,
    alloc: Global,
) -> Result<Option<Circuit<F>>, AllocError> {
    let (publics, privates, rows) = shape;
    let layers = layers_of(rows, F::one().neg(), alloc)?;
    Ok(Circuit::of_layers(publics, privates, layers).ok())
}

/// The circuit of version 2 of a shape, if it is one: a coefficient of 0 is that of an assertion term.
pub fn asserting_circuit_of<F: Field>(
    shape: Shape<'_>,
    alloc: Global,
) -> Result<Option<Circuit<F>>, AllocError> {
    let (publics, privates, rows) = shape;
    let layers = layers_of(rows, F::zero(), alloc)?;
    Ok(Circuit::of_layers_v2(publics, privates, layers).ok())
}

// The element of so many times a word.
fn multiple<F: Field>(times: u64, word: u128) -> F {
    F::of_word(u128::from(times).wrapping_mul(word))
}

// Writes over a list with the multiples of a word from so many times it on.
fn set_multiples<F: Field>(first: u64, word: u128, list: &mut [F])
    ensures { length list.new ≡ length list.old }
{
    for k in 0..list.len() {
        list[k] = multiple(first.wrapping_add(k as u64), word);
    }
}

// So many multiples of a word, from so many times it on.
fn multiples<F: Field>(
    first: u64,
    count: u32,
    word: u128,
    alloc: Global,
) -> Result<Elements<F>, AllocError>
    ensures { IfOk result (λ list. length list ≡ count) }
{
    let mut list = Elements::zeros(alloc, count as usize)?;
    set_multiples(first, word, list.as_mut_slice());
    Ok(list)
}

/// The elements of these numbers.
pub fn elements<F: Field>(numbers: &[u128], alloc: Global) -> Result<Vec<F>, AllocError> {
    let mut list = Vec::new(alloc);
    for &n in numbers {
        list.push(F::of_word(n))?;
    }
    Ok(list)
}

/// Public inputs and messages of a circuit, and what is drawn for them.
#[derive(Drop)]
pub struct Drawn<F> {
    pub public: Elements<F>,
    pub messages: Elements<F>,
    pub script: Script<F>,
    pub challenges: Challenges<F>,
}

/// Public inputs and messages that are multiples, with room for what is drawn.
pub fn undrawn<F: Field>(circuit: &Circuit<F>, alloc: Global) -> Result<Drawn<F>, AllocError>
    ensures public { IfOk result (λ drawn. length drawn.public ≡ circuit.now.publics) }
    ensures messages { IfOk result (λ drawn. length drawn.messages ≡ sent_counts circuit.now) }
    ensures script { IfOk result (λ drawn. HasShape circuit.now drawn.script) }
    ensures challenges { IfOk result (λ drawn. accept.HasShape (params_of circuit.now) drawn.challenges) }
{
    let public = multiples(9, circuit.publics(), 1, alloc)?;
    let messages = multiples(1, message_count(circuit), 0x1_0000_0001, alloc)?;
    let challenges = Challenges::new(alloc, &Params::of(circuit))?;
    let script = Script::new(alloc, circuit)?;
    Ok(Drawn {
        public,
        messages,
        script,
        challenges,
    })
}

/// Sends the messages to a new tape, and draws the script and the challenges.
pub fn draw<F: Field>(circuit: &Circuit<F>, drawn: &mut Drawn<F>)
    requires messages { length drawn.old.messages ≡ sent_counts circuit.now }
    requires script { HasShape circuit.now drawn.old.script }
    requires challenges { accept.HasShape (params_of circuit.now) drawn.old.challenges }
    ensures public { drawn.new.public ≡ drawn.old.public }
    ensures messages { drawn.new.messages ≡ drawn.old.messages }
    ensures script { HasShape circuit.now drawn.new.script }
    ensures challenges { accept.HasShape (params_of circuit.now) drawn.new.challenges }
{
    let mut tape = Tape::new();
    let messages = drawn.messages.as_slice();
    replay(circuit, &mut tape, messages, &mut drawn.script);
    draw_challenges(&Params::of(circuit), &mut tape, &mut drawn.challenges);
}
