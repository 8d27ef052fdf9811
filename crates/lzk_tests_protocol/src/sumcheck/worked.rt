//! The circuit of `x * x = y` with what is sent and drawn set by hand. Its residuals and what is combined of its
//! constraints were worked out by hand.

ghost use Rattle.std.specs.Prelude.{◌≡◌, ◌<◌, ◌+◌, ◌-◌, ◌*◌, length, IfOk, IfSome};
ghost use Rattle.lzk_layout.specs.Sizes.{sent_counts, committed_count, params_of};
ghost use Rattle.lzk_sumcheck.specs.Script.{HasShape};
ghost use Rattle.lzk_accept.specs.Challenges as accept;
ghost use Rattle.lzk_accept.specs.Kept.{AreFormsOf};

use crate::sumcheck::combined::{Combined, combine_rows, uncombined};
use crate::sumcheck::shared::{Drawn, SQUARE, circuit_of, elements, undrawn};
use lzk_accept::Forms;
use lzk_circuit::{Circuit, bits_of};
use lzk_field::Field;
use lzk_goldilocks::Gold;
use lzk_layout::{Elements, Params};
use lzk_residual::residual;
use lzk_sumcheck::{LayerScript, LayerScripts, Script};
use std::alloc::{AllocError, Global};
use std::test::Fail;

// Minus 54 and minus 6.
const RESIDUALS: [u128; 2] = [0xfffffffeffffffcb, 0xfffffffefffffffb];

// Row, position and number of what is not 0 among the combined coefficients: 20, 1, minus 1 twice, minus 128, minus
// 28, minus 6, and 100.
const STANDING: [(usize, usize, u128); 8] = [
    (3, 0, 20),
    (3, 3, 1),
    (3, 5, 0xffffffff00000000),
    (3, 7, 0xffffffff00000000),
    (3, 9, 0xfffffffeffffff81),
    (3, 10, 0xfffffffeffffffe5),
    (3, 11, 0xfffffffefffffffb),
    (4, 0, 100),
];

// The script of a circuit with one layer, if so many challenges are drawn for it.
fn one_layer_script<F: Field>(
    circuit: &Circuit<F>,
    alpha: F,
    ra: Vec<F>,
    rb: Vec<F>,
    gamma: F,
    alloc: Global,
) -> Result<Option<Script<F>>, AllocError>
    ensures { IfOk result (λ some. IfSome some (λ script. HasShape circuit.now script)) }
{
    if circuit.depth() != 1 {
        return Ok(None);
    }
    let bits = bits_of(circuit.width(1)) as usize;
    if ra.len() != bits || rb.len() != bits {
        return Ok(None);
    }
    let mut script = Script::new(alloc, circuit)?;
    let mut layers = Vec::new(alloc);
    layers.push(LayerScript {
        alpha,
        beta: F::zero(),
        ra: Elements::new(ra),
        rb: Elements::new(rb),
    })?;
    script.layers = LayerScripts::new(layers);
    script.gamma = gamma;
    Ok(Some(script))
}

// Writes these numbers, and zeros behind them, over a list.
fn set_numbers<F: Field>(list: &mut [F], numbers: &[u128])
    ensures { length list.new ≡ length list.old }
{
    for k in 0..list.len() {
        list[k] = match numbers.get(k) {
            Some(&n) => F::of_word(n),
            None => F::zero(),
        };
    }
}

// Sets by hand what is sent and drawn, but for the script.
fn set_by_hand<F: Field>(circuit: &Circuit<F>, drawn: &mut Drawn<F>)
    requires challenges { accept.HasShape (params_of circuit.now) drawn.old.challenges }
    ensures public { length drawn.new.public ≡ length drawn.old.public }
    ensures messages { length drawn.new.messages ≡ length drawn.old.messages }
    ensures script { drawn.new.script ≡ drawn.old.script }
    ensures challenges { accept.HasShape (params_of circuit.now) drawn.new.challenges }
{
    set_numbers(drawn.public.as_mut_slice(), &[9]);
    set_numbers(
        drawn.messages.as_mut_slice(),
        &[0, 0, 0, 0, 0, 0, 0, 0, 3, 3],
    );
    set_numbers(drawn.challenges.lambda.as_mut_slice(), &[1, 10]);
    set_numbers(drawn.challenges.mu.as_mut_slice(), &[100]);
}

// Whether these coefficients, in rows of 64 from row 3 on, are those that are not 0, and zeros.
fn are_standing<F: Field>(coefficients: &[F]) -> bool {
    for k in 0..coefficients.len() {
        let mut number = 0;
        for (row, position, n) in STANDING {
            if 3 + k / 64 == row && k % 64 == position {
                number = n;
            }
        }
        if coefficients[k].number() != number {
            return false;
        }
    }
    coefficients.len() > 64
}

// A form at zeros, less its right side, and the residual there.
fn are_alike<F: Field>(
    circuit: &Circuit<F>,
    drawn: &Drawn<F>,
    forms: &Forms<F>,
    room: &mut Zeros<F>,
    i: u32,
    number: u128,
) -> bool
    requires constraint { i < length circuit.now.layers + 1 }
    requires public { length drawn.now.public ≡ circuit.now.publics }
    requires messages { length drawn.now.messages ≡ sent_counts circuit.now }
    requires script { HasShape circuit.now drawn.now.script }
    requires forms { AreFormsOf F.ops circuit.now forms.now }
    requires w { length room.old.w ≡ committed_count circuit.now }
    ensures w { length room.new.w ≡ committed_count circuit.now }
{
    let (public, messages) = (drawn.public.as_slice(), drawn.messages.as_slice());
    let (w, room) = (room.w.as_slice(), room.room.as_mut_slice());
    if room.len() != 262_144 {
        return false;
    }
    let left = residual(circuit, public, &drawn.script, messages, i, w, room);
    left == forms.right(i).neg() && left.number() == number
}

// A list of pads and private inputs that are zeros, and room for residuals.
#[derive(Drop)]
struct Zeros<F> {
    w: Elements<F>,
    room: Elements<F>,
}

// So many zeros. That they are so many is tested where they are lent: a proof would write them all out.
fn zeros_of<F: Field>(count: usize, alloc: Global) -> Result<Elements<F>, AllocError> {
    Elements::zeros(alloc, count)
}

fn zeros_for<F: Field>(circuit: &Circuit<F>, alloc: Global) -> Result<Zeros<F>, AllocError>
    ensures w { IfOk result (λ zeros. length zeros.w ≡ committed_count circuit.now) }
{
    let w = Elements::zeros(alloc, Params::of(circuit).nw as usize)?;
    let room = zeros_of(262_144, alloc)?;
    Ok(Zeros { w, room })
}

// Whether the residuals at zeros, the wanted sum and the combined coefficients are the worked ones.
fn is_worked<F: Field>(
    circuit: &Circuit<F>,
    drawn: &Drawn<F>,
    zeros: &mut Zeros<F>,
    combined: &mut Combined<F>,
) -> bool
    requires public { length drawn.now.public ≡ circuit.now.publics }
    requires messages { length drawn.now.messages ≡ sent_counts circuit.now }
    requires script { HasShape circuit.now drawn.now.script }
    requires challenges { accept.HasShape (params_of circuit.now) drawn.now.challenges }
    requires w { length zeros.old.w ≡ committed_count circuit.now }
    requires forms { AreFormsOf F.ops circuit.now combined.old.forms }
    requires coefficients { let p = params_of circuit.now in length combined.old.coefficients ≡ (p.nrow - 3) * p.wr }
{
    let wanted = combine_rows(circuit, drawn, combined);
    if circuit.depth() != 1 {
        return false;
    }
    let forms = &combined.forms;
    let first = are_alike(circuit, drawn, forms, zeros, 0, RESIDUALS[0]);
    let second = are_alike(circuit, drawn, forms, zeros, 1, RESIDUALS[1]);
    first && second && wanted.number() == 114 && are_standing(combined.coefficients.as_slice())
}

// The same with zeros and constraints of its own, which one exit drops.
fn finds_for<F: Field>(
    circuit: &Circuit<F>,
    drawn: &Drawn<F>,
    alloc: Global,
) -> Result<bool, AllocError>
    requires public { length drawn.now.public ≡ circuit.now.publics }
    requires messages { length drawn.now.messages ≡ sent_counts circuit.now }
    requires script { HasShape circuit.now drawn.now.script }
    requires challenges { accept.HasShape (params_of circuit.now) drawn.now.challenges }
{
    let mut zeros = zeros_for(circuit, alloc)?;
    let mut combined = uncombined(circuit, alloc)?;
    let finds = is_worked(circuit, drawn, &mut zeros, &mut combined);
    drop(combined);
    drop(zeros);
    Ok(finds)
}

// The same for the square's circuit, with this script.
fn finds<F: Field>(
    circuit: &Circuit<F>,
    script: Script<F>,
    alloc: Global,
) -> Result<bool, AllocError>
    requires { HasShape circuit.now script }
{
    let mut drawn = undrawn(circuit, alloc)?;
    set_by_hand(circuit, &mut drawn);
    drawn.script = script;
    let finds = finds_for(circuit, &drawn, alloc);
    drop(drawn);
    finds
}

// With the script that is set by hand.
fn found_over(circuit: &Option<Circuit<Gold>>, alloc: Global) -> Result<Option<bool>, AllocError> {
    let Some(circuit) = circuit else {
        return Ok(None);
    };
    let ra = elements(&[0, 1], alloc)?;
    let rb = elements(&[0, 1], alloc)?;
    let (alpha, gamma) = (Gold::of_word(5), Gold::one());
    match one_layer_script(circuit, alpha, ra, rb, gamma, alloc)? {
        Some(script) => Ok(Some(finds(circuit, script, alloc)?)),
        None => Ok(None),
    }
}

fn found(alloc: Global) -> Result<Option<bool>, AllocError> {
    let circuit = circuit_of::<Gold>(SQUARE, alloc)?;
    let found = found_over(&circuit, alloc);
    drop(circuit);
    found
}

#[test]
fn square_is_combined_as_worked_out(rt: HostRuntime) -> Result<(), Fail> {
    assert_eq!(rt; found(rt.alloc())?, Some(true));
    Ok(())
}
