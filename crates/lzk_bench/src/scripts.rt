//! What the tape draws for proofs of an independent implementation, and their constraints combined.

ghost use Rattle.lzk_profile.specs.Profile.{most_digests};
ghost use Rattle.std.specs.Prelude.{◌≡◌, ◌≤◌, ◌-◌, ◌*◌, length, IfOk};
ghost use Rattle.lzk_layout.specs.Sizes.{AreBounded, params_of, sent_counts};
ghost use Rattle.lzk_layout.specs.Proofs.{HasLengths};
ghost use Rattle.lzk_sumcheck.specs.Script.{HasShape};
ghost use Rattle.lzk_accept.specs.Challenges as accept;
ghost use Rattle.lzk_accept.specs.Kept.{AreFormsOf};

use lzk_accept::{Challenges, Forms, draw_challenges};
use lzk_circbytes::{AnyCircuit, decode};
use lzk_circuit::Circuit;
use lzk_expr::read_numbers;
use lzk_field::Field;
use lzk_layout::{Elements, Params, Proof};
use lzk_layout_decode::decode_proof;
use lzk_residual::{combine, linear_forms};
use lzk_sumcheck::{LayerScript, Script, message_count, replay};
use lzk_transcript::Tape;
use std::alloc::{AllocError, Global};
use std::fs;
use std::rt::Files;

/// The proofs that lie where the program runs, each with the numbers of its draws, and of its combined constraints,
/// joined to one element, by that implementation.
const JOINED: [(&str, u128, u128); 18] = [
    ("credential", 0xb0d83abd35767908, 0x94b2d3f8ee365cc4),
    ("cube", 0xfb5f4a294617d9a6, 0xd33f9cf8bb1e8d7b),
    ("demo-16", 0xbe7dab7886632642, 0x9569185e84fc8be),
    (
        "gf-square",
        0x89863b451fb50a11ba7fa4be6d22f781,
        0xb2d18e321ba13b65edfa7b95cc8371ce,
    ),
    (
        "gf-two-layers",
        0xe97ca9bedc6761d126aaa6986cbebe2,
        0x38592b2248abb853342adde1f0bdf943,
    ),
    ("layers-64", 0xd46740c10256e92f, 0x2ddd47721fb8b479),
    ("layers-65", 0xbbcd5833027062ae, 0x7cea12e14ab25810),
    ("nw-128", 0x4f0588e95751f847, 0xbf21f003833732c1),
    ("nw-4096", 0x306fb272a94dd2e4, 0x21d9a76cd004def9),
    ("nw-4097", 0xe78993176fbb04a, 0x912f74bf8630bce6),
    ("nw-64", 0x3816818934686715, 0x9f17133a5f5aa6fb),
    ("nw-65", 0xdf0031cecf77a655, 0xb8d406059c2772af),
    ("one-wire", 0xb42be1faeeeec650, 0x39f0e54178d40f7a),
    ("private-only", 0xea6113c690c25f44, 0xd392126117f162b3),
    ("public-only", 0xd94dfec7c9dbe97b, 0x5ece4911f767b2e),
    (
        "random-three-layers",
        0x20b829f9df99c95a,
        0x1d5035173db3483c,
    ),
    ("square", 0x9ea92c265d2c0338, 0x50e9c78f13f8f3a6),
    ("square-large", 0xf1546c4146ac24f, 0x2428809d7e197f8),
];

// What was joined before times three, and the next element added.
fn next<F: Field>(before: F, x: F) -> F {
    before.mul(F::of_word(3)).add(x)
}

// The elements of a list behind those that were joined before.
fn joined<F: Field>(before: F, list: &[F]) -> F {
    let mut total = before;
    for x in list {
        total = next(total, *x);
    }
    total
}

// A layer's draws behind those before.
fn layer_joined<F: Field>(before: F, layer: &LayerScript<F>) -> F {
    let total = next(before, layer.alpha);
    let total = joined(total, layer.ra.as_slice());
    joined(total, layer.rb.as_slice())
}

// The draws of a script, in their order.
fn script_joined<F: Field>(script: &Script<F>) -> F {
    let mut total = joined(F::zero(), script.out_point.as_slice());
    for layer in script.layers.as_slice() {
        total = layer_joined(total, layer);
    }
    next(total, script.gamma)
}

// The draws behind the script.
fn challenges_joined<F: Field>(before: F, drawn: &Challenges<F>) -> F {
    let mut total = joined(before, drawn.u.as_slice());
    total = joined(total, drawn.lambda.as_slice());
    total = joined(total, drawn.mu.as_slice());
    joined(total, drawn.v.as_slice())
}

/// What is drawn for a proof, and room for its constraints and what is combined of them.
#[derive(Drop)]
pub struct Drawn<F> {
    pub script: Script<F>,
    pub challenges: Challenges<F>,
    pub forms: Forms<F>,
    pub coefficients: Elements<F>,
}

// Zeros for all rows from row 3 on.
fn rows_for<F: Field>(params: &Params, alloc: Global) -> Result<Elements<F>, AllocError>
    requires { AreBounded params.now }
    ensures { IfOk result (λ list. length list ≡ (params.now.nrow - 3) * params.now.wr) }
{
    let size = (params.nrow - 3) as usize * params.wr as usize;
    Elements::zeros(alloc, size)
}

/// Nothing drawn yet.
pub fn undrawn<F: Field>(alloc: Global, circuit: &Circuit<F>) -> Result<Drawn<F>, AllocError>
    ensures script { IfOk result (λ drawn. HasShape circuit.now drawn.script) }
    ensures challenges { IfOk result (λ drawn. accept.HasShape (params_of circuit.now) drawn.challenges) }
    ensures forms { IfOk result (λ drawn. AreFormsOf F.ops circuit.now drawn.forms) }
    ensures coefficients { let p = params_of circuit.now in
        IfOk result (λ drawn. length drawn.coefficients ≡ (p.nrow - 3) * p.wr) }
{
    let coefficients = rows_for(&Params::of(circuit), alloc)?;
    let challenges = Challenges::new(alloc, &Params::of(circuit))?;
    let script = Script::new(alloc, circuit)?;
    let forms = Forms::new(alloc, circuit)?;
    Ok(Drawn {
        script,
        challenges,
        forms,
        coefficients,
    })
}

/// What is drawn for elements that are sent to a tape, and their constraints.
pub fn draw_forms<F: Field>(
    circuit: &Circuit<F>,
    public: &[F],
    messages: &[F],
    tape: &mut Tape,
    drawn: &mut Drawn<F>,
)
    requires public { length public.now ≡ circuit.now.publics }
    requires messages { length messages.now ≡ sent_counts circuit.now }
    requires script { HasShape circuit.now drawn.old.script }
    requires challenges { accept.HasShape (params_of circuit.now) drawn.old.challenges }
    requires forms { AreFormsOf F.ops circuit.now drawn.old.forms }
    ensures challenges { accept.HasShape (params_of circuit.now) drawn.new.challenges }
    ensures forms { AreFormsOf F.ops circuit.now drawn.new.forms }
    ensures coefficients { drawn.new.coefficients ≡ drawn.old.coefficients }
{
    replay(circuit, tape, messages, &mut drawn.script);
    draw_challenges(&Params::of(circuit), tape, &mut drawn.challenges);
    linear_forms(circuit, public, &drawn.script, messages, &mut drawn.forms);
}

// What is drawn for a proof before its columns, and its constraints combined.
#[derive(Clone, Copy)]
struct Sums<F> {
    draws: F,
    combined: F,
}

// Both of them, each as one element.
fn sums_of_read<F: Field>(
    circuit: &Circuit<F>,
    session: &[u8],
    public: &[F],
    read: &Proof<F>,
    drawn: &mut Drawn<F>,
) -> Sums<F>
    requires public { length public.now ≡ circuit.now.publics }
    requires messages { length read.now.messages ≡ sent_counts circuit.now }
    requires script { HasShape circuit.now drawn.old.script }
    requires challenges { accept.HasShape (params_of circuit.now) drawn.old.challenges }
    requires forms { AreFormsOf F.ops circuit.now drawn.old.forms }
    requires coefficients { let p = params_of circuit.now in length drawn.old.coefficients ≡ (p.nrow - 3) * p.wr }
{
    let mut tape = Tape::new();
    tape.bytes(b"lzk1");
    tape.bytes(session);
    tape.bytes(&read.id);
    tape.array(public);
    tape.bytes(&read.root);
    draw_forms(circuit, public, read.messages.as_slice(), &mut tape, drawn);
    let a = drawn.coefficients.as_mut_slice();
    let wanted = combine(&Params::of(circuit), &drawn.forms, &drawn.challenges, a);
    let draws = challenges_joined(script_joined(&drawn.script), &drawn.challenges);
    let combined = joined(F::zero(), drawn.coefficients.as_slice());
    Sums {
        draws: next(draws, tape.draw()),
        combined: next(combined, wanted),
    }
}

// The same of a proof's bytes. None where the proof is not of the circuit.
fn sums_in<F: Field>(
    circuit: &Circuit<F>,
    session: &[u8],
    public: &[F],
    proof: &[u8],
    read: &mut Proof<F>,
    drawn: &mut Drawn<F>,
) -> Option<Sums<F>>
    requires lengths { HasLengths (params_of circuit.now) read.old }
    requires room { most_digests ≤ read.old.path.room }
    requires script { HasShape circuit.now drawn.old.script }
    requires challenges { accept.HasShape (params_of circuit.now) drawn.old.challenges }
    requires forms { AreFormsOf F.ops circuit.now drawn.old.forms }
    requires coefficients { let p = params_of circuit.now in length drawn.old.coefficients ≡ (p.nrow - 3) * p.wr }
{
    let params = Params::of(circuit);
    if decode_proof(&params, proof, read).is_err() {
        return None;
    }
    if read.messages.as_slice().len() != message_count(circuit) as usize
        || public.len() != circuit.publics() as usize
    {
        return None;
    }
    Some(sums_of_read(circuit, session, public, read, drawn))
}

// The same in room of its own.
fn sums_of<F: Field>(
    alloc: Global,
    circuit: &Circuit<F>,
    session: &[u8],
    public: &[F],
    proof: &[u8],
) -> Result<Option<Sums<F>>, AllocError> {
    let mut read = Proof::<F>::new(alloc, &Params::of(circuit))?;
    let mut drawn = undrawn(alloc, circuit)?;
    let sums = sums_in(circuit, session, public, proof, &mut read, &mut drawn);
    drop(drawn);
    Ok(sums)
}

// Whether the two of a proof are those of the table.
fn are_joined<F: Field>(
    alloc: Global,
    circuit: &Circuit<F>,
    texts: &Texts,
    wanted: (u128, u128),
) -> Result<bool, AllocError> {
    if texts.public.len() > 4_194_304 {
        return Ok(false);
    }
    let Ok(public) = read_numbers::<F>(alloc, &texts.public, circuit.publics()) else {
        return Ok(false);
    };
    let found = sums_of(alloc, circuit, &texts.session, &public, &texts.proof);
    drop(public);
    Ok(found?.is_some_and(|sums| (sums.draws.number(), sums.combined.number()) == wanted))
}

// The files of a proof.
#[derive(Drop)]
struct Texts {
    circuit: Vec<u8>,
    session: Vec<u8>,
    public: Vec<u8>,
    proof: Vec<u8>,
}

/// A file that lies where the program runs.
pub fn file_of<R: Files + AllocGlobal>(
    rt: &R,
    name: &str,
    ending: &str,
) -> anyhow::Result<Vec<u8>> {
    let alloc = rt.alloc();
    let path = format!(in alloc; "{name}.{ending}")?;
    Ok(fs::read(rt, path.as_str())?)
}

fn texts_of<R: Files + AllocGlobal>(rt: &R, name: &str) -> anyhow::Result<Texts> {
    let circuit = file_of(rt, name, "lzc")?;
    let session = file_of(rt, name, "session")?;
    let public = file_of(rt, name, "txt")?;
    let proof = file_of(rt, name, "lzp")?;
    Ok(Texts {
        circuit,
        session,
        public,
        proof,
    })
}

// Whether a proof has the draws and combined constraints of the table.
fn is_given(alloc: Global, texts: &Texts, wanted: (u128, u128)) -> anyhow::Result<bool> {
    let same = match decode(alloc, &texts.circuit)? {
        AnyCircuit::Gold(circuit) => are_joined(alloc, &circuit, texts, wanted),
        AnyCircuit::Gf(circuit) => are_joined(alloc, &circuit, texts, wanted),
    };
    Ok(same?)
}

// The same of files that lie where the program runs.
fn is_given_by_name<R: Files + AllocGlobal>(
    rt: &R,
    name: &str,
    wanted: (u128, u128),
) -> anyhow::Result<bool> {
    let texts = texts_of(rt, name)?;
    is_given(rt.alloc(), &texts, wanted)
}

/// How many of the proofs that lie where the program runs have the draws and combined constraints of the table.
pub fn joined_as_given<R: Files + AllocGlobal>(rt: &R) -> anyhow::Result<u128> {
    let mut count = 0u128;
    for (name, draws, combined) in JOINED {
        let same = is_given_by_name(rt, name, (draws, combined))?;
        count = count.wrapping_add(same as u128);
    }
    Ok(count)
}
