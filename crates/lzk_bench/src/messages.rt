//! What a prover sends in the sumchecks of a circuit over 16,384 bits.

ghost use Rattle.std.specs.Prelude.{◌≡◌, length, IfOk};
ghost use Rattle.lzk_circuit.specs.Checks.{HasRoom};
ghost use Rattle.lzk_circuit.specs.Valid.{HaveWidths};
ghost use Rattle.lzk_layout.specs.Sizes.{sent_counts};
ghost use Rattle.lzk_sumcheck_rounds.specs.Room.{IsRoomOf};
ghost use Rattle.lzk_sumcheck.specs.Script.{HasShape};

use crate::rows::first_values;
use crate::texts::parity_circuit;
use lzk_circuit::{Circuit, Values};
use lzk_field::Field;
use lzk_sumcheck::{Script, message_count};
use lzk_sumcheck_prover::{Rounds, prove_layers};
use lzk_transcript::Tape;
use std::alloc::{AllocError, Global};
use std::marker::Sync;
use std::thread::Threads;

// Messages, the first pad of each being the first element that was sent before; gives the last element.
fn send_often<R: Threads + Sync, F: Field>(
    rt: &R,
    circuit: &Circuit<F>,
    values: &Values<F>,
    pads: &mut [F],
    room: &mut Rounds<F>,
    messages: &mut [F],
    script: &mut Script<F>,
    times: u32,
) -> F
    requires values { HaveWidths circuit.now values.now.wires }
    requires pads { length pads.old ≡ sent_counts circuit.now }
    requires room { IsRoomOf circuit.now room.old }
    requires messages { length messages.old ≡ sent_counts circuit.now }
    requires shape { HasShape circuit.now script.old }
{
    let mut tape = Tape::new();
    for _ in 0..times {
        prove_layers(
            rt, circuit, values, pads, &mut tape, 1, room, messages, script,
        );
        if let (Some(pad), Some(first)) = (pads.first_mut(), messages.first()) {
            *pad = *first;
        }
    }
    match messages.last() {
        Some(x) => *x,
        None => F::zero(),
    }
}

// The inputs of a circuit and the pads of what is sent over it, the first values each, and room for what is sent.
#[derive(Drop)]
struct Lists<F> {
    public: Vec<F>,
    private: Vec<F>,
    pads: Vec<F>,
    messages: Vec<F>,
}

fn lists_of<F: Field>(alloc: Global, circuit: &Circuit<F>) -> Result<Lists<F>, AllocError> {
    let public = first_values::<F>(alloc, circuit.publics())?;
    let private = first_values::<F>(alloc, circuit.privates())?;
    let pads = first_values::<F>(alloc, message_count(circuit))?;
    let messages = first_values::<F>(alloc, message_count(circuit))?;
    Ok(Lists {
        public,
        private,
        pads,
        messages,
    })
}

// What the rounds of a circuit work in.
#[derive(Drop)]
struct Work<F: Field> {
    values: Values<F>,
    rounds: Rounds<F>,
    script: Script<F>,
}

fn work_for<F: Field>(alloc: Global, circuit: &Circuit<F>) -> Result<Work<F>, AllocError>
    ensures values { IfOk result (λ work. HasRoom F.coding.number circuit.now work.values) }
    ensures rounds { IfOk result (λ work. IsRoomOf circuit.now work.rounds) }
    ensures script { IfOk result (λ work. HasShape circuit.now work.script) }
{
    let values = Values::new(alloc, circuit)?;
    let rounds = Rounds::new(alloc, circuit)?;
    let script = Script::new(alloc, circuit)?;
    Ok(Work {
        values,
        rounds,
        script,
    })
}

// The last element that is sent; 0 where nothing is.
fn send<R: Threads + Sync, F: Field>(
    rt: &R,
    circuit: &Circuit<F>,
    lists: &mut Lists<F>,
    work: &mut Work<F>,
    times: u32,
) -> u128
    requires values { HasRoom F.coding.number circuit.now work.old.values }
    requires rounds { IsRoomOf circuit.now work.old.rounds }
    requires script { HasShape circuit.now work.old.script }
{
    let count = message_count(circuit) as usize;
    if lists.public.len() != circuit.publics() as usize
        || lists.private.len() != circuit.privates() as usize
        || lists.pads.len() != count
        || lists.messages.len() != count
        || times == 0
    {
        return 0;
    }
    circuit.eval(&lists.public, &lists.private, &mut work.values);
    let last = send_often(
        rt,
        circuit,
        &work.values,
        &mut lists.pads,
        &mut work.rounds,
        &mut lists.messages,
        &mut work.script,
        times,
    );
    last.number()
}

// The messages of a circuit over the first values.
fn sent_of<R: Threads + Sync, F: Field>(
    rt: &R,
    alloc: Global,
    circuit: &Circuit<F>,
    times: u32,
) -> Result<u128, AllocError> {
    let mut lists = lists_of(alloc, circuit)?;
    let mut work = work_for(alloc, circuit)?;
    let last = send(rt, circuit, &mut lists, &mut work, times);
    drop(work);
    Ok(last)
}

/// Messages of the circuit.
pub fn sent<R: Threads + Sync>(rt: &R, alloc: Global, times: u32) -> Result<u128, AllocError> {
    match parity_circuit(alloc)? {
        Some(circuit) => sent_of(rt, alloc, &circuit, times),
        None => Ok(0),
    }
}
