//! Two workers share the sums of wide rounds.

ghost use Rattle.std.specs.Prelude.{◌≡◌, ◌≤◌, length, IfOk};
ghost use Rattle.lzk_circuit.specs.Valid.{HaveWidths};
ghost use Rattle.lzk_layout.specs.Sizes.{sent_counts};
ghost use Rattle.lzk_sumcheck_rounds.specs.Room.{IsRoomOf};
ghost use Rattle.lzk_sumcheck.specs.Script.{HasShape};

use crate::sumcheck::shared::{Shape, circuit_of};
use lzk_circuit::{Circuit, Values, zeros};
use lzk_gf128::Gf128;
use lzk_sumcheck::{Script, message_count};
use lzk_sumcheck_prover::{Rounds, prove_layers};
use lzk_transcript::Tape;
use std::alloc::{AllocError, Global};
use std::io;
use std::marker::Sync;
use std::test::Fail;
use std::thread::Threads;
use std::time::CpuClock;

// One wire of no terms over 40,000 inputs: what costs are the tables of the inputs, of which the first four rounds
// are worth two workers.
const WIDE: Shape<'static> = (0, 39_999, &[(1, &[])]);

// Processor time: of the calling thread, and of the process's other threads, those that have ended too.
#[derive(Clone, Copy)]
struct Spent {
    own: u128,
    others: u128,
}

impl Spent {
    // In nanoseconds, from when the threads began.
    fn so_far<R: CpuClock>(rt: &R) -> io::Result<Spent> {
        let own = rt.thread_cpu_time()?.as_nanos();
        let all = rt.process_cpu_time()?.as_nanos();
        let others = all.saturating_sub(own);
        Ok(Spent { own, others })
    }

    fn since(self, before: Spent) -> Spent {
        Spent {
            own: self.own.saturating_sub(before.own),
            others: self.others.saturating_sub(before.others),
        }
    }

    // Whether others did a part of the work. Of two workers the other spends some third of what the caller's thread
    // does, which does more than sum; threads that are started for nothing spend about a hundredth.
    fn is_shared(self) -> bool {
        self.others > self.own / 16
    }
}

// What the sumchecks of a circuit read and write. The values and the pads are zeros.
#[derive(Drop)]
struct Work {
    values: Values<Gf128>,
    pads: Vec<Gf128>,
    room: Rounds<Gf128>,
    messages: Vec<Gf128>,
    script: Script<Gf128>,
}

fn work_for(alloc: Global, circuit: &Circuit<Gf128>) -> Result<Work, AllocError>
    ensures values { IfOk result (λ work. HaveWidths circuit.now work.values.wires) }
    ensures pads { IfOk result (λ work. length work.pads.items ≡ sent_counts circuit.now) }
    ensures room { IfOk result (λ work. IsRoomOf circuit.now work.room) }
    ensures messages { IfOk result (λ work. length work.messages.items ≡ sent_counts circuit.now) }
    ensures script { IfOk result (λ work. HasShape circuit.now work.script) }
{
    let count = message_count(circuit) as usize;
    let values = Values::new(alloc, circuit)?;
    let pads = zeros(alloc, count)?;
    let room = Rounds::new(alloc, circuit)?;
    let messages = zeros(alloc, count)?;
    let script = Script::new(alloc, circuit)?;
    Ok(Work {
        values,
        pads,
        room,
        messages,
        script,
    })
}

// What so many workers spend in the sumchecks of a circuit.
fn spent_by<R: Threads + Sync + CpuClock>(
    rt: &R,
    workers: usize,
    circuit: &Circuit<Gf128>,
    work: &mut Work,
) -> io::Result<Spent>
    requires some_workers { 1 ≤ workers }
    requires few_workers { workers ≤ 64 }
    requires values { HaveWidths circuit.now work.old.values.wires }
    requires pads { length work.old.pads.items ≡ sent_counts circuit.now }
    requires room { IsRoomOf circuit.now work.old.room }
    requires messages { length work.old.messages.items ≡ sent_counts circuit.now }
    requires script { HasShape circuit.now work.old.script }
{
    let before = Spent::so_far(rt)?;
    prove_layers(
        rt,
        circuit,
        &work.values,
        &work.pads,
        &mut Tape::new(),
        workers,
        &mut work.room,
        &mut work.messages,
        &mut work.script,
    );
    Ok(Spent::so_far(rt)?.since(before))
}

// Whether so many workers share the work. One exit drops what they work on.
fn is_shared_by<R: Threads + Sync + CpuClock>(
    rt: &R,
    alloc: Global,
    workers: usize,
    circuit: &Circuit<Gf128>,
) -> io::Result<bool>
    requires some_workers { 1 ≤ workers }
    requires few_workers { workers ≤ 64 }
{
    let mut work = work_for(alloc, circuit)?;
    let spent = spent_by(rt, workers, circuit, &mut work);
    drop(work);
    Ok(spent?.is_shared())
}

// The same for one worker, and for two.
fn are_shared<R: Threads + Sync + CpuClock>(
    rt: &R,
    alloc: Global,
    circuit: &Option<Circuit<Gf128>>,
) -> io::Result<Option<[bool; 2]>> {
    let Some(circuit) = circuit else {
        return Ok(None);
    };
    let by_one = is_shared_by(rt, alloc, 1, circuit)?;
    let by_two = is_shared_by(rt, alloc, 2, circuit)?;
    Ok(Some([by_one, by_two]))
}

// Nothing of a caller's sees who sums, so the processor time of the caller's thread is set against that of the whole
// process. Where one worker sums all, the other threads spend next to nothing, on a busy machine too.
#[test]
fn two_workers_sum(rt: HostRuntime) -> Result<(), Fail> {
    let circuit = circuit_of::<Gf128>(WIDE, rt.alloc())?;
    let are = are_shared(&rt, rt.alloc(), &circuit);
    drop(circuit);
    assert_eq!(rt; are?, Some([false, true]));
    Ok(())
}
