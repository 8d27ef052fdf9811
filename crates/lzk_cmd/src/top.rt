//! The top call.

ghost use Rattle.std.specs.Prelude.{◌≡◌, IfOk};
ghost use Rattle.lzk_cmd.specs.Accepted.{DemoIsAccepted};
ghost use Rattle.lzk_cmd_files.specs.Ends.{refused_words};
ghost use Rattle.lzk_cmd.specs.Made.{ShaCircuitIsMade};
ghost use Rattle.lzk_cmd.specs.Laws.{RunLaws};
ghost use Rattle.lzk_cmd.specs.Promise.{Promise};
ghost use Rattle.lzk_cmd_files.specs.Seen.{seen, seen_sink};
ghost use Rattle.lzk_cmd.specs.Sights.{before, after, texts};
ghost use Rattle.lzk_cmd_files.specs.Walks.{IsEnding, Moves};
ghost use Rattle.lzk_cmd.specs.RunSteps.{TellsUnread, Works};
ghost use Rattle.lzk_cmd_words.specs.Words.{LeavesShelf, command_of};

use crate::laws::run_laws;
use lzk_cmd_batch::batch;
use lzk_cmd_circuits::{compile_source, eval, shacircuit, show, upgrade};
use lzk_cmd_files::{Ending, Halt, Means, conclude, lines};
use lzk_cmd_prove::{demo, prove, sha256};
use lzk_cmd_verify::verify;
use lzk_cmd_words::{Command, parse_words};
use lzk_field::Gate;
use lzk_outside::{Shelf, Sink};
use std::alloc::{AllocError, Global};
use std::marker::Sync;
use std::thread::Threads;

// How a run ends whose words are no command.
fn refuse(alloc: Global) -> Result<Ending, AllocError>
    ensures { IfOk result (IsEnding refused_words) }
{
    let text = lines::refuse_words(alloc)?;
    Ok(Ending { status: 2, text })
}

// Does what the words say: all of a run but the printing.
fn work<R: Threads + Sync, S: Shelf, G: Gate>(
    means: &Means<'_, R, G>,
    words: &[String],
    shelf: &mut S,
) -> Result<Ending, Halt>
    ensures works { Works (texts words.now) (seen S.Shelf shelf.old) (seen S.Shelf shelf.new) result }
    ensures moves { Moves (seen S.Shelf shelf.old) (seen S.Shelf shelf.new) }
    ensures unread { TellsUnread (texts words.now) result }
    ensures untouched { LeavesShelf (command_of (texts words.now)) → shelf.new ≡ shelf.old }
{
    match parse_words(words) {
        None => Ok(refuse(means.alloc)?),
        Some(
            Command::Eval {
                circuit,
                public,
                private,
            },
        ) => eval(means, circuit, public, private, shelf),
        Some(
            Command::Compile {
                source,
                circuit,
                version,
            },
        ) => compile_source(means, source, circuit, version, shelf),
        Some(Command::Upgrade { old, new }) => upgrade(means, old, new, shelf),
        Some(Command::Show { circuit }) => show(means, circuit, shelf),
        Some(Command::Prove(order)) => prove(means, &order, shelf),
        Some(
            Command::Verify {
                circuit,
                public,
                proof,
                session,
            },
        ) => verify(means, circuit, public, proof, session, shelf),
        Some(Command::Batch { list, workers }) => batch(means, list, workers, shelf),
        Some(
            Command::Demo {
                count,
                seed,
                workers,
            },
        ) => demo(means, count, seed, workers),
        Some(Command::ShaCircuit { count, circuit }) => shacircuit(means, count, circuit, shelf),
        Some(Command::Sha256(order)) => sha256(means, &order, shelf),
    }
}

/// Does what the words say, and answers the status: 0 done, 1 unsatisfied or rejected, 2 the words are no command,
/// 3 a file is refused, 4 a read failed, 5 a put or a write failed, 6 want of memory. Nothing is printed
/// after a failed write or at want of memory. The runtime and the gate reach every command; no clause
/// depends on them.
pub fn run<R: Threads + Sync, S: Shelf, K: Sink, G: Gate>(
    rt: &R,
    alloc: Global,
    words: &[String],
    shelf: &mut S,
    out: &mut K,
    gate: &G,
) -> u8
    // What was seen before, and what stands after.
    ensures run { Promise (before S.Shelf K.Sink words.now shelf.old out.old)
        (after S.Shelf K.Sink result shelf.new out.new) }

    // Where the words are no command, or one that reads and puts no file, the shelf is as before in every respect.
    ensures untouched { LeavesShelf (command_of (texts words.now)) → shelf.new ≡ shelf.old }

    // Words, files and stop have one end, and have an end. What `prove` and `sha256` put is accepted; over a circuit
    // whose checks are SHA-256's outputs, as one of `shacircuit`, every message satisfies.
    ensures laws { RunLaws }

    // `shacircuit` refuses nothing.
    ensures made { ShaCircuitIsMade (before S.Shelf K.Sink words.now shelf.old out.old)
        (after S.Shelf K.Sink result shelf.new out.new) }

    // What `demo` proves is accepted.
    ensures demo { DemoIsAccepted (before S.Shelf K.Sink words.now shelf.old out.old)
        (after S.Shelf K.Sink result shelf.new out.new) }
{
    run_laws();
    let means = Means { rt, alloc, gate };
    let done = work(&means, words, shelf);
    conclude(out, &done)
}
