//! The top call.

ghost use Rattle.std.specs.Prelude.{◌≡◌, ◌≤◌, IfOk};
ghost use Rattle.lzk_cmd_files.specs.Ends.{refused_words};
ghost use Rattle.lzk_cmd_files.specs.Seen.{seen, seen_sink};
ghost use Rattle.lzk_cmd_files.specs.Walks.{IsEnding};
ghost use Rattle.lzk_credential_run.specs.Ends.{NothingPut, Settles};
ghost use Rattle.lzk_credential_run.specs.Given.{PutsOne};
ghost use Rattle.lzk_credential_run.specs.Holding.{HoldingRun, Prove, Put};
ghost use Rattle.lzk_credential_run.specs.Orders.{holding_of};
ghost use Rattle.lzk_credential_run.specs.Runs.{RunOf, Works, order_for, texts};
ghost use Rattle.lzk_credential_run.specs.Verified.{VerifyRun};
ghost use Rattle.lzk_credential_run.specs.Words.{command_of};

use crate::circuits::circuit;
use crate::digests::digest;
use crate::holding::{Purpose, hold};
use crate::inputs::Outputs;
use crate::orders::Order;
use crate::proving::Task;
use crate::showing::show;
use crate::verifying::verify;
use crate::words::{Command, InputsWords, ProveWords, VerifyWords, parse_words};
use lzk_cmd_files::{Ending, Halt, Means, conclude};
use lzk_cmd_words::{session_bytes, workers_of};
use lzk_field::Gate;
use lzk_outside::{Shelf, Sink};
use lzk_work_threads::Hands;
use std::alloc::{AllocError, Global};

// How a run ends whose words are no command.
fn refuse(alloc: Global) -> Result<Ending, AllocError>
    ensures { IfOk result (IsEnding refused_words) }
{
    let text = lzk_cmd_files::lines::refuse_words(alloc)?;
    Ok(Ending { status: 2, text })
}

// The command `inputs`.
fn put_asked<R: Hands, S: Shelf, G: Gate>(
    means: &Means<'_, R, G>,
    words: &InputsWords<'_>,
    shelf: &mut S,
) -> Result<Ending, Halt>
    ensures { Settles (HoldingRun words.now.policy.now (holding_of words.now.holding)
        (Put words.now.public.now words.now.private.now)) (PutsOne words.now.public.now)
        (seen S.Shelf shelf.old) (seen S.Shelf shelf.new) result }
{
    let outputs = Outputs {
        public: words.public,
        private: words.private,
    };
    hold(
        means,
        words.policy,
        &words.holding,
        &Purpose::Put(outputs),
        shelf,
    )
}

// The command `prove`, with the bytes of its session.
fn prove_asked<R: Hands, S: Shelf, G: Gate>(
    means: &Means<'_, R, G>,
    words: &ProveWords<'_>,
    shelf: &mut S,
) -> Result<Ending, Halt>
    ensures { Settles (HoldingRun words.now.policy.now (holding_of words.now.holding)
        (Prove (order_for words.now.policy.now words.now.proof.now words.now.asked.session.digits.now))) NothingPut
        (seen S.Shelf shelf.old) (seen S.Shelf shelf.new) result }
{
    let session = session_bytes(means.alloc, Some(words.asked.session.digits))?;
    let order = Order {
        policy: words.policy,
        proof: words.proof,
        session: &session,
    };
    let task = Task {
        order,
        workers: workers_of(words.asked.workers),
    };
    hold(
        means,
        words.policy,
        &words.holding,
        &Purpose::Prove(task),
        shelf,
    )
}

// The command `verify`, with the bytes of its session.
fn verify_asked<S: Shelf>(
    alloc: Global,
    words: &VerifyWords<'_>,
    shelf: &mut S,
) -> Result<Ending, Halt>
    ensures { Settles (VerifyRun words.now.shown.now
        (order_for words.now.policy.now words.now.proof.now words.now.session.digits.now)) NothingPut
        (seen S.Shelf shelf.old) (seen S.Shelf shelf.new) result }
{
    let session = session_bytes(alloc, Some(words.session.digits))?;
    let order = Order {
        policy: words.policy,
        proof: words.proof,
        session: &session,
    };
    verify(alloc, words.shown, &order, shelf)
}

// Does what the words say: all of a run but the printing.
fn work<R: Hands, S: Shelf, G: Gate>(
    means: &Means<'_, R, G>,
    words: &[String],
    shelf: &mut S,
) -> Result<Ending, Halt>
    ensures { Works (command_of (texts words.now)) (seen S.Shelf shelf.old) (seen S.Shelf shelf.new) result }
{
    let alloc = means.alloc;
    match parse_words(words) {
        None => Ok(refuse(alloc)?),
        Some(
            Command::Circuit {
                policy,
                circuit: name,
            },
        ) => circuit(alloc, policy, name, shelf),
        Some(Command::Digest { policy, record }) => digest(alloc, policy, record, shelf),
        Some(Command::Inputs(order)) => put_asked(means, &order, shelf),
        Some(Command::Prove(order)) => prove_asked(means, &order, shelf),
        Some(Command::Show { policy }) => show(alloc, policy, shelf),
        Some(Command::Verify(order)) => verify_asked(alloc, &order, shelf),
    }
}

/// Does what the words say, and answers the status: 0 done, 1 a proof is rejected, 2 the words are no command, 3 a file
/// is refused, 4 a read failed, 5 a put or a write failed, 6 want of memory. Nothing is printed after a failed write or
/// at want of memory. No clause depends on the runtime and the gate.
pub fn run<R: Hands, S: Shelf, K: Sink, G: Gate>(
    rt: &R,
    alloc: Global,
    words: &[String],
    shelf: &mut S,
    out: &mut K,
    gate: &G,
) -> u8
    ensures run { RunOf (texts words.now) (seen S.Shelf shelf.old) (seen S.Shelf shelf.new)
        (seen_sink K.Sink out.old) (seen_sink K.Sink out.new) result }
    ensures status { result ≤ 6 }
{
    let means = Means { rt, alloc, gate };
    let done = work(&means, words, shelf);
    conclude(out, &done)
}
