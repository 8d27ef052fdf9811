//! The library for programs in C, and in any language that calls C, but for the call that proves: `lzk_c_prove`.
//!
//! `include/lzk.h` declares what is here, and `library/calls.c` refuses NULL in front of it. A caller hands in bytes
//! and room for bytes, and is told what came of it: the verdict of `lzk_verify` on a proof; what `lzk_calls` makes of a
//! source or a circuit's file, and `lzk_policy_calls` of a policy. Nothing is kept between calls, no thread is started,
//! no file is read, and nothing is printed. No call asks anything of its caller but that each pointer leads to as many
//! bytes as are said.
//!
//! ```text
//! uint32_t answer = lzk_verify(circuit, circuit_len, public, public_len, session, session_len, proof, proof_len);
//! if (answer == LZK_ACCEPTED) puts("accepted");
//! lzk_outcome found;
//! if (lzk_compile(1, source, source_len, room, sizeof room, &found) == LZK_DONE) keep(room, found.count);
//! ```
#![tactic(auto)]

ghost use Rattle.std.specs.Prelude.{◌≡◌};
ghost use Rattle.std.specs.List.{AllZip};
ghost use Rattle.lzk_calls.specs.Explained.{Answers, Explains, ExplainsPieces, IsExplained};
ghost use Rattle.lzk_calls.specs.Exports.{Compiles, Evaluates, MakesHash, Upgrades};
ghost use Rattle.lzk_calls.specs.Shown.{Shows};
ghost use Rattle.lzk_policy_calls.specs.Exports as policies;

use lzk_calls::{
    Info, Job, Outcome, Piece, Report, compile_text, evaluate, explain_jobs, info_of,
    make_sha_circuit, outcome_of, report_of, upgrade, verify_pieces, verify_whole,
};
use lzk_policy_calls::Given;
use std::alloc::Global;

/// The version of the calls: 65,536 times the major number, and the minor number.
#[unsafe(no_mangle)]
pub extern "C" fn lzk_version() -> u32
    ensures { result ≡ 2 }
{
    2
}

/// Verifies a proof, and gives the answer's number alone.
#[unsafe(no_mangle)]
pub extern "C" fn lzk_verify(
    alloc: Global,
    circuit: &[u8],
    public: &[u8],
    session: &[u8],
    proof: &[u8],
) -> u32
    ensures { Answers circuit.now public.now session.now proof.now result }
{
    report_of(verify_whole(alloc, circuit, public, session, proof)).answer
}

/// Verifies a proof, and writes which check failed first and with what.
#[unsafe(no_mangle)]
pub extern "C" fn lzk_explain(
    alloc: Global,
    circuit: &[u8],
    public: &[u8],
    session: &[u8],
    proof: &[u8],
    report: &mut Report,
) -> u32
    ensures told { Explains circuit.now public.now session.now proof.now report.new }
    ensures answer { result ≡ report.new.answer }
{
    let told = report_of(verify_whole(alloc, circuit, public, session, proof));
    *report = told;
    told.answer
}

/// Verifies a proof that lies in pieces, one after another, and writes which check failed first and with what.
#[unsafe(no_mangle)]
pub extern "C" fn lzk_explain_pieces(
    alloc: Global,
    circuit: &[u8],
    public: &[u8],
    session: &[u8],
    pieces: &[Piece<'_>],
    report: &mut Report,
) -> u32
    ensures told { ExplainsPieces circuit.now public.now session.now pieces.now report.new }
    ensures answer { result ≡ report.new.answer }
{
    let told = report_of(verify_pieces(alloc, circuit, public, session, pieces));
    *report = told;
    told.answer
}

/// Verifies many proofs over one circuit, whose file is read once, and writes a report for each.
#[unsafe(no_mangle)]
pub extern "C" fn lzk_explain_each(alloc: Global, circuit: &[u8], jobs: &mut [Job<'_>])
    ensures { AllZip (IsExplained circuit.now) jobs.old jobs.new }
{
    explain_jobs(alloc, circuit, jobs);
}

/// Compiles a source's text to a circuit's file, in version 1 or 2, and puts it into a room.
#[unsafe(no_mangle)]
pub extern "C" fn lzk_compile(
    alloc: Global,
    version: u32,
    source: &[u8],
    room: &mut [u8],
    outcome: &mut Outcome,
) -> u32
    ensures told { Compiles version source.now room.old room.new outcome.new }
    ensures answer { result ≡ outcome.new.answer }
{
    let told = outcome_of(compile_text(alloc, version, source, room));
    *outcome = told;
    told.answer
}

/// Makes the circuit of SHA-256 for messages of so many bytes, at most 55, and puts its file into a room.
#[unsafe(no_mangle)]
pub extern "C" fn lzk_sha_circuit(
    alloc: Global,
    len: u32,
    room: &mut [u8],
    outcome: &mut Outcome,
) -> u32
    ensures told { MakesHash len room.old room.new outcome.new }
    ensures answer { result ≡ outcome.new.answer }
{
    let told = outcome_of(make_sha_circuit(alloc, len, room));
    *outcome = told;
    told.answer
}

/// Puts a circuit's file of version 2 into a room.
#[unsafe(no_mangle)]
pub extern "C" fn lzk_upgrade(
    alloc: Global,
    circuit: &[u8],
    room: &mut [u8],
    outcome: &mut Outcome,
) -> u32
    ensures told { Upgrades circuit.now room.old room.new outcome.new }
    ensures answer { result ≡ outcome.new.answer }
{
    let told = outcome_of(upgrade(alloc, circuit, room));
    *outcome = told;
    told.answer
}

/// Writes what a circuit's file holds.
#[unsafe(no_mangle)]
pub extern "C" fn lzk_circuit_info(alloc: Global, circuit: &[u8], info: &mut Info) -> u32
    ensures told { Shows circuit.now info.new }
    ensures answer { result ≡ info.new.answer }
{
    let told = info_of(alloc, circuit);
    *info = told;
    told.answer
}

/// Evaluates a circuit, and writes the first check that is not 0.
#[unsafe(no_mangle)]
pub extern "C" fn lzk_eval(
    alloc: Global,
    circuit: &[u8],
    public: &[u8],
    private: &[u8],
    outcome: &mut Outcome,
) -> u32
    ensures told { Evaluates circuit.now public.now private.now outcome.new }
    ensures answer { result ≡ outcome.new.answer }
{
    let told = outcome_of(evaluate(alloc, circuit, public, private));
    *outcome = told;
    told.answer
}

/// Puts the lines of what a policy shows into a room.
#[unsafe(no_mangle)]
pub extern "C" fn lzk_policy_show(
    alloc: Global,
    policy: &[u8],
    room: &mut [u8],
    outcome: &mut Outcome,
) -> u32
    ensures told { policies.Shows policy.now room.old room.new outcome.new }
    ensures answer { result ≡ outcome.new.answer }
{
    let told = lzk_policy_calls::outcome_of(lzk_policy_calls::show(alloc, policy, room));
    *outcome = told;
    told.answer
}

/// Puts the file of a policy's circuit into a room.
#[unsafe(no_mangle)]
pub extern "C" fn lzk_policy_circuit(
    alloc: Global,
    policy: &[u8],
    room: &mut [u8],
    outcome: &mut Outcome,
) -> u32
    ensures told { policies.MakesCircuit policy.now room.old room.new outcome.new }
    ensures answer { result ≡ outcome.new.answer }
{
    let told = lzk_policy_calls::outcome_of(lzk_policy_calls::circuit(alloc, policy, room));
    *outcome = told;
    told.answer
}

/// Puts the SHA-256 digest of a record of a policy's size into a room.
#[unsafe(no_mangle)]
pub extern "C" fn lzk_policy_digest(
    alloc: Global,
    policy: &[u8],
    record: &[u8],
    room: &mut [u8],
    outcome: &mut Outcome,
) -> u32
    ensures told { policies.MakesDigest policy.now record.now room.old room.new outcome.new }
    ensures answer { result ≡ outcome.new.answer }
{
    let told = lzk_policy_calls::outcome_of(lzk_policy_calls::digest(alloc, policy, record, room));
    *outcome = told;
    told.answer
}

/// Puts the texts of the public and of the private numbers that show a record into a room.
#[unsafe(no_mangle)]
pub extern "C" fn lzk_policy_inputs(
    alloc: Global,
    given: &Given<'_>,
    room: &mut [u8],
    outcome: &mut Outcome,
) -> u32
    ensures told { let g = given.now in policies.MakesInputs g.policy.now g.record.now g.values.now g.secret.now
        g.path.now room.old room.new outcome.new }
    ensures answer { result ≡ outcome.new.answer }
{
    let told = lzk_policy_calls::texts_outcome(lzk_policy_calls::inputs(alloc, given, room));
    *outcome = told;
    told.answer
}

/// Puts the text of what is shown of a record into a room.
#[unsafe(no_mangle)]
pub extern "C" fn lzk_policy_shown(
    alloc: Global,
    given: &Given<'_>,
    room: &mut [u8],
    outcome: &mut Outcome,
) -> u32
    ensures told { let g = given.now in policies.TellsShown g.policy.now g.record.now g.values.now g.secret.now
        g.path.now room.old room.new outcome.new }
    ensures answer { result ≡ outcome.new.answer }
{
    let told = lzk_policy_calls::outcome_of(lzk_policy_calls::shown(alloc, given, room));
    *outcome = told;
    told.answer
}

/// Puts the text of the public numbers of what was shown into a room.
#[unsafe(no_mangle)]
pub extern "C" fn lzk_policy_public(
    alloc: Global,
    policy: &[u8],
    shown: &[u8],
    room: &mut [u8],
    outcome: &mut Outcome,
) -> u32
    ensures told { policies.MakesPublics policy.now shown.now room.old room.new outcome.new }
    ensures answer { result ≡ outcome.new.answer }
{
    let told = lzk_policy_calls::outcome_of(lzk_policy_calls::publics(alloc, policy, shown, room));
    *outcome = told;
    told.answer
}
