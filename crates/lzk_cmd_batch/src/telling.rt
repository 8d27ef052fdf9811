//! The lines of a batch.

ghost use Rattle.std.specs.Prelude.{◌≡◌, ◌==◌, ◌++◌, ◌≤◌, IfOk, OnOk, cond, length, map, string_bytes};
ghost use Rattle.lzk_cmd_batch.specs.Batched.{job_line, batch_line, batch_end, list_kind_name};
ghost use Rattle.lzk_cmd_batch.specs.Gathered.{any_end};
ghost use Rattle.lzk_cmd_files.specs.Lines.{text_line};
ghost use Rattle.lzk_cmd_files.specs.Walks.{IsEnding};

use lzk_batch::{AnyVerdict, ListFault, ListKind};
use lzk_cmd_files::Ending;
use lzk_cmd_verify::ending_of;
use std::alloc::{AllocError, Global};

fn list_kind_name(kind: ListKind) -> &'static str
    ensures { result.now ≡ list_kind_name kind }
{
    match kind {
        ListKind::Syntax => "Syntax",
        ListKind::Limit => "Limit",
    }
}

/// The line that refuses a list.
pub(crate) fn refuse_list(alloc: Global, name: &str, fault: ListFault) -> Result<String, AllocError>
    ensures { IfOk result (λ s. string_bytes s ≡ text_line name.now fault.line (list_kind_name fault.kind)) }
{
    let line = fault.line;
    let kind = list_kind_name(fault.kind);
    format!(in alloc; "refused: {name} at line {line}: {kind}\n")
}

// Puts the line of job k behind a text.
fn push_job(text: &mut String, k: usize, line: &str) -> Result<(), AllocError>
    ensures { OnOk result (string_bytes text.new ≡ string_bytes text.old ++ job_line k line.now) }
{
    write!(text, "{k}: {line}")
}

// Puts the last line of a batch behind a text.
fn push_batch(text: &mut String, accepted: usize, rejected: usize) -> Result<(), AllocError>
    ensures { OnOk result (string_bytes text.new ≡ string_bytes text.old ++ batch_line accepted rejected) }
{
    write!(text, "batch: {accepted} accepted, {rejected} rejected\n")
}

// How `verify` ends with a verdict.
fn ending_of_any(alloc: Global, verdict: &AnyVerdict) -> Result<Ending, AllocError>
    ensures { IfOk result (IsEnding (any_end verdict.now)) }
{
    match verdict {
        AnyVerdict::Gold(v) => ending_of(alloc, v),
        AnyVerdict::Gf(v) => ending_of(alloc, v),
    }
}

// 1 where an end is that of a proof that is accepted.
fn accepted_by(ending: &Ending) -> usize
    ensures { result ≡ cond (ending.now.status == 0) 1 0 }
{
    if ending.status == 0 { 1 } else { 0 }
}

// The status of a batch.
fn status_of(rejected: usize) -> u8
    ensures { result ≡ cond (rejected == 0) 0 1 }
{
    if rejected == 0 { 0 } else { 1 }
}

/// How a batch ends with these verdicts.
pub(crate) fn tell_verdicts(alloc: Global, verdicts: &[AnyVerdict]) -> Result<Ending, AllocError>
    requires { length verdicts.now ≤ 256 }
    ensures { IfOk result (IsEnding (batch_end (map any_end verdicts.now))) }
{
    let mut text = String::new(alloc);
    let mut accepted = 0;
    for i in 0..verdicts.len() {
        let ending = ending_of_any(alloc, &verdicts[i])?;
        push_job(&mut text, i + 1, &ending.text)?;
        accepted += accepted_by(&ending);
    }
    let rejected = verdicts.len() - accepted;
    push_batch(&mut text, accepted, rejected)?;
    Ok(Ending {
        status: status_of(rejected),
        text,
    })
}
