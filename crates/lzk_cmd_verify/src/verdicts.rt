//! The lines of verdicts.

ghost use Rattle.std.specs.Prelude.{◌≡◌, IfOk, string_bytes};
ghost use Rattle.lzk_cmd_files.specs.Lines as lines;
ghost use Rattle.lzk_cmd_verify.specs.Verified.{verdict_status, verdict_line, verdict_end};
ghost use Rattle.lzk_cmd_files.specs.Walks.{IsEnding};

use lzk_cmd_files::Ending;
use lzk_field::Field;
use lzk_layout::{ProofFault, ProofKind};
use lzk_verify::Verdict;
use std::alloc::{AllocError, Global};

fn proof_kind_name(kind: ProofKind) -> &'static str
    ensures { result.now ≡ lines.proof_kind_name kind }
{
    match kind {
        ProofKind::Truncated => "Truncated",
        ProofKind::Magic => "Magic",
        ProofKind::Element => "Element",
        ProofKind::PathLimit => "PathLimit",
        ProofKind::Trailing => "Trailing",
    }
}

fn tell_format(alloc: Global, fault: ProofFault) -> Result<String, AllocError>
    ensures { IfOk result (λ s. string_bytes s ≡ lines.format_line fault.offset (lines.proof_kind_name fault.kind)) }
{
    let offset = fault.offset;
    let kind = proof_kind_name(fault.kind);
    format!(in alloc; "rejected: format at byte {offset}: {kind}\n")
}

fn tell_digest(alloc: Global, name: &str, digest: &[u8]) -> Result<String, AllocError>
    ensures { IfOk result (λ s. string_bytes s ≡ lines.digest_line name.now digest.now) }
{
    let digits = hex::encode(alloc, digest)?;
    format!(in alloc; "rejected: {name} {digits}\n")
}

fn tell_path_count(alloc: Global, found: u32, needed: u32) -> Result<String, AllocError>
    ensures { IfOk result (λ s. string_bytes s ≡ lines.path_count_line found needed) }
{
    format!(in alloc; "rejected: path count {found}, needed {needed}\n")
}

fn tell_linear_sum(alloc: Global, found: u128, wanted: u128) -> Result<String, AllocError>
    ensures { IfOk result (λ s. string_bytes s ≡ lines.linear_sum_line found wanted) }
{
    format!(in alloc; "rejected: linear sum {found}, wanted {wanted}\n")
}

fn tell_column(alloc: Global, name: &str, column: u32) -> Result<String, AllocError>
    ensures { IfOk result (λ s. string_bytes s ≡ lines.column_line name.now column) }
{
    format!(in alloc; "rejected: {name} at column {column}\n")
}

fn tell_verdict<F: Field>(alloc: Global, verdict: &Verdict<F>) -> Result<String, AllocError>
    ensures { IfOk result (λ s. string_bytes s ≡ verdict_line F.coding.number verdict.now) }
{
    match verdict {
        Verdict::Accepted => "accepted\n".to_string(alloc),
        Verdict::Format(fault) => tell_format(alloc, *fault),
        Verdict::CircuitId { found } => tell_digest(alloc, "circuit id", found),
        Verdict::PathCount { found, needed } => tell_path_count(alloc, *found, *needed),
        Verdict::Root { found } => tell_digest(alloc, "root", found),
        Verdict::LowDegree { column } => tell_column(alloc, "low degree", *column),
        Verdict::LinearSum { found, wanted } => tell_linear_sum(
            alloc,
            found.number(),
            wanted.number(),
        ),
        Verdict::Linear { column } => tell_column(alloc, "linear", *column),
        Verdict::Quadratic { column } => tell_column(alloc, "quadratic", *column),
    }
}

fn status_of<F: Field>(verdict: &Verdict<F>) -> u8
    ensures { result ≡ verdict_status verdict.now }
{
    match verdict {
        Verdict::Accepted => 0,
        _ => 1,
    }
}

/// How a run ends that tells a verdict.
pub fn ending_of<F: Field>(alloc: Global, verdict: &Verdict<F>) -> Result<Ending, AllocError>
    ensures { IfOk result (IsEnding (verdict_end F.coding.number verdict.now)) }
{
    let text = tell_verdict(alloc, verdict)?;
    Ok(Ending {
        status: status_of(verdict),
        text,
    })
}
