//! The lines that a run prints beside those of `zk`.

ghost use Rattle.std.specs.Prelude.{◌≡◌, ◌++◌, ◌≤◌, IfOk, OnOk, string_bytes};
ghost use Rattle.lzk_credential_run.specs.Lines as lines;

use lzk_policy::{PolicyFault, PolicyKind};
use lzk_policy_texts::{ValuesFault, ValuesKind};
use std::alloc::{AllocError, Global};

fn policy_kind_name(kind: PolicyKind) -> &'static str
    ensures { result.now ≡ lines.policy_kind_name kind }
{
    match kind {
        PolicyKind::Syntax => "Syntax",
        PolicyKind::Order => "Order",
        PolicyKind::Repeated => "Repeated",
        PolicyKind::Size => "Size",
        PolicyKind::Place => "Place",
        PolicyKind::Unknown => "Unknown",
        PolicyKind::Claim => "Claim",
        PolicyKind::Limit => "Limit",
        PolicyKind::Missing => "Missing",
    }
}

/// The line of a rule that a line of a file breaks.
pub(crate) fn tell_line(
    alloc: Global,
    name: &str,
    line: u32,
    kind: &str,
) -> Result<String, AllocError>
    ensures { IfOk result (λ s. string_bytes s ≡ lines.kind_line name.now line kind.now) }
{
    format!(in alloc; "refused: {name} at line {line}: {kind}\n")
}

/// The line that refuses a text that is no policy.
pub(crate) fn refuse_policy(
    alloc: Global,
    name: &str,
    fault: PolicyFault,
) -> Result<String, AllocError>
    ensures { IfOk result (λ s. string_bytes s ≡ lines.policy_line name.now fault) }
{
    tell_line(alloc, name, fault.line, policy_kind_name(fault.kind))
}

// The line that refuses a policy that has a sealed pseudonym where there is no secret, or none where there is one.
fn refuse_secret(alloc: Global, name: &str, given: bool) -> Result<String, AllocError>
    ensures { IfOk result (λ s. string_bytes s ≡ lines.secret_unfit_line given name.now) }
{
    if given {
        return format!(in alloc;
            "refused: {name} has no sealed pseudonym, and there is a secret\n"
        );
    }
    format!(in alloc; "refused: {name} has a sealed pseudonym, and there is no secret\n")
}

/// The line that refuses a policy, sealed or not, beside whose values other files should stand than so many.
pub(crate) fn refuse_kind(
    alloc: Global,
    name: &str,
    count: u32,
    sealed: bool,
) -> Result<String, AllocError>
    ensures { IfOk result (λ s. string_bytes s ≡ lines.kind_unfit_line count sealed name.now) }
{
    match (count, sealed) {
        (0, true) => refuse_secret(alloc, name, false),
        (0, false) => refuse_path_kind(alloc, name, false),
        (1, true) => refuse_path_kind(alloc, name, false),
        (1, false) => refuse_path_kind(alloc, name, true),
        (_, true) => refuse_path_kind(alloc, name, true),
        (_, false) => refuse_secret(alloc, name, true),
    }
}

// The line that refuses a policy that shows a root where there is no path, or a digest where there is one.
fn refuse_path_kind(alloc: Global, name: &str, given: bool) -> Result<String, AllocError>
    ensures { IfOk result (λ s. string_bytes s ≡ lines.path_unfit_line given name.now) }
{
    if given {
        return format!(in alloc; "refused: {name} shows a digest, and there is a path\n");
    }
    format!(in alloc; "refused: {name} shows a root, and there is no path\n")
}

fn values_kind_name(kind: ValuesKind) -> &'static str
    ensures { result.now ≡ lines.values_kind_name kind }
{
    match kind {
        ValuesKind::Syntax => "Syntax",
        ValuesKind::Unknown => "Unknown",
        ValuesKind::Repeated => "Repeated",
        ValuesKind::Value => "Value",
    }
}

/// The line of a rule that a line of values or of a path breaks.
pub(crate) fn refuse_line(
    alloc: Global,
    name: &str,
    line: u32,
    kind: ValuesKind,
) -> Result<String, AllocError>
    ensures { IfOk result (λ s. string_bytes s ≡ lines.kind_line name.now line (lines.values_kind_name kind)) }
{
    tell_line(alloc, name, line, values_kind_name(kind))
}

fn refuse_leafless(alloc: Global, name: &str) -> Result<String, AllocError>
    ensures { IfOk result (λ s. string_bytes s ≡ lines.leafless_line name.now) }
{
    format!(in alloc; "refused: {name} has no leaf\n")
}

/// The line that refuses a text that is no path.
pub(crate) fn refuse_path(
    alloc: Global,
    name: &str,
    fault: ValuesFault,
) -> Result<String, AllocError>
    ensures { IfOk result (λ s. string_bytes s ≡ lines.path_line name.now fault) }
{
    match fault {
        ValuesFault::Line(line, kind) => refuse_line(alloc, name, line, kind),
        ValuesFault::Missing(_) => refuse_leafless(alloc, name),
    }
}

/// The line that refuses a file that has so many nodes, or bytes, and not as many as the policy says.
pub(crate) fn refuse_count(
    alloc: Global,
    name: &str,
    count: usize,
    things: &str,
    wanted: u32,
) -> Result<String, AllocError>
    ensures { IfOk result (λ s. string_bytes s ≡ lines.count_line name.now count things.now wanted) }
{
    format!(in alloc; "refused: {name} has {count} {things} and not {wanted}\n")
}

/// The line that refuses a path whose leaf is none of its row.
pub(crate) fn refuse_leaf(alloc: Global, name: &str) -> Result<String, AllocError>
    ensures { IfOk result (λ s. string_bytes s ≡ lines.leaf_line name.now) }
{
    format!(in alloc; "refused: {name}: its leaf is none of its row\n")
}

/// The line that refuses a policy whose circuit would pass a limit.
pub(crate) fn refuse_limit(alloc: Global, name: &str) -> Result<String, AllocError>
    ensures { IfOk result (λ s. string_bytes s ≡ lines.limit_line name.now) }
{
    format!(in alloc; "refused: {name}: its circuit would pass a limit\n")
}

/// The line that tells that all is put.
pub(crate) fn tell_put(alloc: Global) -> Result<String, AllocError>
    ensures { IfOk result (λ s. string_bytes s ≡ lines.put_line) }
{
    "put\n".to_string(alloc)
}

fn tell_digits(alloc: Global, digits: &str) -> Result<String, AllocError>
    ensures { IfOk result (λ s. string_bytes s ≡ lines.plain_line digits.now) }
{
    format!(in alloc; "{digits}\n")
}

/// The line of a digest.
pub(crate) fn tell_digest(alloc: Global, digest: &[u8]) -> Result<String, AllocError>
    ensures { IfOk result (λ s. string_bytes s ≡ lines.digest_line digest.now) }
{
    let digits = hex::encode(alloc, digest)?;
    tell_digits(alloc, &digits)
}
