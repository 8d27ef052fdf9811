//! What a holder does: the commands `inputs` and `prove`.

ghost use Rattle.std.specs.Prelude.{◌≡◌};
ghost use Rattle.lzk_cmd_files.specs.Seen.{seen};
ghost use Rattle.lzk_credential_run.specs.Proofs.{AreProvable};
ghost use Rattle.lzk_credential_run.specs.Ends.{Settles};
ghost use Rattle.lzk_policy_texts.specs.Seals.{is_sealed};
ghost use Rattle.lzk_credential_run.specs.Holding as held;
ghost use Rattle.lzk_credential_run.specs.Holding.{Keeps, purpose_of};
ghost use Rattle.lzk_credential_run.specs.Orders.{beside_of, file_count, holding_of};
ghost use Rattle.lzk_policy_texts.specs.Paths.{alone, placed_of, with_secret};

use crate::inputs::{Outputs, inputs_of, put_inputs, read_given};
use crate::orders::{Beside, Holding};
use crate::paths::read_path;
use crate::policies::read_kind;
use crate::proving::{Task, draw_proof};
use crate::records::{read_record, read_secret};
use lzk_cmd_files::{Ending, Halt, Means};
use lzk_field::Gate;
use lzk_outside::Shelf;
use lzk_policy::Policy;
use lzk_policy_inputs::{PolicyInputs, Value};
use lzk_policy_texts::{Path, is_sealed};
use lzk_work_threads::Hands;
use std::alloc::Global;

/// What inputs are made for: to be put in two files, or for a proof.
#[derive(Clone, Copy)]
pub(crate) enum Purpose<'a> {
    Put(Outputs<'a>),
    Prove(Task<'a>),
}

// How many files stand beside the values.
fn file_count(beside: &Beside<'_>) -> u32
    ensures { result ≡ file_count (beside_of beside.now) }
{
    match beside {
        Beside::Nothing => 0,
        Beside::One(_) => 1,
        Beside::Two(_, _) => 2,
    }
}

// Puts the inputs, or their proof.
fn serve<R: Hands, S: Shelf, G: Gate>(
    means: &Means<'_, R, G>,
    policy: &Policy,
    inputs: &PolicyInputs,
    purpose: &Purpose<'_>,
    shelf: &mut S,
) -> Result<Ending, Halt>
    requires { AreProvable policy.now inputs.now }
    ensures { Settles (held.Serves (purpose_of purpose.now) policy.now inputs.now) (Keeps (purpose_of purpose.now))
        (seen S.Shelf shelf.old) (seen S.Shelf shelf.new) result }
{
    match purpose {
        Purpose::Put(outputs) => put_inputs(means.alloc, inputs, outputs, shelf),
        Purpose::Prove(task) => draw_proof(means, policy, inputs, task, shelf),
    }
}

// A leaf that is shown: its path, the name of the path's file, if there is one, and what the inputs are made for.
#[derive(Clone, Copy)]
struct Showing<'a> {
    name: &'a str,
    path: &'a Path,
    purpose: Purpose<'a>,
}

// Shows a record, values and a leaf.
fn show_values<R: Hands, S: Shelf, G: Gate>(
    means: &Means<'_, R, G>,
    policy: &Policy,
    bytes: &[u8],
    values: &[Value],
    showing: &Showing<'_>,
    shelf: &mut S,
) -> Result<Ending, Halt>
    ensures { Settles (held.ShowsValues showing.now.name.now (placed_of showing.now.path.now)
        (purpose_of showing.now.purpose) policy.now bytes.now values.now) (Keeps (purpose_of showing.now.purpose))
        (seen S.Shelf shelf.old) (seen S.Shelf shelf.new) result }
{
    let inputs = inputs_of(
        means.alloc,
        policy,
        bytes,
        values,
        showing.name,
        showing.path,
    )?;
    serve(means, policy, &inputs, &showing.purpose, shelf)
}

// Shows a record and a leaf, with the values in a file.
fn show_record<R: Hands, S: Shelf, G: Gate>(
    means: &Means<'_, R, G>,
    policy: &Policy,
    bytes: &[u8],
    values: &str,
    showing: &Showing<'_>,
    shelf: &mut S,
) -> Result<Ending, Halt>
    ensures { Settles (held.ShowsRecord values.now showing.now.name.now (placed_of showing.now.path.now)
        (purpose_of showing.now.purpose) policy.now bytes.now) (Keeps (purpose_of showing.now.purpose))
        (seen S.Shelf shelf.old) (seen S.Shelf shelf.new) result }
{
    let read = read_given(means.alloc, shelf, values, policy, &showing.path.secret)?;
    show_values(means, policy, bytes, &read, showing, shelf)
}

// Shows a leaf, with record and values in files.
fn show_placed<R: Hands, S: Shelf, G: Gate>(
    means: &Means<'_, R, G>,
    policy: &Policy,
    holding: &Holding<'_>,
    name: &str,
    path: &Path,
    purpose: &Purpose<'_>,
    shelf: &mut S,
) -> Result<Ending, Halt>
    ensures { Settles (held.ShowsPlaced (holding_of holding.now) name.now (placed_of path.now) (purpose_of purpose.now)
        policy.now) (Keeps (purpose_of purpose.now)) (seen S.Shelf shelf.old) (seen S.Shelf shelf.new) result }
{
    let read = read_record(means.alloc, shelf, holding.record, policy)?;
    let showing = Showing {
        name,
        path,
        purpose: *purpose,
    };
    show_record(means, policy, &read, holding.values, &showing, shelf)
}

// A leaf with a secret.
fn beside(path: Path, secret: Vec<u8>) -> Path
    ensures { placed_of result ≡ with_secret secret.items (placed_of path) }
{
    Path {
        leaf: path.leaf,
        nodes: path.nodes,
        secret,
    }
}

// A leaf under no root, with a secret.
fn alone(alloc: Global, secret: Vec<u8>) -> Path
    ensures { placed_of result ≡ alone secret.items }
{
    Path {
        leaf: 0,
        nodes: Vec::new(alloc),
        secret,
    }
}

// Shows a path that is in a file, beside a secret.
fn show_path<R: Hands, S: Shelf, G: Gate>(
    means: &Means<'_, R, G>,
    policy: &Policy,
    holding: &Holding<'_>,
    name: &str,
    secret: Vec<u8>,
    purpose: &Purpose<'_>,
    shelf: &mut S,
) -> Result<Ending, Halt>
    ensures { Settles (held.ShowsPath (holding_of holding.now) name.now secret.items (purpose_of purpose.now)
        policy.now) (Keeps (purpose_of purpose.now)) (seen S.Shelf shelf.old) (seen S.Shelf shelf.new) result }
{
    let read = read_path(means.alloc, shelf, name)?;
    let path = beside(read, secret);
    show_placed(means, policy, holding, name, &path, purpose, shelf)
}

// Shows a secret that is in a file, and no path.
fn show_secret<R: Hands, S: Shelf, G: Gate>(
    means: &Means<'_, R, G>,
    policy: &Policy,
    holding: &Holding<'_>,
    secret: &str,
    purpose: &Purpose<'_>,
    shelf: &mut S,
) -> Result<Ending, Halt>
    ensures { Settles (held.ShowsSecret (holding_of holding.now) secret.now (purpose_of purpose.now) policy.now)
        (Keeps (purpose_of purpose.now)) (seen S.Shelf shelf.old) (seen S.Shelf shelf.new) result }
{
    let read = read_secret(means.alloc, shelf, secret)?;
    let path = alone(means.alloc, read);
    show_placed(means, policy, holding, "", &path, purpose, shelf)
}

// Shows a secret and a path, each in a file.
fn show_both<R: Hands, S: Shelf, G: Gate>(
    means: &Means<'_, R, G>,
    policy: &Policy,
    holding: &Holding<'_>,
    secret: &str,
    path: &str,
    purpose: &Purpose<'_>,
    shelf: &mut S,
) -> Result<Ending, Halt>
    ensures { Settles (held.ShowsBoth (holding_of holding.now) secret.now path.now (purpose_of purpose.now) policy.now)
        (Keeps (purpose_of purpose.now)) (seen S.Shelf shelf.old) (seen S.Shelf shelf.new) result }
{
    let read = read_secret(means.alloc, shelf, secret)?;
    show_path(means, policy, holding, path, read, purpose, shelf)
}

// Shows the one of them that the policy wants.
fn show_other<R: Hands, S: Shelf, G: Gate>(
    means: &Means<'_, R, G>,
    policy: &Policy,
    holding: &Holding<'_>,
    other: &str,
    purpose: &Purpose<'_>,
    shelf: &mut S,
) -> Result<Ending, Halt>
    ensures { Settles (held.ShowsOther (is_sealed policy.now) (holding_of holding.now) other.now
        (purpose_of purpose.now) policy.now) (Keeps (purpose_of purpose.now))
        (seen S.Shelf shelf.old) (seen S.Shelf shelf.new) result }
{
    if is_sealed(policy) {
        return show_secret(means, policy, holding, other, purpose, shelf);
    }
    show_path(
        means,
        policy,
        holding,
        other,
        Vec::new(means.alloc),
        purpose,
        shelf,
    )
}

// Shows a leaf under no root, and no secret.
fn show_alone<R: Hands, S: Shelf, G: Gate>(
    means: &Means<'_, R, G>,
    policy: &Policy,
    holding: &Holding<'_>,
    purpose: &Purpose<'_>,
    shelf: &mut S,
) -> Result<Ending, Halt>
    ensures { Settles (held.ShowsAlone (holding_of holding.now) (purpose_of purpose.now) policy.now)
        (Keeps (purpose_of purpose.now)) (seen S.Shelf shelf.old) (seen S.Shelf shelf.new) result }
{
    let path = alone(means.alloc, Vec::new(means.alloc));
    show_placed(means, policy, holding, "", &path, purpose, shelf)
}

// Shows what the policy wants beside the values.
fn show_beside<R: Hands, S: Shelf, G: Gate>(
    means: &Means<'_, R, G>,
    policy: &Policy,
    holding: &Holding<'_>,
    purpose: &Purpose<'_>,
    shelf: &mut S,
) -> Result<Ending, Halt>
    ensures { Settles (held.ShowsBeside (holding_of holding.now) (purpose_of purpose.now) policy.now)
        (Keeps (purpose_of purpose.now)) (seen S.Shelf shelf.old) (seen S.Shelf shelf.new) result }
{
    match holding.beside {
        Beside::Nothing => show_alone(means, policy, holding, purpose, shelf),
        Beside::One(other) => show_other(means, policy, holding, other, purpose, shelf),
        Beside::Two(secret, path) => show_both(
            means, policy, holding, secret, path, purpose, shelf,
        ),
    }
}

/// Makes the inputs of a policy's circuit for a holder's record and values, and puts them or their proof; or names the
/// first thing shown that is not true.
pub(crate) fn hold<R: Hands, S: Shelf, G: Gate>(
    means: &Means<'_, R, G>,
    policy: &str,
    holding: &Holding<'_>,
    purpose: &Purpose<'_>,
    shelf: &mut S,
) -> Result<Ending, Halt>
    ensures { Settles (held.HoldingRun policy.now (holding_of holding.now) (purpose_of purpose.now))
        (Keeps (purpose_of purpose.now)) (seen S.Shelf shelf.old) (seen S.Shelf shelf.new) result }
{
    let count = file_count(&holding.beside);
    let read = read_kind(means.alloc, shelf, policy, count)?;
    show_beside(means, &read, holding, purpose, shelf)
}
