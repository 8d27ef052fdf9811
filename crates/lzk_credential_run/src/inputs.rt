//! The inputs of a record and values, and the files that they are put in.

ghost use Rattle.std.specs.Prelude.{◌≡◌, ℕ, List, ◌++◌, ◌≤◌, [], ◌∷◌, length, map, IfOk, OnOk, string_bytes};
ghost use Rattle.lzk_cmd_files.specs.Seen.{seen};
ghost use Rattle.lzk_cmd_files.specs.Walks.{Decodes, Gives, IsEnding, OnlyReads};
ghost use Rattle.lzk_credential_run.specs.Ends.{Settles};
ghost use Rattle.lzk_credential_run.specs.Given as given;
ghost use Rattle.lzk_credential_run.specs.Lines.{leaf_line, nodes_line};
ghost use Rattle.lzk_policy_texts.specs.Paths.{placed_of};

use crate::lines;
use lzk_cmd_files::{Ending, Halt, put_file, read_file};
use lzk_outside::Shelf;
use lzk_policy::Policy;
use lzk_policy_inputs::{
    InputsError, Place, PolicyInputs, RootedInputsError, Value, credential_inputs,
};
use lzk_policy_texts::{Path, ValuesError, ValuesFault, number_text, push_show, read_values};
use lzk_sha_path::PathError;
use std::alloc::{AllocError, Global};

/// The names of the two files that are put.
#[derive(Clone, Copy)]
pub(crate) struct Outputs<'a> {
    pub public: &'a str,
    pub private: &'a str,
}

/// The largest text of values that is read, in bytes.
const MOST_VALUES: usize = 65_536;

// Appends the line of what is shown at a place.
fn push_line_at(
    alloc: Global,
    text: &mut String,
    policy: &Policy,
    place: u32,
) -> Result<(), AllocError>
    ensures { OnOk result (string_bytes text.new ≡ string_bytes text.old ++ given.line_at policy.now place) }
{
    match policy.shows().get(place as usize) {
        Some(show) => push_show(alloc, text, policy.fields(), show),
        None => Ok(()),
    }
}

/// The front of the line that refuses a text without a value.
pub(crate) fn tell_no_value(alloc: Global, name: &str) -> Result<String, AllocError>
    ensures { IfOk result (λ s. string_bytes s ≡ given.no_value_front name.now) }
{
    format!(in alloc; "refused: {name} has no value: ")
}

// The line that refuses a text of values.
fn refuse_values(
    alloc: Global,
    name: &str,
    policy: &Policy,
    fault: ValuesFault,
) -> Result<String, AllocError>
    ensures { IfOk result (λ s. string_bytes s ≡ given.values_line name.now policy.now fault) }
{
    match fault {
        ValuesFault::Line(line, kind) => lines::refuse_line(alloc, name, line, kind),
        ValuesFault::Missing(place) => {
            let mut text = tell_no_value(alloc, name)?;
            push_line_at(alloc, &mut text, policy, place)?;
            Ok(text)
        }
    }
}

// The values that a text gives, beside a secret.
fn values_in(
    alloc: Global,
    name: &str,
    policy: &Policy,
    secret: &[u8],
    text: &[u8],
) -> Result<Vec<Value>, Halt>
    requires { length text.now ≤ 65536 }
    ensures { Decodes (given.value_files policy.now secret.now) (λ v. v.items) name.now text.now result }
{
    match read_values(alloc, policy, secret, text) {
        Ok(values) => Ok(values),
        Err(ValuesError::OutOfMemory) => Err(Halt::Memory),
        Err(ValuesError::Fault(fault)) => {
            let text = refuse_values(alloc, name, policy, fault)?;
            Err(Halt::End(Ending { status: 3, text }))
        }
    }
}

/// The values that a file gives, beside a secret.
pub(crate) fn read_given<S: Shelf>(
    alloc: Global,
    shelf: &mut S,
    name: &str,
    policy: &Policy,
    secret: &[u8],
) -> Result<Vec<Value>, Halt>
    ensures gives { Gives (given.value_files policy.now secret.now) (λ v. v.items) (seen S.Shelf shelf.old)
        (seen S.Shelf shelf.new) name.now result }
    ensures reads { OnlyReads (seen S.Shelf shelf.old) (seen S.Shelf shelf.new) }
{
    let text = read_file(alloc, shelf, name, MOST_VALUES)?;
    values_in(alloc, name, policy, secret, &text)
}

// The line of something shown that is not true.
fn refuse_false(alloc: Global, policy: &Policy, place: u32) -> Result<String, AllocError>
    ensures { IfOk result (λ s. string_bytes s ≡ given.false_line policy.now place) }
{
    let mut text = "not true: ".to_string(alloc)?;
    push_line_at(alloc, &mut text, policy, place)?;
    Ok(text)
}

fn refuse_unfit(alloc: Global) -> Result<String, AllocError>
    ensures { IfOk result (λ s. string_bytes s ≡ given.unfit_line) }
{
    "refused: record and values do not fit the policy\n".to_string(alloc)
}

// How a run ends whose record and values do not fit the policy.
fn unfit(alloc: Global) -> Halt
    ensures { given.IsToldEnd given.unfit_line result }
{
    match refuse_unfit(alloc) {
        Ok(text) => Halt::End(Ending { status: 3, text }),
        Err(_) => Halt::Memory,
    }
}

// How a run ends for which something shown is not true.
fn untrue(alloc: Global, policy: &Policy, place: u32) -> Halt
    ensures { given.IsToldEnd (given.false_line policy.now place) result }
{
    match refuse_false(alloc, policy, place) {
        Ok(text) => Halt::End(Ending { status: 3, text }),
        Err(_) => Halt::Memory,
    }
}

// How a run ends whose path has not as many nodes as the policy says.
fn short_path(alloc: Global, name: &str, nodes: usize, depth: u32) -> Halt
    ensures { given.IsToldEnd (nodes_line name.now nodes depth) result }
{
    match lines::refuse_count(alloc, name, nodes, "nodes", depth) {
        Ok(text) => Halt::End(Ending { status: 3, text }),
        Err(_) => Halt::Memory,
    }
}

// How a run ends whose leaf is none of its row.
fn stray_leaf(alloc: Global, name: &str) -> Halt
    ensures { given.IsToldEnd (leaf_line name.now) result }
{
    match lines::refuse_leaf(alloc, name) {
        Ok(text) => Halt::End(Ending { status: 3, text }),
        Err(_) => Halt::Memory,
    }
}

// How a run ends whose record and values have no inputs for this cause.
fn unmade(alloc: Global, policy: &Policy, error: InputsError) -> Halt
    ensures { given.IsUnmadeFor policy.now error result }
{
    match error {
        InputsError::OutOfMemory => Halt::Memory,
        InputsError::False(place) => untrue(alloc, policy, place),
        InputsError::Record => unfit(alloc),
        InputsError::Count => unfit(alloc),
        InputsError::Kind(_) => unfit(alloc),
    }
}

// How a run ends whose path has no inputs for this cause.
fn unclimbed(alloc: Global, name: &str, nodes: usize, depth: u32, error: PathError) -> Halt
    ensures { given.IsUnclimbedFor name.now nodes depth error result }
{
    match error {
        PathError::OutOfMemory => Halt::Memory,
        PathError::Depth => short_path(alloc, name, nodes, depth),
        PathError::Statement(_) => short_path(alloc, name, nodes, depth),
        PathError::Beside(_) => short_path(alloc, name, nodes, depth),
    }
}

// How a run ends that has no inputs for this cause.
fn halt_of(
    alloc: Global,
    policy: &Policy,
    name: &str,
    path: &Path,
    error: RootedInputsError,
) -> Halt
    ensures { given.IsHaltFor name.now policy.now (length path.now.nodes.items) error result }
{
    match error {
        RootedInputsError::OutOfMemory => Halt::Memory,
        RootedInputsError::Policy(cause) => unmade(alloc, policy, cause),
        RootedInputsError::Path(cause) => {
            unclimbed(alloc, name, path.nodes.len(), policy.depth(), cause)
        }
        RootedInputsError::Depth => short_path(alloc, name, path.nodes.len(), policy.depth()),
        RootedInputsError::Index => stray_leaf(alloc, name),
    }
}

/// The inputs of a record, values and a leaf.
pub(crate) fn inputs_of(
    alloc: Global,
    policy: &Policy,
    bytes: &[u8],
    values: &[Value],
    name: &str,
    path: &Path,
) -> Result<PolicyInputs, Halt>
    ensures { given.MakesInputs name.now policy.now bytes.now values.now (placed_of path.now) result }
{
    let place = Place {
        index: path.leaf,
        siblings: &path.nodes,
    };
    match credential_inputs(alloc, policy, bytes, values, &place) {
        Ok(inputs) => Ok(inputs),
        Err(error) => Err(halt_of(alloc, policy, name, path, error)),
    }
}

// Puts one file and then another.
fn put_both<S: Shelf>(
    alloc: Global,
    public_file: &str,
    first: &[u8],
    private_file: &str,
    second: &[u8],
    shelf: &mut S,
) -> Result<Ending, Halt>
    ensures { Settles (given.PutsBoth public_file.now first.now private_file.now second.now)
        (given.PutsOne public_file.now)
        (seen S.Shelf shelf.old) (seen S.Shelf shelf.new) result }
{
    let text = lines::tell_put(alloc)?;
    let done = put_file(alloc, shelf, public_file, first, String::new(alloc))?;
    if done.status != 0 {
        return Ok(done);
    }
    put_file(alloc, shelf, private_file, second, text)
}

/// Puts the public and the private inputs, a number a line.
pub(crate) fn put_inputs<S: Shelf>(
    alloc: Global,
    inputs: &PolicyInputs,
    outputs: &Outputs<'_>,
    shelf: &mut S,
) -> Result<Ending, Halt>
    ensures { Settles (given.PutsInputs outputs.now.public.now outputs.now.private.now inputs.now)
        (given.PutsOne outputs.now.public.now) (seen S.Shelf shelf.old) (seen S.Shelf shelf.new) result }
{
    let first = number_text(alloc, inputs.public())?;
    let second = number_text(alloc, inputs.private())?;
    put_both(
        alloc,
        outputs.public,
        first.as_bytes(),
        outputs.private,
        second.as_bytes(),
        shelf,
    )
}
