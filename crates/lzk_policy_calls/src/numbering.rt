//! The numbers that show a record, as two texts.

ghost use Rattle.std.specs.Prelude.{◌≡◌, ◌≤◌, IfErr, IfOk, length, string_bytes};
ghost use Rattle.lzk_policy_texts.specs.Paths.{placed_of};
ghost use Rattle.lzk_policy_calls.specs.Given.{AreValues, IsOtherSecret, IsPlace, LacksPath, LacksValues};
ghost use Rattle.lzk_policy_calls.specs.Given as spec;
ghost use Rattle.lzk_policy_calls.specs.Inputs.{
  AreGivenInputs,
  AreInputsFor,
  ArePlacedInputs,
  LacksGivenInputs,
  LacksInputsFor,
  LacksPlacedInputs,
  MakesInputs,
  AreTexts,
  TextsOf,
  LacksInputs,
};

use crate::digests::check_record;
use crate::reading::{MOST_TEXT, policy_of};
use crate::refusal::PolicyRefusal;
use crate::room::put;
use lzk_policy::Policy;
use lzk_policy_inputs::{
    InputsError, Place, PolicyInputs, RootedInputsError, Value, credential_inputs,
};
use lzk_policy_texts::{Path, ValuesError, is_sealed, number_text, parse_path, read_values};
use lzk_sha_path::PathError;
use std::alloc::{AllocError, Global};

/// How many bytes a secret has.
const SECRET: u32 = 16;

/// What is shown of a record, and what it takes.
#[repr(C)]
#[derive(Clone, Copy)]
pub struct Given<'a> {
    /// The text of a policy.
    pub policy: &'a [u8],
    /// The record.
    pub record: &'a [u8],
    /// The text of values.
    pub values: &'a [u8],
    /// The secret that a field of the record seals; empty where the policy shows no such thing.
    pub secret: &'a [u8],
    /// The text of the path from the record's digest to a root; empty where the policy shows the digest.
    pub path: &'a [u8],
}

/// How many bytes were put: of two texts, and of the first alone.
#[derive(Clone, Copy)]
pub struct TextsPut {
    /// The bytes of both.
    pub count: u64,
    /// The bytes of the first, the public numbers.
    pub public: u64,
}

/// Two texts, one after another.
#[derive(Drop)]
pub(crate) struct Texts {
    pub both: String,
    pub public: u64,
}

// How many bytes the secret has that a policy wants.
fn secret_size(policy: &Policy) -> u32
    ensures { result ≡ spec.secret_size policy.now }
{
    if is_sealed(policy) {
        return SECRET;
    }
    0
}

// Refuses a secret of another size than the policy wants.
fn check_secret(policy: &Policy, secret: &[u8]) -> Result<(), PolicyRefusal>
    ensures size { IfOk result (λ _. length secret.now ≡ spec.secret_size policy.now) }
    ensures other { IfErr result (IsOtherSecret policy.now secret.now) }
{
    let size = secret_size(policy);
    if secret.len() != size as usize {
        return Err(PolicyRefusal::NoSecret(size));
    }
    Ok(())
}

// The path of a text; of none, that of a leaf under no root.
fn path_of(alloc: Global, text: &[u8]) -> Result<Path, PolicyRefusal>
    requires { length text.now ≤ 65536 }
    ensures path { IfOk result (λ path. IsPlace text.now (placed_of path)) }
    ensures refused { IfErr result (LacksPath text.now) }
{
    if text.is_empty() {
        return Ok(Path {
            leaf: 0,
            nodes: Vec::new(alloc),
            secret: Vec::new(alloc),
        });
    }
    match parse_path(alloc, text) {
        Ok(path) => Ok(path),
        Err(ValuesError::Fault(fault)) => Err(PolicyRefusal::NoPath(fault)),
        Err(ValuesError::OutOfMemory) => Err(PolicyRefusal::OutOfMemory),
    }
}

// The values of a text beside a secret.
fn values_of(
    alloc: Global,
    policy: &Policy,
    secret: &[u8],
    text: &[u8],
) -> Result<Vec<Value>, PolicyRefusal>
    requires { length text.now ≤ 65536 }
    ensures values { IfOk result (λ v. AreValues policy.now secret.now text.now v.items) }
    ensures refused { IfErr result (LacksValues policy.now secret.now text.now) }
{
    match read_values(alloc, policy, secret, text) {
        Ok(values) => Ok(values),
        Err(ValuesError::Fault(fault)) => Err(PolicyRefusal::NoValues(fault)),
        Err(ValuesError::OutOfMemory) => Err(PolicyRefusal::OutOfMemory),
    }
}

// What is told where record and values have no inputs for this cause.
fn unmade(error: InputsError) -> PolicyRefusal
    ensures { result ≡ spec.unmade error }
{
    match error {
        InputsError::False(place) => PolicyRefusal::False(place),
        InputsError::OutOfMemory => PolicyRefusal::OutOfMemory,
        InputsError::Record => PolicyRefusal::Unfit,
        InputsError::Count => PolicyRefusal::Unfit,
        InputsError::Kind(_) => PolicyRefusal::Unfit,
    }
}

// What is told where a path has none for this cause.
fn unclimbed(depth: u32, error: PathError) -> PolicyRefusal
    ensures { result ≡ spec.unclimbed depth error }
{
    match error {
        PathError::OutOfMemory => PolicyRefusal::OutOfMemory,
        PathError::Depth => PolicyRefusal::NoNodes(depth),
        PathError::Statement(_) => PolicyRefusal::NoNodes(depth),
        PathError::Beside(_) => PolicyRefusal::NoNodes(depth),
    }
}

// What is told where there are none for this cause.
fn refusal_of(depth: u32, error: RootedInputsError) -> PolicyRefusal
    ensures { result ≡ spec.refusal_of depth error }
{
    match error {
        RootedInputsError::Policy(cause) => unmade(cause),
        RootedInputsError::Path(cause) => unclimbed(depth, cause),
        RootedInputsError::Depth => PolicyRefusal::NoNodes(depth),
        RootedInputsError::Index => PolicyRefusal::NoLeaf,
        RootedInputsError::OutOfMemory => PolicyRefusal::OutOfMemory,
    }
}

// The inputs of a record, values and a leaf.
fn placed_inputs(
    alloc: Global,
    policy: &Policy,
    record: &[u8],
    values: &[Value],
    path: &Path,
) -> Result<PolicyInputs, PolicyRefusal>
    ensures inputs { IfOk result (ArePlacedInputs policy.now record.now values.now (placed_of path.now)) }
    ensures refused { IfErr result (LacksPlacedInputs policy.now record.now values.now (placed_of path.now)) }
{
    let place = Place {
        index: path.leaf,
        siblings: &path.nodes,
    };
    match credential_inputs(alloc, policy, record, values, &place) {
        Ok(inputs) => Ok(inputs),
        Err(error) => Err(refusal_of(policy.depth(), error)),
    }
}

// The inputs of a record and a leaf, with the values of a text.
fn valued_inputs(
    alloc: Global,
    policy: &Policy,
    given: &Given<'_>,
    path: &Path,
) -> Result<PolicyInputs, PolicyRefusal>
    requires { length given.now.values.now ≤ 65536 }
    ensures inputs { let g = given.now in
        IfOk result (AreInputsFor g.record.now g.values.now g.secret.now policy.now (placed_of path.now)) }
    ensures refused { let g = given.now in
        IfErr result (LacksInputsFor g.record.now g.values.now g.secret.now policy.now (placed_of path.now)) }
{
    check_record(policy, given.record)?;
    let values = values_of(alloc, policy, given.secret, given.values)?;
    placed_inputs(alloc, policy, given.record, &values, path)
}

/// The inputs of what is given for a policy.
pub(crate) fn inputs_for(
    alloc: Global,
    policy: &Policy,
    given: &Given<'_>,
) -> Result<PolicyInputs, PolicyRefusal>
    requires values { length given.now.values.now ≤ 65536 }
    requires path { length given.now.path.now ≤ 65536 }
    ensures inputs { let g = given.now in
        IfOk result (AreGivenInputs g.record.now g.values.now g.secret.now policy.now g.path.now) }
    ensures refused { let g = given.now in
        IfErr result (LacksGivenInputs g.record.now g.values.now g.secret.now policy.now g.path.now) }
{
    check_secret(policy, given.secret)?;
    let path = path_of(alloc, given.path)?;
    valued_inputs(alloc, policy, given, &path)
}

// Two texts of the public and of the private numbers.
fn texts_of(alloc: Global, inputs: &PolicyInputs) -> Result<Texts, AllocError>
    ensures { IfOk result (λ t. TextsOf inputs.now (string_bytes t.both) t.public) }
{
    let mut both = number_text(alloc, inputs.public())?;
    let public = both.len() as u64;
    let private = number_text(alloc, inputs.private())?;
    both.push_str(&private)?;
    Ok(Texts { both, public })
}

// The two texts of what is given, of which none is too long, for the policy of a text.
fn short_texts(alloc: Global, given: &Given<'_>) -> Result<Texts, PolicyRefusal>
    requires values { length given.now.values.now ≤ 65536 }
    requires path { length given.now.path.now ≤ 65536 }
    ensures texts { let g = given.now in IfOk result
        (λ t. AreTexts g.policy.now g.record.now g.values.now g.secret.now g.path.now (string_bytes t.both) t.public) }
    ensures refused { let g = given.now in
        IfErr result (LacksInputs g.policy.now g.record.now g.values.now g.secret.now g.path.now) }
{
    let policy = policy_of(alloc, given.policy)?;
    let inputs = inputs_for(alloc, &policy, given)?;
    Ok(texts_of(alloc, &inputs)?)
}

/// Whether values or path have more bytes than a text may have.
pub(crate) fn is_long(given: &Given<'_>) -> bool
    ensures { result ≡ spec.is_long given.now.values.now given.now.path.now }
{
    given.values.len() > MOST_TEXT || given.path.len() > MOST_TEXT
}

// The two texts of what is given.
fn given_texts(alloc: Global, given: &Given<'_>) -> Result<Texts, PolicyRefusal>
    ensures texts { let g = given.now in IfOk result
        (λ t. AreTexts g.policy.now g.record.now g.values.now g.secret.now g.path.now (string_bytes t.both) t.public) }
    ensures refused { let g = given.now in
        IfErr result (LacksInputs g.policy.now g.record.now g.values.now g.secret.now g.path.now) }
{
    if is_long(given) {
        return Err(PolicyRefusal::TooLong);
    }
    short_texts(alloc, given)
}

/// The numbers that show a record, put into a room as two texts, the public numbers first. How many bytes they have.
pub fn inputs(alloc: Global, given: &Given<'_>, room: &mut [u8]) -> Result<TextsPut, PolicyRefusal>
    ensures { let g = given.now in
        MakesInputs g.policy.now g.record.now g.values.now g.secret.now g.path.now room.old room.new result }
{
    match given_texts(alloc, given) {
        Ok(texts) => match put(texts.both.as_bytes(), room) {
            Ok(count) => Ok(TextsPut {
                count,
                public: texts.public,
            }),
            Err(refusal) => Err(refusal),
        },
        Err(refusal) => Err(refusal),
    }
}
