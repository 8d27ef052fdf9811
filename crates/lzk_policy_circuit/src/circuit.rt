//! A policy's circuit: the statement and its hashes, side by side.

ghost use Rattle.std.specs.Prelude.{◌≡◌, ℕ, ◌+◌, ◌*◌, ◌≤◌, ◌↔◌, List, ◌++◌, take, drop, length, IsTrue, IfOk, IfErr};
ghost use Rattle.std.specs.List.{AllByRecursion};
ghost use Rattle.lzk_circuit.specs.Checks.{IsSatisfied};
ghost use Rattle.lzk_circuit.specs.Wires.{inputs_of};
ghost use Rattle.lzk_goldilocks.specs.Elements.{ops, of_number, number};
ghost use Rattle.lzk_goldilocks.specs.declared.element.Gold.{Gold};
ghost use Rattle.lzk_sha_blocks.specs.Hashed.{AreHashing};
ghost use Rattle.lzk_sha_blocks.specs.Layout as blocks;
ghost use Rattle.lzk_policy.specs.Policies.{IsShowOf, suits};
ghost use Rattle.lzk_policy_circuit.specs.Layout as layout;
ghost use Rattle.lzk_policy_circuit.specs.Meaning as meaning;
ghost use Rattle.lzk_policy_circuit.specs.Meaning.{IsShown};
ghost use Rattle.lzk_policy_circuit.specs.Met.{AreStated, IsHashed, AreHashed, AreSealHashed, Satisfy};
ghost use Rattle.lzk_policy_circuit.specs.Causes.{IsPartCause, IsPolicyCause};

use crate::counts::{
    HASH_REST, field_of, own_of_claim, owns_of, padded, rest_of_claim, rest_of_hash, rests_of,
    value_count, values_of,
};
use crate::error::PolicyCircuitError;
use crate::places::{HashPlaces, hash_places, row};
use crate::shows::assert_shows;
use lzk_circuit::{Circuit, MOST_PRIVATES};
use lzk_circuit_beside::{Part, beside};
use lzk_gadgets::Statement;
use lzk_goldilocks::Gold;
use lzk_policy::{Claim, Policy, RecordField, Show};
use lzk_sha_blocks::{DigestError, digest_circuit};
use std::alloc::Global;

// The statement's circuit.
fn stated_circuit(alloc: Global, policy: &Policy) -> Result<Circuit<Gold>, PolicyCircuitError>
    ensures version { IfOk result (λ c. c.version ≡ 1) }
    ensures publics { IfOk result (λ c. c.publics ≡ meaning.public_count policy.now) }
    ensures privates { IfOk result (λ c. c.privates ≡ layout.stated_count policy.now) }
    ensures few { IfOk result (λ c. c.privates ≤ 5752) }
    ensures satisfied { (public private : List Gold) → length public ≡ meaning.public_count policy.now →
        length private ≡ layout.stated_count policy.now →
        IfOk result (λ c. IsSatisfied ops number c.layers (inputs_of ops public private) ↔
        AreStated private policy.now.fields policy.now.shows (drop 8 public) (drop (8 * policy.now.size) private)) }
    ensures cause { IfErr result IsPartCause }
{
    let size = policy.size();
    let (fields, shows) = (policy.fields(), policy.shows());
    let publics = 8 + values_of(shows);
    let stated = 8 * size + owns_of(fields, shows);
    let mut s = Statement::new(alloc, publics, stated)?;
    assert_shows(alloc, &mut s, size, fields, shows, 8, 8 * size)?;
    match s.finish() {
        Ok(circuit) => {
            circuit.valid_laws();
            Ok(circuit)
        }
        Err(e) => Err(PolicyCircuitError::Statement(e)),
    }
}

// The circuit of the hash of so many bytes.
fn hash_circuit(alloc: Global, len: u32) -> Result<Circuit<Gold>, PolicyCircuitError>
    requires { len ≤ 119 }
    ensures version { IfOk result (λ c. c.version ≡ 1) }
    ensures publics { IfOk result (λ c. c.publics ≡ 8) }
    ensures privates { IfOk result (λ c. c.privates ≡ blocks.private_count len) }
    ensures satisfied { (public private : List Gold) → length public ≡ 8 →
        length private ≡ blocks.private_count len →
        IfOk result (λ c. IsSatisfied ops number c.layers (inputs_of ops public private) ↔
        AreHashing ops of_number len public private) }
    ensures cause { IfErr result IsPartCause }
{
    match digest_circuit(alloc, len) {
        Ok(circuit) => Ok(circuit),
        Err(DigestError::Beside(e)) => Err(PolicyCircuitError::Beside(e)),
        Err(DigestError::OutOfMemory) => Err(PolicyCircuitError::OutOfMemory),
        Err(DigestError::TooLong) => unreachable!(),
    }
}

// A circuit beside the hash of a message.
fn with_hash(
    alloc: Global,
    circuit: &Circuit<Gold>,
    hash: &HashPlaces,
) -> Result<Circuit<Gold>, PolicyCircuitError>
    requires version { circuit.now.version ≡ 1 }
    requires publics { circuit.now.publics ≡ hash.now.publics }
    requires privates { circuit.now.privates ≤ hash.now.privates }
    ensures version { IfOk result (λ c. c.version ≡ 1) }
    ensures publics { IfOk result (λ c. c.publics ≡ hash.now.publics) }
    ensures privates { IfOk result (λ c. c.privates ≡ hash.now.privates) }
    ensures satisfied { (public private : List Gold) → length public ≡ hash.now.publics →
        length private ≡ hash.now.privates →
        IfOk result (λ c. IsSatisfied ops number c.layers (inputs_of ops public private) ↔
        (IsSatisfied ops number circuit.now.layers (inputs_of ops public (take circuit.now.privates private)) ×
        AreHashing ops of_number hash.now.len (take 8 (drop hash.now.words (public ++ private)))
        (take (8 * hash.now.len) (drop hash.now.bits private) ++
        take (layout.rest_of_hash hash.now.len) (drop hash.now.rest private)))) }
    ensures cause { IfErr result IsPartCause }
{
    let places = row(alloc, 1, hash.publics + circuit.privates())?;
    let first = Part {
        circuit,
        places: &places,
    };
    let own = hash_circuit(alloc, hash.len)?;
    let hash_inputs = hash_places(alloc, hash)?;
    let second = Part {
        circuit: &own,
        places: &hash_inputs,
    };
    match beside(alloc, hash.publics, hash.privates, &first, &second) {
        Ok(whole) => Ok(whole),
        Err(e) => Err(PolicyCircuitError::Beside(e)),
    }
}

// A circuit beside the hash of a seal, whose digest is private, and that of a pseudonym of its secret.
fn with_seal(
    alloc: Global,
    circuit: &Circuit<Gold>,
    words: u32,
    bits: u32,
    rest: u32,
) -> Result<Circuit<Gold>, PolicyCircuitError>
    requires version { circuit.now.version ≡ 1 }
    requires words { words + 12 ≤ circuit.now.publics }
    requires bits { bits + 456 ≤ circuit.now.privates }
    requires rest { rest + 12752 ≤ circuit.now.privates }
    ensures version { IfOk result (λ c. c.version ≡ 1) }
    ensures publics { IfOk result (λ c. c.publics ≡ circuit.now.publics) }
    ensures privates { IfOk result (λ c. c.privates ≡ circuit.now.privates) }
    ensures satisfied { (public private : List Gold) → length public ≡ circuit.now.publics →
        length private ≡ circuit.now.privates →
        IfOk result (λ c. IsSatisfied ops number c.layers (inputs_of ops public private) ↔
        (IsSatisfied ops number circuit.now.layers (inputs_of ops public private) ×
        AreSealHashed (drop words public) (drop bits private) (drop rest private))) }
    ensures cause { IfErr result IsPartCause }
{
    circuit.valid_laws();
    let (publics, privates) = (circuit.publics(), circuit.privates());
    let seal = HashPlaces {
        publics,
        privates,
        len: 20,
        words: publics + bits + 160,
        bits,
        rest,
    };
    let first = with_hash(alloc, circuit, &seal)?;
    let message = HashPlaces {
        publics,
        privates,
        len: 36,
        words: words + 4,
        bits: bits + 168,
        rest: rest + HASH_REST,
    };
    with_hash(alloc, &first, &message)
}

// A circuit beside the hashes of a pseudonym, where what is shown is one.
fn with_claim(
    alloc: Global,
    circuit: Circuit<Gold>,
    field: &RecordField,
    claim: &Claim,
    words: u32,
    bits: u32,
    rest: u32,
) -> Result<Circuit<Gold>, PolicyCircuitError>
    requires version { circuit.version ≡ 1 }
    requires suits { IsTrue (suits field.now claim.now) }
    requires words { words + meaning.value_count claim.now ≤ circuit.publics }
    requires bits { bits + layout.own_of_claim field.now claim.now ≤ circuit.privates }
    requires rest { rest + layout.rest_of_claim claim.now ≤ circuit.privates }
    ensures version { IfOk result (λ c. c.version ≡ 1) }
    ensures publics { IfOk result (λ c. c.publics ≡ circuit.publics) }
    ensures privates { IfOk result (λ c. c.privates ≡ circuit.privates) }
    ensures satisfied { (public private : List Gold) → length public ≡ circuit.publics →
        length private ≡ circuit.privates →
        IfOk result (λ c. IsSatisfied ops number c.layers (inputs_of ops public private) ↔
        (IsSatisfied ops number circuit.layers (inputs_of ops public private) ×
        IsHashed field.now claim.now (drop words public) (drop bits private) (drop rest private))) }
    ensures cause { IfErr result IsPartCause }
{
    match claim {
        Claim::Pseudonym(_) => {
            circuit.valid_laws();
            let hash = HashPlaces {
                publics: circuit.publics(),
                privates: circuit.privates(),
                len: 4 + field.size + 16,
                words: words + 4,
                bits,
                rest,
            };
            with_hash(alloc, &circuit, &hash)
        }
        Claim::Sealed(_) => with_seal(alloc, &circuit, words, bits, rest),
        _ => Ok(circuit),
    }
}

// A circuit beside the hashes of the pseudonyms among all that is shown.
fn with_pseudonyms(
    alloc: Global,
    circuit: Circuit<Gold>,
    fields: &[RecordField],
    shows: &[Show],
    words: u32,
    bits: u32,
    rest: u32,
) -> Result<Circuit<Gold>, PolicyCircuitError>
    requires version { circuit.version ≡ 1 }
    requires shows { AllByRecursion (IsShowOf fields.now) shows.now }
    requires words { words + meaning.values_of shows.now ≤ circuit.publics }
    requires bits { bits + layout.owns_of fields.now shows.now ≤ circuit.privates }
    requires rest { rest + layout.rests_of shows.now ≤ circuit.privates }
    ensures version { IfOk result (λ c. c.version ≡ 1) }
    ensures publics { IfOk result (λ c. c.publics ≡ circuit.publics) }
    ensures privates { IfOk result (λ c. c.privates ≡ circuit.privates) }
    ensures satisfied { (public private : List Gold) → length public ≡ circuit.publics →
        length private ≡ circuit.privates →
        IfOk result (λ c. IsSatisfied ops number c.layers (inputs_of ops public private) ↔
        (IsSatisfied ops number circuit.layers (inputs_of ops public private) ×
        AreHashed fields.now shows.now (drop words public) (drop bits private) (drop rest private))) }
    ensures cause { IfErr result IsPartCause }
{
    let Some((show, others)) = shows.split_first() else {
        return Ok(circuit);
    };
    circuit.valid_laws();
    let field = field_of(fields, show);
    let next = words + value_count(&show.claim);
    let behind = bits + own_of_claim(field, &show.claim);
    let last = rest + rest_of_claim(&show.claim);
    let more = with_claim(alloc, circuit, field, &show.claim, words, bits, rest)?;
    with_pseudonyms(alloc, more, fields, others, next, behind, last)
}

/// The circuit of a policy. Its public inputs are the words of the record's digest, and then the numbers that go with
/// what is shown; docs/POLICY.md has its private ones.
pub fn policy_circuit(alloc: Global, policy: &Policy) -> Result<Circuit<Gold>, PolicyCircuitError>
    ensures version { IfOk result (λ c. c.version ≡ 1) }
    ensures publics { IfOk result (λ c. c.publics ≡ meaning.public_count policy.now) }
    ensures privates { IfOk result (λ c. c.privates ≡ layout.private_count policy.now) }
    ensures shown { (public : List Gold) → length public ≡ meaning.public_count policy.now →
        IfOk result (λ c. ((private : List Gold) × (length private ≡ c.privates) ×
        IsSatisfied ops number c.layers (inputs_of ops public private)) ↔
        ((m : List ℕ) × IsShown policy.now m public)) }
    ensures satisfied { (public private : List Gold) → length public ≡ meaning.public_count policy.now →
        length private ≡ layout.private_count policy.now →
        IfOk result (λ c. IsSatisfied ops number c.layers (inputs_of ops public private) ↔
        Satisfy policy.now public private) }
    ensures cause { IfErr result (IsPolicyCause policy.now) }
{
    let size = policy.size();
    let (fields, shows) = (policy.fields(), policy.shows());
    let statement = stated_circuit(alloc, policy)?;
    statement.valid_laws();
    let stated = statement.privates();
    let rest = rest_of_hash(size);
    let privates = padded(stated + (rest + rests_of(shows)));
    if privates > MOST_PRIVATES {
        return Err(PolicyCircuitError::Privates);
    }
    let hash = HashPlaces {
        publics: statement.publics(),
        privates,
        len: size,
        words: 0,
        bits: 0,
        rest: stated,
    };
    let record = with_hash(alloc, &statement, &hash)?;
    with_pseudonyms(alloc, record, fields, shows, 8, 8 * size, stated + rest)
}
