//! The inputs of what is shown, one thing after another.

ghost use Rattle.std.specs.Prelude.{◌≡◌, ℕ, ◌<◌, ◌≤◌, ◌+◌, ◌-◌, ◌^◌, [], ◌∷◌, ◌++◌, IsTrue, IfOk, OnOk, length, map};
ghost use Rattle.std.specs.List.{AllByRecursion};
ghost use Rattle.lzk_goldilocks.specs.Elements.{of_number};
ghost use Rattle.lzk_sha_circuit.specs.Digest.{digest_words};
ghost use Rattle.lzk_policy.specs.Policies.{IsField, IsShowOf, suits};
ghost use Rattle.lzk_policy_circuit.specs.Meaning as meaning;
ghost use Rattle.lzk_policy_circuit.specs.Layout as layout;
ghost use Rattle.lzk_policy_inputs.specs.Chosen.{numbers_of, pieces_of, joined};
ghost use Rattle.lzk_policy_inputs.specs.Refused.{IsRight, AtAll};
ghost use Rattle.lzk_policy_inputs.specs.Filled.{low_bits, order_bits, front_of, rest_of, own_of, hashed_of};

use crate::check::field_of;
use crate::value::{Held, Value, chosen_number, chosen_piece, own_number};
use lzk_field::Field;
use lzk_gadgets::spelling;
use lzk_goldilocks::Gold;
use lzk_policy::{Claim, Policy, RecordField, Show, number_at};
use lzk_sha_blocks::digest_inputs;
use std::alloc::{AllocError, Global};

/// The inputs so far.
#[derive(Drop)]
pub(crate) struct Draft {
    /// The public inputs.
    pub public: Vec<Gold>,
    /// The private inputs of the statement.
    pub stated: Vec<Gold>,
    /// The other private inputs of hashes.
    pub hashed: Vec<Gold>,
}

// Appends 32 bits of a number, the lowest first.
fn append_bits(alloc: Global, number: u64, bits: &mut Vec<Gold>) -> Result<(), AllocError>
    requires { number < 2 ^ 32 }
    ensures { OnOk result (bits.new.items ≡ bits.old.items ++ low_bits 32 number) }
{
    let word = spelling(alloc, number, 32)?;
    bits.extend_from_slice(&word)?;
    Ok(())
}

/// A service's tag as four numbers.
pub fn tag_numbers(tag: &[u8; 16]) -> [Gold; 4]
    ensures { result ≡ map of_number (meaning.tag_words tag.now) }
{
    [
        Gold::of_word(u128::from(number_at(tag, 0, 4))),
        Gold::of_word(u128::from(number_at(tag, 4, 4))),
        Gold::of_word(u128::from(number_at(tag, 8, 4))),
        Gold::of_word(u128::from(number_at(tag, 12, 4))),
    ]
}

// The message whose digest is the pseudonym for the service with a tag.
fn pseudonym_message(
    alloc: Global,
    bytes: &[u8],
    field: &RecordField,
    tag: &[u8; 16],
) -> Result<Vec<u8>, AllocError>
    requires { field.now.place + field.now.size ≤ length bytes.now }
    ensures message { IfOk result (λ m. m.items ≡ meaning.pseudonym_message bytes.now field.now tag.now) }
    ensures size { IfOk result (λ m. length m.items ≡ layout.message_size field.now) }
{
    let (start, size) = (field.place as usize, field.size as usize);
    let mut message = Vec::from_slice(alloc, b"LZP1")?;
    message.extend_from_slice(&bytes[start..start + size])?;
    message.extend_from_slice(tag)?;
    Ok(message)
}

// The message whose digest the bytes of a sealed field are.
fn seal_message(alloc: Global, secret: &[u8; 16]) -> Result<Vec<u8>, AllocError>
    ensures message { IfOk result (λ m. m.items ≡ meaning.seal_message secret.now) }
    ensures size { IfOk result (λ m. length m.items ≡ 20) }
{
    let mut message = Vec::from_slice(alloc, b"LZS1")?;
    message.extend_from_slice(secret)?;
    Ok(message)
}

// The message whose digest is the pseudonym of a secret for the service with a tag.
fn sealed_message(alloc: Global, secret: &[u8; 16], tag: &[u8; 16]) -> Result<Vec<u8>, AllocError>
    ensures message { IfOk result (λ m. m.items ≡ meaning.sealed_message secret.now tag.now) }
    ensures size { IfOk result (λ m. length m.items ≡ 36) }
{
    let mut message = Vec::from_slice(alloc, b"LZP1")?;
    message.extend_from_slice(secret)?;
    message.extend_from_slice(tag)?;
    Ok(message)
}

impl Draft {
    /// No inputs.
    pub fn new(alloc: Global) -> Draft
        ensures public { result.public.items ≡ [] }
        ensures stated { result.stated.items ≡ [] }
        ensures hashed { result.hashed.items ≡ [] }
    {
        Draft {
            public: Vec::new(alloc),
            stated: Vec::new(alloc),
            hashed: Vec::new(alloc),
        }
    }

    // Appends a number that is told.
    fn append_number(&mut self, number: u64) -> Result<(), AllocError>
        ensures public { OnOk result (self.new.public.items ≡ self.old.public.items ++ of_number number ∷ []) }
        ensures stated { self.new.stated.items ≡ self.old.stated.items }
        ensures hashed { self.new.hashed.items ≡ self.old.hashed.items }
    {
        self.public.push(Gold::of_word(u128::from(number)))?;
        Ok(())
    }

    // Appends the numbers of a long text that is told.
    fn append_pieces(&mut self, held: &Held<'_>, value: &Value) -> Result<(), AllocError>
        ensures public { OnOk result (self.new.public.items ≡ self.old.public.items
            ++ map of_number (pieces_of held.now.bytes.now held.now.field.now value.now)) }
        ensures stated { self.new.stated.items ≡ self.old.stated.items }
        ensures hashed { self.new.hashed.items ≡ self.old.hashed.items }
    {
        let pieces = [
            Gold::of_word(u128::from(chosen_piece(held, value, 0))),
            Gold::of_word(u128::from(chosen_piece(held, value, 1))),
            Gold::of_word(u128::from(chosen_piece(held, value, 2))),
            Gold::of_word(u128::from(chosen_piece(held, value, 3))),
            Gold::of_word(u128::from(chosen_piece(held, value, 4))),
        ];
        self.public.extend_from_slice(&pieces)
    }

    // Appends a date that is told, and the bits of a difference and of the date.
    fn append_order(
        &mut self,
        alloc: Global,
        difference: u64,
        number: u64,
    ) -> Result<(), AllocError>
        requires difference { difference < 2 ^ 32 }
        requires number { number < 2 ^ 32 }
        ensures public { OnOk result (self.new.public.items ≡ self.old.public.items ++ of_number number ∷ []) }
        ensures stated { OnOk result (self.new.stated.items ≡ self.old.stated.items ++ order_bits difference number) }
        ensures hashed { self.new.hashed.items ≡ self.old.hashed.items }
    {
        self.append_number(number)?;
        append_bits(alloc, difference, &mut self.stated)?;
        append_bits(alloc, number, &mut self.stated)?;
        Ok(())
    }

    /// Appends the words of a message's digest, the message's bits and the rest of its hash.
    pub fn append_hash(&mut self, alloc: Global, message: &[u8]) -> Result<(), AllocError>
        requires { length message.now ≤ 119 }
        ensures public { OnOk result
            (self.new.public.items ≡ self.old.public.items ++ map of_number (digest_words message.now)) }
        ensures stated { OnOk result
            (self.new.stated.items ≡ self.old.stated.items ++ front_of (length message.now) message.now) }
        ensures hashed { OnOk result
            (self.new.hashed.items ≡ self.old.hashed.items ++ rest_of (length message.now) message.now) }
    {
        let inputs = digest_inputs(alloc, message)?;
        let (front, rest) = inputs.private.split_at(8 * message.len());
        self.public.extend_from_slice(&inputs.public)?;
        self.stated.extend_from_slice(front)?;
        self.hashed.extend_from_slice(rest)
    }

    // Appends a service's tag and the pseudonym for it.
    fn append_pseudonym(
        &mut self,
        alloc: Global,
        bytes: &[u8],
        field: &RecordField,
        tag: &[u8; 16],
    ) -> Result<(), AllocError>
        requires within { field.now.place + field.now.size ≤ length bytes.now }
        requires few { layout.message_size field.now ≤ 55 }
        ensures public { OnOk result (self.new.public.items ≡ self.old.public.items
            ++ (map of_number (meaning.tag_words tag.now)
            ++ map of_number (digest_words (meaning.pseudonym_message bytes.now field.now tag.now)))) }
        ensures stated { OnOk result (self.new.stated.items ≡ self.old.stated.items
            ++ front_of (layout.message_size field.now) (meaning.pseudonym_message bytes.now field.now tag.now)) }
        ensures hashed { OnOk result (self.new.hashed.items ≡ self.old.hashed.items
            ++ rest_of (layout.message_size field.now) (meaning.pseudonym_message bytes.now field.now tag.now)) }
    {
        let message = pseudonym_message(alloc, bytes, field, tag)?;
        self.public.extend_from_slice(&tag_numbers(tag))?;
        self.append_hash(alloc, &message)?;
        Ok(())
    }

    // Appends the bits of a seal's message, the words of its digest and the rest of its hash.
    fn append_seal(&mut self, alloc: Global, secret: &[u8; 16]) -> Result<(), AllocError>
        ensures public { self.new.public.items ≡ self.old.public.items }
        ensures stated { OnOk result (self.new.stated.items ≡ self.old.stated.items
            ++ (front_of 20 (meaning.seal_message secret.now)
            ++ map of_number (digest_words (meaning.seal_message secret.now)))) }
        ensures hashed { OnOk result (self.new.hashed.items
            ≡ self.old.hashed.items ++ rest_of 20 (meaning.seal_message secret.now)) }
    {
        let message = seal_message(alloc, secret)?;
        let inputs = digest_inputs(alloc, &message)?;
        let (front, rest) = inputs.private.split_at(160);
        self.stated.extend_from_slice(front)?;
        self.stated.extend_from_slice(&inputs.public)?;
        self.hashed.extend_from_slice(rest)
    }

    // Appends a service's tag, the pseudonym of a secret for it, and the seal of the secret.
    fn append_sealed(
        &mut self,
        alloc: Global,
        tag: &[u8; 16],
        secret: &[u8; 16],
    ) -> Result<(), AllocError>
        ensures public { OnOk result (self.new.public.items ≡ self.old.public.items
            ++ (map of_number (meaning.tag_words tag.now)
            ++ map of_number (digest_words (meaning.sealed_message secret.now tag.now)))) }
        ensures stated { OnOk result (self.new.stated.items ≡ self.old.stated.items
            ++ ((front_of 20 (meaning.seal_message secret.now)
            ++ map of_number (digest_words (meaning.seal_message secret.now)))
            ++ front_of 36 (meaning.sealed_message secret.now tag.now))) }
        ensures hashed { OnOk result (self.new.hashed.items ≡ self.old.hashed.items
            ++ (rest_of 20 (meaning.seal_message secret.now)
            ++ rest_of 36 (meaning.sealed_message secret.now tag.now))) }
    {
        let message = sealed_message(alloc, secret, tag)?;
        self.append_seal(alloc, secret)?;
        self.public.extend_from_slice(&tag_numbers(tag))?;
        self.append_hash(alloc, &message)?;
        Ok(())
    }

    // Appends the inputs of what is shown of a field.
    fn append_claim(
        &mut self,
        alloc: Global,
        bytes: &[u8],
        field: &RecordField,
        claim: &Claim,
        value: &Value,
    ) -> Result<(), AllocError>
        requires few { length bytes.now ≤ 119 }
        requires field { IsField (length bytes.now) field.now }
        requires suits { IsTrue (suits field.now claim.now) }
        requires right { IsRight bytes.now field.now claim.now value.now }
        ensures public { OnOk result (self.new.public.items
            ≡ self.old.public.items ++ numbers_of bytes.now field.now claim.now value.now) }
        ensures stated { OnOk result (self.new.stated.items
            ≡ self.old.stated.items ++ own_of bytes.now field.now claim.now value.now) }
        ensures hashed { OnOk result (self.new.hashed.items
            ≡ self.old.hashed.items ++ hashed_of bytes.now field.now claim.now value.now) }
    {
        let held = Held { bytes, field };
        match claim {
            Claim::AtMost(_) => {
                let number = chosen_number(&held, value);
                self.append_order(alloc, number - own_number(&held), number)
            }
            Claim::AtLeast(_) => {
                let number = chosen_number(&held, value);
                self.append_order(alloc, own_number(&held) - number, number)
            }
            Claim::Equal(_) => self.append_number(chosen_number(&held, value)),
            Claim::Spelled(_) => self.append_pieces(&held, value),
            Claim::OneOf(_) => Ok(()),
            Claim::Pseudonym(_) => match value {
                Value::Tag(tag) => self.append_pseudonym(alloc, bytes, field, tag),
                _ => Ok(()),
            },
            Claim::Sealed(_) => match value {
                Value::Sealed(tag, secret) => self.append_sealed(alloc, tag, secret),
                _ => Ok(()),
            },
        }
    }

    /// Appends the inputs of all that is shown.
    pub fn append_shows(
        &mut self,
        alloc: Global,
        policy: &Policy,
        bytes: &[u8],
        shows: &[Show],
        values: &[Value],
    ) -> Result<(), AllocError>
        requires size { length bytes.now ≡ policy.now.size }
        requires shows { AllByRecursion (IsShowOf policy.now.fields) shows.now }
        requires right { AtAll (IsRight bytes.now) policy.now.fields shows.now values.now }
        ensures public { OnOk result (self.new.public.items
            ≡ self.old.public.items ++ joined (numbers_of bytes.now) policy.now.fields shows.now values.now) }
        ensures stated { OnOk result (self.new.stated.items
            ≡ self.old.stated.items ++ joined (own_of bytes.now) policy.now.fields shows.now values.now) }
        ensures hashed { OnOk result (self.new.hashed.items
            ≡ self.old.hashed.items ++ joined (hashed_of bytes.now) policy.now.fields shows.now values.now) }
    {
        let Some((show, others)) = shows.split_first() else {
            return Ok(());
        };
        let Some((value, behind)) = values.split_first() else {
            return Ok(());
        };
        // That a record has few bytes is learnt where the size is read.
        let _size = policy.size();
        let field = field_of(policy, show);
        self.append_claim(alloc, bytes, field, &show.claim, value)?;
        self.append_shows(alloc, policy, bytes, others, behind)?;
        Ok(())
    }
}
