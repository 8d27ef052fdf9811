//! A policy line by line.

ghost use Rattle.std.specs.Prelude.{◌≡◌, ◌+◌, ◌^◌, ◌<◌, ◌≤◌, length, MatchResult, IfSome};
ghost use Rattle.lzk_policy.specs.Policies as policies;
ghost use Rattle.lzk_policy.specs.Policies.{partial_of, Refuses, Fails, IsPartial};

use crate::fault::{LineError, PolicyError, PolicyFault, PolicyKind};
use crate::line::Line;
use crate::policy::{Claim, FieldKind, Policy, RecordField, Show};
use crate::reading::read_line;
use crate::words::is_skipped;
use lzk_expr::Name;
use lzk_profile::MOST_LEVELS;
use std::alloc::Global;

/// What the lines so far say.
#[derive(Drop)]
pub(crate) struct Draft {
    /// How many bytes a record has.
    pub size: Option<u32>,
    /// The fields.
    pub fields: Vec<RecordField>,
    /// Whether the digest is shown, or a root above it.
    pub is_digest_shown: bool,
    /// How many levels the root stands above the digest: none, where the digest is shown.
    pub depth: u32,
    /// What else is shown.
    pub shows: Vec<Show>,
}

/// The most bytes of a record: those of two blocks of SHA-256.
const MOST_BYTES: u32 = 119;

/// The most bytes of a pseudonym's message: those of one block.
const MOST_MESSAGE: u32 = 55;

/// The most fields.
const MOST_FIELDS: usize = 32;

/// The most that is shown beside the digest.
const MOST_SHOWS: usize = 8;

/// The most bytes of a text, and of one whose bytes are one number.
const MOST_TEXT: u32 = 32;

const SHORT_TEXT: u32 = 7;

/// The most texts of a line.
const MOST_TEXTS: usize = 16;

/// The bytes of a pseudonym's label and of a service's tag.
const LABEL_AND_TAG: u32 = 20;

fn is_date(kind: FieldKind) -> bool
    ensures { result ≡ policies.is_date kind }
{
    match kind {
        FieldKind::Date => true,
        _ => false,
    }
}

fn is_text(kind: FieldKind) -> bool
    ensures { result ≡ policies.is_text kind }
{
    match kind {
        FieldKind::Text => true,
        _ => false,
    }
}

fn is_bytes(kind: FieldKind) -> bool
    ensures { result ≡ policies.is_bytes kind }
{
    match kind {
        FieldKind::Bytes => true,
        _ => false,
    }
}

fn is_sealed(kind: FieldKind) -> bool
    ensures { result ≡ policies.is_sealed kind }
{
    match kind {
        FieldKind::Sealed => true,
        _ => false,
    }
}

fn has_size(kind: FieldKind, size: u32) -> bool
    ensures { result ≡ policies.has_size kind size }
{
    match kind {
        FieldKind::Date => size == 4,
        FieldKind::Text => 1 <= size && size <= MOST_TEXT,
        FieldKind::Bytes => 1 <= size,
        FieldKind::Sealed => size == 32,
    }
}

fn lies_within(size: u32, field: &RecordField) -> bool
    ensures { result ≡ policies.lies_within size field.now }
{
    u64::from(field.place) + u64::from(field.size) <= u64::from(size)
}

fn are_bytes(bytes: &[u8]) -> bool
    ensures { result ≡ policies.are_bytes bytes.now }
{
    bytes.iter().all(|b| u32::from(*b) < 256)
}

// Whether this is a text of so many bytes.
fn is_text_of(size: u32, text: &Name) -> bool
    ensures { result ≡ policies.is_text_of size text.now }
{
    let bytes = text.text();
    bytes.len() == size as usize && are_bytes(bytes)
}

fn are_texts_of(size: u32, texts: &[Name]) -> bool
    ensures { result ≡ policies.are_texts_of size texts.now }
{
    texts.iter().all(|text| is_text_of(size, text))
}

fn is_short(field: &RecordField) -> bool
    ensures { result ≡ policies.is_short field.now }
{
    is_text(field.kind) && field.size <= SHORT_TEXT
}

fn is_long(field: &RecordField) -> bool
    ensures { result ≡ policies.is_long field.now }
{
    is_text(field.kind) && SHORT_TEXT < field.size
}

fn suits(field: &RecordField, claim: &Claim) -> bool
    ensures { result ≡ policies.suits field.now claim.now }
{
    match claim {
        Claim::AtMost(_) => is_date(field.kind),
        Claim::AtLeast(_) => is_date(field.kind),
        Claim::Equal(_) => is_date(field.kind) || is_short(field),
        Claim::Spelled(_) => is_long(field),
        Claim::OneOf(texts) => {
            is_text(field.kind)
                && texts.texts().len() <= MOST_TEXTS
                && are_texts_of(field.size, texts.texts())
        }
        Claim::Pseudonym(_) => is_bytes(field.kind) && field.size <= MOST_MESSAGE - LABEL_AND_TAG,
        Claim::Sealed(_) => is_sealed(field.kind) && field.size == 32,
    }
}

// What is shown of a sealed field: a pseudonym is that of the secret.
fn sealed_claim(claim: Claim) -> Claim
    ensures { result ≡ policies.sealed_claim claim }
{
    match claim {
        Claim::AtMost(value) => Claim::AtMost(value),
        Claim::AtLeast(value) => Claim::AtLeast(value),
        Claim::Equal(value) => Claim::Equal(value),
        Claim::Spelled(value) => Claim::Spelled(value),
        Claim::OneOf(texts) => Claim::OneOf(texts),
        Claim::Pseudonym(value) => Claim::Sealed(value),
        Claim::Sealed(value) => Claim::Sealed(value),
    }
}

// What is shown of a text, which is short or is not: one that is not is spelled.
fn text_claim(short: bool, claim: Claim) -> Claim
    ensures { result ≡ policies.text_claim short claim }
{
    if short {
        return claim;
    }
    match claim {
        Claim::AtMost(value) => Claim::AtMost(value),
        Claim::AtLeast(value) => Claim::AtLeast(value),
        Claim::Equal(value) => Claim::Spelled(value),
        Claim::Spelled(value) => Claim::Spelled(value),
        Claim::OneOf(texts) => Claim::OneOf(texts),
        Claim::Pseudonym(value) => Claim::Pseudonym(value),
        Claim::Sealed(value) => Claim::Sealed(value),
    }
}

// What is shown of a field of this kind and size.
fn claim_for(kind: FieldKind, size: u32, claim: Claim) -> Claim
    ensures { result ≡ policies.claim_for kind size claim }
{
    match kind {
        FieldKind::Date => claim,
        FieldKind::Text => text_claim(size <= SHORT_TEXT, claim),
        FieldKind::Bytes => claim,
        FieldKind::Sealed => sealed_claim(claim),
    }
}

// The number of the field with this name, counted from `k` on.
#[tactic(auto, unfolding(crate::specs::Policies::field_from))]
fn field_from(k: u32, name: &[u8], fields: &[RecordField]) -> Option<u32>
    requires { k + length fields.now < 2 ^ 32 }
    ensures value { result ≡ policies.field_from k name.now fields.now }
    ensures within { IfSome result (λ i. i < k + length fields.now) }
{
    let Some((field, rest)) = fields.split_first() else {
        return None;
    };
    if field.name.text() == name {
        return Some(k);
    }
    field_from(k + 1, name, rest)
}

impl Draft {
    /// A draft that says nothing.
    pub fn new(alloc: Global) -> Draft
        ensures { partial_of result ≡ policies.nothing }
    {
        Draft {
            size: None,
            fields: Vec::new(alloc),
            is_digest_shown: false,
            depth: 0,
            shows: Vec::new(alloc),
        }
    }

    #[tactic(auto, unfolding(crate::specs::Policies::with_size))]
    fn set_size(&mut self, size: u32) -> Result<(), LineError>
        ensures { MatchResult result
            (λ _. policies.with_size (partial_of self.old) size ≡ Ok (partial_of self.new))
            (λ e. Refuses e (policies.with_size (partial_of self.old) size)) }
    {
        if self.size.is_some() {
            return Err(LineError::Kind(PolicyKind::Order));
        }
        if 1 <= size && size <= MOST_BYTES {
            self.size = Some(size);
            return Ok(());
        }
        Err(LineError::Kind(PolicyKind::Size))
    }

    #[tactic(auto, unfolding(crate::specs::Policies::with_new_field))]
    fn push_field(&mut self, size: u32, field: RecordField) -> Result<(), LineError>
        requires { length self.old.fields.items ≤ 32 }
        ensures { MatchResult result
            (λ _. policies.with_new_field (partial_of self.old) size field ≡ Ok (partial_of self.new))
            (λ e. Refuses e (policies.with_new_field (partial_of self.old) size field)) }
    {
        if field_from(0, field.name.text(), &self.fields).is_some() {
            return Err(LineError::Kind(PolicyKind::Repeated));
        }
        if !has_size(field.kind, field.size) {
            return Err(LineError::Kind(PolicyKind::Size));
        }
        if !lies_within(size, &field) {
            return Err(LineError::Kind(PolicyKind::Place));
        }
        if self.fields.len() < MOST_FIELDS {
            return match self.fields.push(field) {
                Ok(()) => Ok(()),
                Err(_) => Err(LineError::OutOfMemory),
            };
        }
        Err(LineError::Kind(PolicyKind::Limit))
    }

    #[tactic(auto, unfolding(crate::specs::Policies::with_field, crate::specs::Policies::with_field_behind))]
    fn add_field(&mut self, field: RecordField) -> Result<(), LineError>
        requires { length self.old.fields.items ≤ 32 }
        ensures { MatchResult result
            (λ _. policies.with_field (partial_of self.old) field ≡ Ok (partial_of self.new))
            (λ e. Refuses e (policies.with_field (partial_of self.old) field)) }
    {
        if self.is_digest_shown {
            return Err(LineError::Kind(PolicyKind::Order));
        }
        let Some(size) = self.size else {
            return Err(LineError::Kind(PolicyKind::Order));
        };
        self.push_field(size, field)?;
        Ok(())
    }

    #[tactic(auto, unfolding(crate::specs::Policies::with_digest))]
    fn show_digest(&mut self) -> Result<(), LineError>
        ensures { MatchResult result
            (λ _. policies.with_digest (partial_of self.old) ≡ Ok (partial_of self.new))
            (λ e. Refuses e (policies.with_digest (partial_of self.old))) }
    {
        if self.size.is_some() && !self.is_digest_shown {
            self.is_digest_shown = true;
            self.depth = 0;
            return Ok(());
        }
        Err(LineError::Kind(PolicyKind::Order))
    }

    #[tactic(auto, unfolding(crate::specs::Policies::with_root))]
    fn show_root(&mut self, depth: u32) -> Result<(), LineError>
        ensures { MatchResult result
            (λ _. policies.with_root (partial_of self.old) depth ≡ Ok (partial_of self.new))
            (λ e. Refuses e (policies.with_root (partial_of self.old) depth)) }
    {
        if self.size.is_none() || self.is_digest_shown {
            return Err(LineError::Kind(PolicyKind::Order));
        }
        if 1 <= depth && depth <= MOST_LEVELS {
            self.is_digest_shown = true;
            self.depth = depth;
            return Ok(());
        }
        Err(LineError::Kind(PolicyKind::Limit))
    }

    #[tactic(auto, unfolding(crate::specs::Policies::with_number, crate::specs::Policies::with_claim))]
    fn push_show(&mut self, field: u32, claim: Claim) -> Result<(), LineError>
        requires { field < length self.old.fields.items }
        ensures { MatchResult result
            (λ _. policies.with_number (partial_of self.old) (Some field) claim ≡ Ok (partial_of self.new))
            (λ e. Refuses e (policies.with_number (partial_of self.old) (Some field) claim)) }
    {
        let shown = &self.fields[field as usize];
        let claim = claim_for(shown.kind, shown.size, claim);
        if !suits(&self.fields[field as usize], &claim) {
            return Err(LineError::Kind(PolicyKind::Claim));
        }
        if self.shows.len() < MOST_SHOWS {
            return match self.shows.push(Show { field, claim }) {
                Ok(()) => Ok(()),
                Err(_) => Err(LineError::OutOfMemory),
            };
        }
        Err(LineError::Kind(PolicyKind::Limit))
    }

    #[tactic(auto, unfolding(crate::specs::Policies::with_show, crate::specs::Policies::with_number))]
    fn add_show(&mut self, name: Name, claim: Claim) -> Result<(), LineError>
        requires { length self.old.fields.items ≤ 32 }
        ensures { MatchResult result
            (λ _. policies.with_show (partial_of self.old) name claim ≡ Ok (partial_of self.new))
            (λ e. Refuses e (policies.with_show (partial_of self.old) name claim)) }
    {
        if !self.is_digest_shown {
            return Err(LineError::Kind(PolicyKind::Order));
        }
        let Some(field) = field_from(0, name.text(), &self.fields) else {
            return Err(LineError::Kind(PolicyKind::Unknown));
        };
        self.push_show(field, claim)?;
        Ok(())
    }

    fn add_line(&mut self, line: Line) -> Result<(), LineError>
        requires { length self.old.fields.items ≤ 32 }
        ensures { MatchResult result
            (λ _. policies.with_said (partial_of self.old) line ≡ Ok (partial_of self.new))
            (λ e. Refuses e (policies.with_said (partial_of self.old) line)) }
    {
        match line {
            Line::Record(size) => self.set_size(size),
            Line::Field(field) => self.add_field(field),
            Line::Digest => self.show_digest(),
            Line::Under(depth) => self.show_root(depth),
            Line::Show(name, claim) => self.add_show(name, claim),
        }
    }

    /// Takes in the line with this number.
    #[tactic(auto, unfolding(crate::specs::Policies::with_bytes, crate::specs::Policies::with_line))]
    pub fn take_line(&mut self, alloc: Global, number: u32, line: &[u8]) -> Result<(), PolicyError>
        requires { IsPartial (partial_of self.old) }
        ensures { MatchResult result
            (λ _. policies.with_bytes number (partial_of self.old) line.now ≡ Ok (partial_of self.new))
            (λ e. Fails e (policies.with_bytes number (partial_of self.old) line.now)) }
    {
        if is_skipped(line) {
            return Ok(());
        }
        let Ok(read) = read_line(alloc, line) else {
            return Err(PolicyError::OutOfMemory);
        };
        let Some(said) = read else {
            return Err(PolicyError::Fault(PolicyFault {
                line: number,
                kind: PolicyKind::Syntax,
            }));
        };
        match self.add_line(said) {
            Ok(()) => Ok(()),
            Err(LineError::OutOfMemory) => Err(PolicyError::OutOfMemory),
            Err(LineError::Kind(kind)) => Err(PolicyError::Fault(PolicyFault {
                line: number,
                kind,
            })),
        }
    }

    /// The policy of a draft, whose lines end before the line with this number.
    #[tactic(auto, unfolding(crate::specs::Policies::whole_of))]
    pub fn finish(self, number: u32) -> Result<Policy, PolicyError>
        requires { IsPartial (partial_of self) }
        ensures { MatchResult result
            (λ policy. policies.whole number (partial_of self) ≡ Ok policy)
            (λ e. Fails e (policies.whole number (partial_of self))) }
    {
        let Some(size) = self.size else {
            return Err(PolicyError::Fault(PolicyFault {
                line: number,
                kind: PolicyKind::Missing,
            }));
        };
        if self.is_digest_shown && 1 <= self.shows.len() {
            return Ok(Policy::new(size, self.depth, self.fields, self.shows));
        }
        Err(PolicyError::Fault(PolicyFault {
            line: number,
            kind: PolicyKind::Missing,
        }))
    }
}
