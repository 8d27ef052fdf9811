//! Policies.

ghost use Rattle.std.specs.Prelude.{◌≡◌, ◌≤◌, length, slice_get, Some};
ghost use Rattle.lzk_policy.specs.Policies.{IsPolicy};

use lzk_expr::Name;
use std::marker::Model;

/// What the bytes of a field are.
#[derive(Clone, Copy, Debug, PartialEq, Eq)]
pub enum FieldKind {
    /// A day as the number YYYYMMDD, in four bytes, the first worth most.
    Date,
    /// One to 32 bytes that are told, or compared, as a whole.
    Text,
    /// Bytes that are never shown.
    Bytes,
    /// The SHA-256 digest of `LZS1` and a secret of 16 bytes, which the record's holder alone has.
    Sealed,
}

/// A field of a record.
#[derive(Drop)]
pub struct RecordField {
    /// How lines call it.
    pub name: Name,
    /// What its bytes are.
    pub kind: FieldKind,
    /// Where its first byte stands in the record.
    pub place: u32,
    /// How many bytes it has.
    pub size: u32,
}

/// The texts that a field may have, in the order of their line.
#[derive(Drop)]
pub struct TextList {
    texts: Vec<Name>,
}

impl Model for TextList {
    ghost use Rattle.std.specs.Prelude.{List, ℕ};

    ghost Value = { List (List ℕ) };

    ghost view = { λ t. t.texts.items };
}

impl TextList {
    /// These texts: a text is held in place, as a name is.
    pub fn new(texts: Vec<Name>) -> TextList
        ensures { result ≡ texts.items }
    {
        TextList { texts }
    }

    /// The texts.
    pub fn texts(&self) -> &[Name]
        ensures { result.now ≡ self.now }
    {
        &self.texts
    }
}

/// What is shown of a field. A name is that of a value, which is chosen when it is shown.
#[derive(Drop)]
pub enum Claim {
    /// The date is no later than the value.
    AtMost(Name),
    /// The date is no earlier than the value.
    AtLeast(Name),
    /// The date is the value, or the text of at most seven bytes.
    Equal(Name),
    /// The text of more than seven bytes is the value.
    Spelled(Name),
    /// The text is one of these.
    OneOf(TextList),
    /// Who holds the record is, for the service that the value stands for, this pseudonym.
    Pseudonym(Name),
    /// So is this one, of the secret that the field seals.
    Sealed(Name),
}

/// What is shown, and of which field, counted from 0.
#[derive(Drop)]
pub struct Show {
    pub field: u32,
    pub claim: Claim,
}

/// What a record is, and what is shown of it beside its digest or a root above it.
#[derive(Drop)]
pub struct Policy {
    size: u32,
    depth: u32,
    fields: Vec<RecordField>,
    shows: Vec<Show>,
}

impl Model for Policy {
    ghost use Rattle.lzk_policy.specs.Policies.{Contents, IsPolicy};

    ghost Value = { Contents };

    ghost view = { λ p.
        record { size = p.size; depth = p.depth; fields = p.fields.items; shows = p.shows.items } };

    ghost invariant = { λ p. IsPolicy
        (record { size = p.size; depth = p.depth; fields = p.fields.items; shows = p.shows.items }) };
}

impl Policy {
    /// The policy of these parts.
    pub fn new(size: u32, depth: u32, fields: Vec<RecordField>, shows: Vec<Show>) -> Policy
        requires { IsPolicy
            (record { size = size; depth = depth; fields = fields.items; shows = shows.items }) }
        ensures { result ≡ record { size = size; depth = depth; fields = fields.items; shows = shows.items } }
    {
        Policy {
            size,
            depth,
            fields,
            shows,
        }
    }

    /// How many levels the root that is shown stands above the record's digest: none, where the digest is shown.
    pub fn depth(&self) -> u32
        ensures { result ≡ self.now.depth }
    {
        self.depth
    }

    /// How many bytes a record has.
    pub fn size(&self) -> u32
        ensures size { result ≡ self.now.size }
        ensures policy { IsPolicy self.now }
    {
        self.size
    }

    /// The fields.
    pub fn fields(&self) -> &[RecordField]
        ensures { result.now ≡ self.now.fields }
    {
        &self.fields
    }

    /// What is shown beside the digest or the root.
    pub fn shows(&self) -> &[Show]
        ensures { result.now ≡ self.now.shows }
    {
        &self.shows
    }
}
