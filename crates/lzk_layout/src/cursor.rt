//! A reader of proofs' files that is fed.

ghost use Rattle.std.specs.Prelude.{◌≡◌, ℕ, ◌≤◌, ◌^◌, ◌↔◌, ◌++◌, List, [], ◌∷◌, length};
ghost use Rattle.std.specs.Int.{w32, from_le_bytes};
ghost use Rattle.lzk_layout.specs.Sizes.{AreParams, AreBounded};
ghost use Rattle.lzk_layout.specs.Fields.{Shape, shape, wrong, magic, element, count, ProofFaultAt};
ghost use Rattle.lzk_layout.specs.Parts.{sort_of, part_width, HasPart};
ghost use Rattle.lzk_layout.specs.Fronts.{EndsField, EndsNone, IsFaulty, IsWholeField, IfField, OneFront, FrontIsSound};
ghost use Rattle.lzk_layout.specs.Fronts.{FaultStays, FrontGrows, FieldsStand, PartsStand, FileIsFront, FrontIsFile};
ghost use Rattle.lzk_layout.specs.Fronts.{FieldsAreParts};
ghost use Rattle.lzk_layout.specs.Cursors.{Pushed};
ghost use Rattle.lzk_layout.specs.Readings.{IsSound, digests_after, passed, Takes};
ghost use Rattle.lzk_layout.specs.declared.params.Params.{Params};
ghost use Rattle.lzk_layout.specs.declared.part.ProofPart.{ProofPart};
ghost use Rattle.lzk_layout.specs.declared.fault.ProofFault.{ProofFault};

use crate::fault::{ProofFault, ProofKind};
use crate::limits::MOST_DIGESTS;
use crate::params::Params;
use crate::part::{ProofPart, part_of, width_of};
use lzk_field::Field;
use lzk_profile::FILE_LETTER;
use std::marker::{Model, PhantomData};

/// What a byte ends.
#[derive(Clone, Copy, Debug, PartialEq, Eq)]
pub enum CursorStep {
    /// No field: more bytes of it are wanted.
    More,
    /// A field that passes its check: what it is, its bytes followed by zeros, and their number.
    Field(ProofPart, [u8; 32], usize),
    /// Bytes that no proof's file begins with: the first check that failed, by this byte or one before it.
    Fault(ProofFault),
}

// A file without a fault, as far as it was read: its whole fields, and the bytes of the next.
#[derive(Drop)]
struct Reading {
    params: Params,
    // How many fields are whole, and the number of digests once it is read.
    fields: u32,
    digests: Option<u32>,
    // The next field, and where it begins.
    part: Option<ProofPart>,
    offset: u64,
    // Its bytes, with zeros behind them.
    held: usize,
    block: [u8; 32],
}

/// A reader of the file of a proof over F that is pushed one byte at a time. It keeps lengths and counts, and the bytes
/// of one field at most.
///
/// ```text
/// let mut cursor = Cursor::<F>::new(&params);
/// for byte in bytes {
///     match cursor.push(*byte) {
///         CursorStep::More => {}
///         CursorStep::Field(part, block, n) => println!(rt; "{:?}: {:?}", part, &block[..n])?,
///         CursorStep::Fault(fault) => return Err(fault),
///     }
/// }
/// cursor.finish()?;
/// ```
#[derive(Drop)]
pub struct Cursor<F: Field> {
    fault: Option<ProofFault>,
    reading: Reading,
    field: PhantomData<F>,
}

impl<F: Field> Model for Cursor<F> {
    ghost use Rattle.std.specs.Prelude.{◌≡◌, None};
    ghost use Rattle.lzk_layout.specs.Cursors.{CursorState};

    ghost Value = { CursorState };

    ghost use Rattle.lzk_layout.specs.Fields.{shape};
    ghost use Rattle.lzk_layout.specs.Readings.{state_of, IsSound};

    ghost view = { λ c. state_of c.fault c.reading };

    ghost invariant = { λ c. c.fault ≡ None → IsSound (shape F.coding.bytes F.coding.size) c.reading };
}

#[tactic(auto, unfolding(crate::specs::Fields::wrong))]
fn wrong_magic(field: &[u8]) -> Option<ProofKind>
    requires { length field.now ≡ 4 }
    ensures { (s : Shape) → result ≡ wrong s magic field.now }
{
    match field {
        [b'L', FILE_LETTER, b'P', b'1'] => None,
        _ => Some(ProofKind::Magic),
    }
}

#[tactic(auto, unfolding(crate::specs::Fields::wrong))]
fn wrong_element<F: Field>(field: &[u8]) -> Option<ProofKind>
    requires { length field.now ≡ F.coding.bytes }
    ensures { result ≡ wrong (shape F.coding.bytes F.coding.size) element field.now }
{
    match F::of_le(field) {
        Some(_) => None,
        None => Some(ProofKind::Element),
    }
}

fn number_of_digests(field: &[u8]) -> u32
    requires { 4 ≤ length field.now }
    ensures { result ≡ from_le_bytes w32 field.now }
{
    u32::from_le_bytes([field[0], field[1], field[2], field[3]])
}

#[tactic(auto, unfolding(crate::specs::Fields::wrong))]
fn wrong_count(field: &[u8]) -> Option<ProofKind>
    requires { length field.now ≡ 4 }
    ensures { (s : Shape) → result ≡ wrong s count field.now }
{
    if number_of_digests(field) as usize > MOST_DIGESTS {
        return Some(ProofKind::PathLimit);
    }
    None
}

// The check that the field of a part fails, if it fails one.
#[tactic(auto, unfolding(crate::specs::Fields::wrong))]
fn wrong_field<F: Field>(part: ProofPart, field: &[u8]) -> Option<ProofKind>
    requires { length field.now ≡ part_width (shape F.coding.bytes F.coding.size) part }
    ensures { result ≡ wrong (shape F.coding.bytes F.coding.size) (sort_of part) field.now }
{
    match part {
        ProofPart::Magic => wrong_magic(field),
        ProofPart::Count => wrong_count(field),
        ProofPart::Id | ProofPart::Root | ProofPart::Nonce(_) | ProofPart::Digest(_) => None,
        ProofPart::Message(_)
        | ProofPart::Ldt(_)
        | ProofPart::Dot(_)
        | ProofPart::QuadHead(_)
        | ProofPart::QuadTail(_)
        | ProofPart::Column(_, _) => wrong_element::<F>(field),
    }
}

// The number of digests behind the field of a part.
fn digests_behind<F: Field>(digests: Option<u32>, part: ProofPart, field: &[u8]) -> Option<u32>
    requires { length field.now ≡ part_width (shape F.coding.bytes F.coding.size) part }
    ensures { result ≡ digests_after digests part field.now }
{
    match part {
        ProofPart::Count => Some(number_of_digests(field)),
        _ => digests,
    }
}

impl Reading {
    // Of no bytes.
    fn new(params: &Params) -> Reading
        requires { AreBounded params.now }
        ensures sound { (s : Shape) → IsSound s result }
        ensures params { result.params ≡ params.now }
        ensures fields { result.fields ≡ 0 }
        ensures digests { result.digests ≡ None }
        ensures held { result.held ≡ 0 }
    {
        Reading {
            params: *params,
            fields: 0,
            digests: None,
            part: Some(ProofPart::Magic),
            offset: 0,
            held: 0,
            block: [0; 32],
        }
    }

    fn fault(&self, kind: ProofKind) -> ProofFault
        ensures { result ≡ record { offset = self.now.offset; kind = kind } }
    {
        ProofFault {
            offset: self.offset,
            kind,
        }
    }

    // The field of this part, the block's first bytes, passed.
    fn pass<F: Field>(&mut self, part: ProofPart, block: &[u8; 32], width: usize)
        requires bounded { AreBounded self.old.params }
        requires width { width ≡ part_width (shape F.coding.bytes F.coding.size) part }
        requires few { width ≤ 32 }
        requires fields { self.old.fields ≤ 2 ^ 20 }
        requires offset { self.old.offset ≤ 2 ^ 40 }
        ensures { self.new ≡ passed self.old part block.now width }
    {
        self.digests = digests_behind::<F>(self.digests, part, &block[..width]);
        self.fields += 1;
        self.offset += width as u64;
        self.held = 0;
        self.block = [0; 32];
        self.part = part_of(&self.params, self.digests.unwrap_or(0), self.fields);
    }

    // One byte more.
    fn take<F: Field>(&mut self, byte: u8) -> CursorStep
        requires { IsSound (shape F.coding.bytes F.coding.size) self.old }
        ensures takes { Takes (shape F.coding.bytes F.coding.size) self.old byte self.new result }
        ensures params { self.new.params ≡ self.old.params }
    {
        let Some(part) = self.part else {
            return CursorStep::Fault(self.fault(ProofKind::Trailing));
        };
        self.block[self.held] = byte;
        let end = self.held + 1;
        let width = width_of::<F>(part);
        if end < width {
            self.held = end;
            return CursorStep::More;
        }
        if let Some(kind) = wrong_field::<F>(part, &self.block[..width]) {
            return CursorStep::Fault(self.fault(kind));
        }
        let block = self.block;
        self.pass::<F>(part, &block, width);
        CursorStep::Field(part, block, width)
    }
}

impl<F: Field> Cursor<F> {
    /// A cursor that was pushed no bytes.
    pub fn new(params: &Params) -> Cursor<F>
        requires params { AreParams F.ops params.now }
        ensures pushed { Pushed (shape F.coding.bytes F.coding.size) result params.now [] }
        ensures params { result.params ≡ params.now }
    {
        Cursor {
            fault: None,
            reading: Reading::new(params),
            field: PhantomData,
        }
    }

    /// The next byte, and what it ends. No memory is taken, and the time does not grow with the bytes before.
    pub fn push(&mut self, byte: u8) -> CursorStep
        ensures pushed { (p : Params) (b : List ℕ) → Pushed (shape F.coding.bytes F.coding.size) self.old p b →
            Pushed (shape F.coding.bytes F.coding.size) self.new p (b ++ byte ∷ []) }
        ensures field { (p : Params) (b : List ℕ) → Pushed (shape F.coding.bytes F.coding.size) self.old p b
            → (part : ProofPart) (block : List ℕ) (n : ℕ) → result ≡
            CursorStep.Field part block n ↔ EndsField (shape F.coding.bytes F.coding.size) p b byte part block n }
        ensures fault { (p : Params) (b : List ℕ) → Pushed (shape F.coding.bytes F.coding.size) self.old p b
            → (fault : ProofFault)
            → result ≡ CursorStep.Fault fault ↔ IsFaulty (shape F.coding.bytes F.coding.size) p (b ++ byte ∷ []) fault }
        ensures more { (p : Params) (b : List ℕ) → Pushed (shape F.coding.bytes F.coding.size) self.old p b
            → result ≡ CursorStep.More ↔ EndsNone (shape F.coding.bytes F.coding.size) p b byte }

        // Whatever was pushed before.
        ensures whole { IfField result
            (λ part block n. IsWholeField (shape F.coding.bytes F.coding.size) self.old.params part block n) }
        ensures params { self.new.params ≡ self.old.params }

        // What holds of the fronts of all files.
        ensures one_front { (p : Params) → OneFront (shape F.coding.bytes F.coding.size) p }
        ensures sound { (p : Params) → FrontIsSound (shape F.coding.bytes F.coding.size) p }
        ensures stays { (p : Params) → FaultStays (shape F.coding.bytes F.coding.size) p }
        ensures grows { (p : Params) → FrontGrows (shape F.coding.bytes F.coding.size) p }
        ensures fields { (p : Params) → FieldsStand (shape F.coding.bytes F.coding.size) p }
        ensures parts { (p : Params) → PartsStand p }
    {
        if let Some(fault) = self.fault {
            return CursorStep::Fault(fault);
        }
        let step = self.reading.take::<F>(byte);
        if let CursorStep::Fault(fault) = step {
            self.fault = Some(fault);
        }
        step
    }

    /// The fault of all bytes that were pushed, if they are no proof's file. More may be pushed afterwards.
    pub fn finish(&self) -> Result<(), ProofFault>
        ensures fault { (p : Params) (b : List ℕ) → Pushed (shape F.coding.bytes F.coding.size) self.now p b
            → (fault : ProofFault)
            → result ≡ Err fault ↔ ProofFaultAt (shape F.coding.bytes F.coding.size) p b fault.offset fault.kind }
        ensures whole { (p : Params) (b : List ℕ) → Pushed (shape F.coding.bytes F.coding.size) self.now p b
            → result ≡ Ok tt
            ↔ ((fault : ProofFault)
            → ¬ ProofFaultAt (shape F.coding.bytes F.coding.size) p b fault.offset fault.kind) }

        // A whole front is a proof's file, and the other way round.
        ensures file { (p : Params) → FileIsFront F.coding.bytes F.coding.size F.coding.number p }
        ensures front { (p : Params) → FrontIsFile F.coding.bytes F.coding.size F.coding.number p }
        ensures parts { (p : Params) → FieldsAreParts F.coding.bytes F.coding.number p }
    {
        if let Some(fault) = self.fault {
            return Err(fault);
        }
        match self.reading.part {
            Some(_) => Err(self.reading.fault(ProofKind::Truncated)),
            None => Ok(()),
        }
    }
}
