//! The desk.

ghost use Rattle.std.specs.Prelude.{◌≡◌, ℕ, ◌≤◌, true, false, None, List, [], ◌∷◌, ◌++◌, length, IfOk, IsTrue, ◌↔◌};
ghost use Rattle.lzk_circbytes.specs.Files.{id_of};
ghost use Rattle.lzk_verify.specs.Kept as spec;
ghost use Rattle.lzk_verify.specs.Kept.{Stands};
ghost use Rattle.lzk_verify.specs.Verdict.{IsVerdict, IsOnlyVerdict, AcceptsExactly};

use crate::intake::Intake;
use crate::judging::judge;
use crate::room::Room;
use crate::verdict::Verdict;
use lzk_circbytes::id;
use lzk_circuit::Circuit;
use lzk_field::Field;
use lzk_layout::{Cursor, CursorStep, Plan};
use std::alloc::{AllocError, Global};
use std::marker::Model;

/// A verifier of proofs over one circuit, which is fed a proof's file in pieces.
///
/// All memory is taken by `new`, and a desk serves any number of proofs. It keeps the elements that a proof sends, the
/// column that is being read and up to three before it, since leaves are hashed four at a time, and digests, and no
/// list of the file's bytes.
///
/// ```text
/// desk.open(&session, &public);
/// while let Some(piece) = next_piece(file)? {
///     desk.feed(piece);
/// }
/// match desk.end() {
///     Verdict::Accepted => println!(rt; "accepted")?,
///     verdict => println!(rt; "{:?}", verdict)?,
/// }
/// ```
#[derive(Drop)]
pub struct Desk<'c, F: Field> {
    plan: Plan<'c, F>,
    id: [u8; 32],
    fed: bool,
    cursor: Cursor<F>,
    intake: Intake<F>,
    room: Room<F>,
}

impl<'c, F: Field> Model for Desk<'c, F> {
    ghost use Rattle.std.specs.Prelude.{◌≡◌};
    ghost use Rattle.lzk_verify.specs.Desk.{AreParts, held_of};
    ghost use Rattle.lzk_verify.specs.Kept.{DeskState};

    ghost Value = { DeskState F };

    ghost view = { λ d. record {
      circuit = d.plan.circuit.now;
      held = held_of F.ops F.coding d.plan.circuit.now
          d.plan.params d.fed d.cursor.place d.intake;
    } };

    ghost invariant = { λ d. AreParts F.ops F.coding d.plan.circuit.now d.plan.params d.id d.cursor d.intake d.room };
}

impl<'c, F: Field> Desk<'c, F> {
    /// A desk for proofs over this circuit.
    ///
    /// # Errors
    ///
    /// `AllocError` where the memory for a proof, what the tape gives, and the checks is not given.
    pub fn new(alloc: Global, circuit: &'c Circuit<F>) -> Result<Desk<'c, F>, AllocError>
        ensures circuit { IfOk result (λ desk. desk.circuit ≡ circuit.now) }
        ensures idle { IfOk result (λ desk. spec.is_fed desk ≡ false) }
    {
        let Ok(id) = id(alloc, circuit) else {
            return Err(AllocError);
        };
        Desk::with_id(alloc, circuit, id)
    }

    /// A desk for proofs over a circuit whose id is known, as SHA-256 of the file that it was read from.
    ///
    /// # Errors
    ///
    /// As `new`.
    pub fn with_id(
        alloc: Global,
        circuit: &'c Circuit<F>,
        id: [u8; 32],
    ) -> Result<Desk<'c, F>, AllocError>
        requires id { id ≡ id_of F.coding circuit.now }
        ensures circuit { IfOk result (λ desk. desk.circuit ≡ circuit.now) }
        ensures idle { IfOk result (λ desk. spec.is_fed desk ≡ false) }
    {
        let plan = Plan::of(circuit);
        let cursor = Cursor::new(&plan.params);
        let Ok(intake) = Intake::new(alloc, &plan) else {
            return Err(AllocError);
        };
        let Ok(room) = Room::new(alloc, &plan) else {
            return Err(AllocError);
        };
        Ok(Desk {
            plan,
            id,
            fed: false,
            cursor,
            intake,
            room,
        })
    }

    /// Gives the desk's memory back, as dropping it does. A caller who ends a desk so owes no proof of how its parts
    /// end.
    pub fn close(self) {
        drop(self);
    }

    /// Begins to read a file. What was fed before is given up.
    pub fn open(&mut self, session: &[u8], public: &[F])
        requires session { length session.now ≤ 64 }
        requires public { length public.now ≡ self.old.circuit.publics }
        ensures stands { Stands F.ops F.coding session.now public.now [] self.new }
        ensures fed { spec.is_fed self.new ≡ true }
        ensures circuit { self.new.circuit ≡ self.old.circuit }
    {
        self.cursor = Cursor::new(&self.plan.params);
        self.intake.begin(session, &self.id, public);
        self.fed = true;
    }

    // The file's next byte.
    fn push(&mut self, byte: u8)
        requires fed { spec.is_fed self.old ≡ true }
        ensures stands { let e = F.coding in
            (session : List ℕ) (public : List F) (bytes : List ℕ) → Stands F.ops e session public bytes self.old →
            Stands F.ops e session public (bytes ++ byte ∷ []) self.new }
        ensures fed { spec.is_fed self.new ≡ true }
        ensures circuit { self.new.circuit ≡ self.old.circuit }
    {
        if let CursorStep::Field(part, block, width) = self.cursor.push(byte) {
            self.intake
                .take(&self.plan, part, &block, width, &mut self.room);
        }
    }

    /// The next bytes of the file.
    pub fn feed(&mut self, piece: &[u8])
        requires fed { spec.is_fed self.old ≡ true }
        ensures stands { let e = F.coding in
            (session : List ℕ) (public : List F) (bytes : List ℕ) → Stands F.ops e session public bytes self.old →
            Stands F.ops e session public (bytes ++ piece.now) self.new }
        ensures fed { spec.is_fed self.new ≡ true }
        ensures circuit { self.new.circuit ≡ self.old.circuit }
    {
        for byte in piece {
            self.push(*byte);
        }
    }

    // The verdict on all bytes that were fed.
    fn judged(&mut self) -> Verdict<F>
        requires fed { spec.is_fed self.old ≡ true }
        ensures verdict { let e = F.coding in
            (session : List ℕ) (public : List F) (bytes : List ℕ) → Stands F.ops e session public bytes self.old →
            IsVerdict F.ops e self.old.circuit session public bytes result }
        ensures one { let e = F.coding in
            (session : List ℕ) (public : List F) (bytes : List ℕ) → Stands F.ops e session public bytes self.old →
            IsOnlyVerdict F.ops e self.old.circuit session public bytes result }
        ensures circuit { self.new.circuit ≡ self.old.circuit }
    {
        if let Err(fault) = self.cursor.finish() {
            return Verdict::Format(fault);
        }
        judge(&self.plan, &self.id, &mut self.intake, &mut self.room.nodes)
    }

    /// The verdict on all bytes that were fed.
    pub fn end(&mut self) -> Verdict<F>
        requires fed { spec.is_fed self.old ≡ true }
        ensures verdict { let e = F.coding in
            (session : List ℕ) (public : List F) (bytes : List ℕ) → Stands F.ops e session public bytes self.old →
            IsVerdict F.ops e self.old.circuit session public bytes result }
        ensures one { let e = F.coding in
            (session : List ℕ) (public : List F) (bytes : List ℕ) → Stands F.ops e session public bytes self.old →
            IsOnlyVerdict F.ops e self.old.circuit session public bytes result }
        ensures idle { spec.is_fed self.new ≡ false }
        ensures circuit { self.new.circuit ≡ self.old.circuit }
    {
        let verdict = self.judged();
        self.fed = false;
        verdict
    }

    /// Whether a file is being read.
    pub fn is_fed(&self) -> bool
        ensures { result ≡ spec.is_fed self.now }
    {
        self.fed
    }

    /// The verdict on these bytes: the first check that they fail, or that they fail none. What was fed before is given
    /// up. No memory is taken, and the desk may be used again after any answer.
    pub fn verify(&mut self, session: &[u8], public: &[F], bytes: &[u8]) -> Verdict<F>
        requires session { length session.now ≤ 64 }
        requires public { length public.now ≡ self.old.circuit.publics }
        ensures verdict { IsVerdict F.ops F.coding self.old.circuit session.now public.now bytes.now result }
        ensures one { IsOnlyVerdict F.ops F.coding self.old.circuit session.now public.now bytes.now result }
        ensures accepted { AcceptsExactly F.ops F.coding self.old.circuit session.now public.now bytes.now }
        ensures idle { spec.is_fed self.new ≡ false }
        ensures circuit { self.new.circuit ≡ self.old.circuit }
    {
        self.open(session, public);
        self.feed(bytes);
        self.end()
    }
}
