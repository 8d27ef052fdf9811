//! What is kept of a proof that is read field by field.

ghost use Rattle.lzk_profile.specs.Profile.{opened_count, most_digests};
ghost use Rattle.std.specs.Prelude.{◌≡◌, ℕ, ◌+◌, ◌<◌, ◌≤◌, true, false, None, List, [], length, take, slice_set, slice_index, IfOk};
ghost use Rattle.lzk_field.specs.Bytes.{number_from};
ghost use Rattle.lzk_merkle.specs.Leaf.{leaf_of};
ghost use Rattle.lzk_circuit.specs.Valid.{Wiring};
ghost use Rattle.lzk_layout.specs.Sizes.{AreBounded};
ghost use Rattle.lzk_layout.specs.Fields.{shape};
ghost use Rattle.lzk_layout.specs.Fronts.{IsWholeField};
ghost use Rattle.lzk_layout.specs.Parts.{number_of};
ghost use Rattle.lzk_layout.specs.declared.params.Params.{Params};
ghost use Rattle.lzk_sumcheck.specs.Script as sumcheck;
ghost use Rattle.lzk_accept.specs.Kept.{AreFormsOf};
ghost use Rattle.lzk_circbytes.specs.Files.{id_of};
ghost use Rattle.lzk_verify.specs.Columns.{IsLowDegreeIn, IsLinearIn, IsQuadraticIn, values_of};
ghost use Rattle.lzk_verify.specs.Desk as spec;
ghost use Rattle.lzk_verify.specs.Desk.{AreRooms, AreLists, AreReady, AreWeightedRows, IsSound, IsNoted, IsKeptNext, kept_of, weighted_answers};
ghost use Rattle.lzk_verify.specs.Kept as fields;
ghost use Rattle.lzk_verify.specs.Kept.{ldt_in, dot_in, head_in, tail_in, place_of, whole_transcript, IsKept};

use crate::column::Column;
use crate::drawing::Drawn;
use crate::leaves::Leaves;
use crate::room::{Room, zero_digests};
use crate::sent::{Sent, place_of, sent_count};
use lzk_circuit::zeros;
use lzk_field::Field;
use lzk_layout::{BLINDS, MOST_DIGESTS, Params, Plan, ProofPart};
use lzk_sumcheck::public_tape;
use lzk_transcript::Tape;
use std::alloc::{AllocError, Global};

/// The least of the opened columns at which each check of the answers fails.
#[derive(Clone, Copy)]
pub(crate) struct Failing {
    pub(crate) low_degree: Option<u32>,
    pub(crate) linear: Option<u32>,
    pub(crate) quadratic: Option<u32>,
}

/// What is kept of a proof.
#[derive(Drop)]
pub(crate) struct Intake<F: Field> {
    pub(crate) public: Vec<F>,
    // Until the columns are drawn, with the session, the circuit's id and the public inputs written.
    tape: Tape,
    is_drawn: bool,
    pub(crate) id: [u8; 32],
    pub(crate) root: [u8; 32],
    // What the sumchecks send and the answers, in the order of the file.
    pub(crate) sent: Vec<F>,
    pub(crate) drawn: Drawn<F>,
    // The sum of the linear constraints' right sides.
    pub(crate) wanted: F,
    // The column that is being read.
    nonce: [u8; 32],
    column: Vec<F>,
    pub(crate) leaves: Leaves<F>,
    pub(crate) failing: Failing,
    // How many digests are read.
    pub(crate) count: u32,
    pub(crate) digests: Vec<[u8; 32]>,
}

// This column, where the check fails there and failed at none before it.
fn least(kept: Option<u32>, is_right: bool, column: u32) -> Option<u32>
    ensures { result ≡ spec.least kept is_right column }
{
    if is_right || kept.is_some() {
        kept
    } else {
        Some(column)
    }
}

// The element that a field is.
fn element_of<F: Field>(block: &[u8; 32]) -> F
    requires { number_from (take F.coding.bytes block.now) < F.coding.size }
    ensures { result ≡ F.coding.element (number_from (take F.coding.bytes block.now)) }
{
    match F::of_le(&block[..F::BYTES]) {
        Some(x) => x,
        None => unreachable!(),
    }
}

impl Failing {
    fn none() -> Failing
        ensures { result ≡ record { low_degree = None; linear = None; quadratic = None } }
    {
        Failing {
            low_degree: None,
            linear: None,
            quadratic: None,
        }
    }
}

// The lists of elements that an intake keeps.
#[derive(Drop)]
struct ElementLists<F> {
    public: Vec<F>,
    sent: Vec<F>,
    column: Vec<F>,
}

impl<F: Field> ElementLists<F> {
    fn new(alloc: Global, plan: &Plan<'_, F>) -> Result<ElementLists<F>, AllocError>
        ensures public { IfOk result (λ lists. length lists.public.items ≡ plan.now.circuit.now.publics) }
        ensures sent { IfOk result (λ lists. length lists.sent.items ≡ fields.sent_count plan.now.params) }
        ensures column { IfOk result (λ lists. length lists.column.items ≡ plan.now.params.nrow) }
    {
        let Ok(public) = zeros(alloc, plan.circuit.publics() as usize) else {
            return Err(AllocError);
        };
        let Ok(sent) = zeros(alloc, sent_count(plan)) else {
            return Err(AllocError);
        };
        let Ok(column) = zeros(alloc, plan.params.nrow as usize) else {
            return Err(AllocError);
        };
        Ok(ElementLists {
            public,
            sent,
            column,
        })
    }
}

// The lists of digests that an intake keeps.
#[derive(Drop)]
struct DigestLists<F: Field> {
    leaves: Leaves<F>,
    path: Vec<[u8; 32]>,
}

impl<F: Field> DigestLists<F> {
    fn new(alloc: Global, plan: &Plan<'_, F>) -> Result<DigestLists<F>, AllocError>
        ensures leaves { IfOk result (λ lists. length lists.leaves.items ≡ opened_count) }
        ensures rows { IfOk result (λ lists. lists.leaves.rows ≡ plan.now.params.nrow) }
        ensures path { IfOk result (λ lists. length lists.path.items ≡ most_digests) }
    {
        // What is made last is dropped at no exit.
        let Ok(path) = zero_digests(alloc, MOST_DIGESTS) else {
            return Err(AllocError);
        };
        let Ok(leaves) = Leaves::new(alloc, plan) else {
            return Err(AllocError);
        };
        Ok(DigestLists { leaves, path })
    }
}

impl<F: Field> Intake<F> {
    /// Room for what is kept of a proof over this circuit.
    pub(crate) fn new(alloc: Global, plan: &Plan<'_, F>) -> Result<Intake<F>, AllocError>
        ensures lists { IfOk result (λ k. AreLists plan.now.params k) }
        ensures public { IfOk result (λ k. length k.public.items ≡ plan.now.circuit.now.publics) }
        ensures script { IfOk result (λ k. sumcheck.HasShape plan.now.circuit.now k.drawn.script) }
        ensures drawn { IfOk result (λ k. k.is_drawn ≡ false) }
    {
        let Ok(elements) = ElementLists::new(alloc, plan) else {
            return Err(AllocError);
        };
        let Ok(opened) = DigestLists::new(alloc, plan) else {
            return Err(AllocError);
        };
        let Ok(drawn) = Drawn::new(alloc, plan.circuit) else {
            return Err(AllocError);
        };
        Ok(Intake {
            public: elements.public,
            tape: Tape::new(),
            is_drawn: false,
            id: [0; 32],
            root: [0; 32],
            sent: elements.sent,
            drawn,
            wanted: F::zero(),
            nonce: [0; 32],
            column: elements.column,
            leaves: opened.leaves,
            failing: Failing::none(),
            count: 0,
            digests: opened.path,
        })
    }

    /// Begins with no fields. `id` is the circuit's.
    pub(crate) fn begin(&mut self, session: &[u8], id: &[u8; 32], public: &[F])
        requires { length public.now ≡ length self.old.public.items }
        ensures others { self.new ≡ record self.old {
          tape = self.new.tape;
          public = self.new.public;
          is_drawn = false;
          leaves = self.new.leaves;
          failing = self.new.failing;
          count = 0;
        } }
        ensures leaves { length self.new.leaves.items ≡ length self.old.leaves.items }
        ensures rows { self.new.leaves.rows ≡ self.old.leaves.rows }
        ensures public { self.new.public.items ≡ public.now }
        ensures kept { let e = F.coding in
            (c : Wiring F) (p : Params) → AreBounded p → id.now ≡ id_of e c →
            IsKept F.ops e c p session.now public.now [] (kept_of F.ops e c p 0 None [] self.new) }
    {
        self.tape = public_tape(session, id, public);
        self.public.copy_from_slice(public);
        self.is_drawn = false;
        self.leaves.forget();
        self.failing = Failing::none();
        self.count = 0;
    }

    // The answers are whole: draws what the tape gives, and computes what each column is checked with.
    fn draw(&mut self, plan: &Plan<'_, F>, room: &mut Room<F>)
        requires sound { IsSound F.ops F.coding.element plan.now.circuit.now plan.now.params self.old room.old }
        ensures sound { IsSound F.ops F.coding.element plan.now.circuit.now plan.now.params self.new room.new }
        ensures others { self.new
            ≡ record self.old
            { tape = self.new.tape; drawn = self.new.drawn; wanted = self.new.wanted; is_drawn = true } }
        ensures given { self.new.drawn ≡ whole_transcript F.ops F.coding plan.now.circuit.now plan.now.params
            self.old.tape self.old.root self.old.sent.items }
    {
        let sent = Sent {
            plan,
            elements: &self.sent,
        };
        self.drawn.draw(&sent, &mut self.tape, &self.root);
        self.wanted = room.prepare(&sent, &self.public, &self.drawn);
        self.is_drawn = true;
    }

    // The opened column number `k` is whole: takes its leaf, and checks the answers there.
    fn check(&mut self, plan: &Plan<'_, F>, k: usize, room: &mut Room<F>)
        requires lists { AreLists plan.now.params self.old }
        requires rooms { AreRooms plan.now.params room.old }
        requires inside { k < opened_count }
        ensures others { self.new ≡ record self.old { leaves = self.new.leaves; failing = self.new.failing } }
        ensures leaf { self.new.leaves.items
            ≡ slice_set self.old.leaves.items k
            (leaf_of F.coding.bytes F.coding.number self.old.nonce self.old.column.items) }
        ensures rows { self.new.leaves.rows ≡ self.old.leaves.rows }
        ensures low_degree { let index = slice_index self.old.drawn.columns k in
            room.old.answers ≡ weighted_answers F.ops F.coding.element plan.now.params self.old.sent.items
            → IsNoted self.old.failing.low_degree self.new.failing.low_degree (IsLowDegreeIn F.ops F.coding.element
            plan.now.params self.old.column.items (plan.now.params.dblock + index)
            (ldt_in plan.now.params self.old.sent.items) self.old.drawn.challenges.u) index }
        ensures linear { let index = slice_index self.old.drawn.columns k in
            room.old.answers ≡ weighted_answers F.ops F.coding.element plan.now.params self.old.sent.items
            → (lists : ℕ → List F) → AreWeightedRows F.ops F.coding.element plan.now.params room.old.combined lists
            → IsNoted self.old.failing.linear self.new.failing.linear (IsLinearIn F.ops F.coding.element plan.now.params
            self.old.column.items (plan.now.params.dblock + index) (dot_in plan.now.params self.old.sent.items)
            lists) index }
        ensures quadratic { let index = slice_index self.old.drawn.columns k in
            room.old.answers ≡ weighted_answers F.ops F.coding.element plan.now.params self.old.sent.items
            → IsNoted self.old.failing.quadratic self.new.failing.quadratic (IsQuadraticIn F.ops F.coding.element
            plan.now.params self.old.column.items (plan.now.params.dblock + index) (values_of F.ops plan.now.params
            (head_in plan.now.params self.old.sent.items) (tail_in plan.now.params self.old.sent.items))
            self.old.drawn.challenges.v) index }
        ensures room { room.new ≡ room.old }
    {
        let drawn = &self.drawn;
        let column = Column {
            plan,
            elements: &self.column,
            challenges: &drawn.challenges,
        };
        let index = drawn.column(k);
        self.leaves.set(k, &self.nonce, column.elements);
        let right = room.check_column(index, &column);
        self.failing = Failing {
            low_degree: least(self.failing.low_degree, right.low_degree, index),
            linear: least(self.failing.linear, right.linear, index),
            quadratic: least(self.failing.quadratic, right.quadratic, index),
        };
    }

    // The element that a proof sends at this place among all that it sends before the columns. These are drawn behind
    // the last.
    fn take_sent(&mut self, plan: &Plan<'_, F>, place: usize, block: &[u8; 32], room: &mut Room<F>)
        requires place { place < fields.sent_count plan.now.params }
        requires element { number_from (take F.coding.bytes block.now) < F.coding.size }
        requires sound { IsSound F.ops F.coding.element plan.now.circuit.now plan.now.params self.old room.old }
        ensures sound { IsSound F.ops F.coding.element plan.now.circuit.now plan.now.params self.new room.new }
        ensures kept { IsKeptNext F.ops F.coding plan.now.circuit.now plan.now.params (3 + place)
            (take F.coding.bytes block.now) self.old self.new }
    {
        self.sent[place] = element_of(block);
        self.is_drawn = false;
        if place + 1 == sent_count(plan) {
            self.draw(plan, room);
        }
    }

    // A part that is not sent before the columns.
    fn take_other(
        &mut self,
        plan: &Plan<'_, F>,
        part: ProofPart,
        block: &[u8; 32],
        width: usize,
        room: &mut Room<F>,
    )
        requires other { place_of plan.now.params part ≡ None }
        requires whole { IsWholeField (shape F.coding.bytes F.coding.size) plan.now.params part block.now width }
        requires sound { IsSound F.ops F.coding.element plan.now.circuit.now plan.now.params self.old room.old }
        ensures sound { IsSound F.ops F.coding.element plan.now.circuit.now plan.now.params self.new room.new }
        ensures kept { IsKeptNext F.ops F.coding plan.now.circuit.now plan.now.params
            (number_of plan.now.params part) (take width block.now) self.old self.new }
    {
        match part {
            ProofPart::Magic => {}
            ProofPart::Id => self.id = *block,
            ProofPart::Root => self.root = *block,
            ProofPart::Nonce(_) => self.nonce = *block,
            ProofPart::Column(k, i) => {
                self.column[i as usize] = element_of(block);
                if i + 1 == plan.params.nrow {
                    self.check(plan, k as usize, room);
                }
            }
            ProofPart::Count => {}
            ProofPart::Digest(i) => {
                self.digests[i as usize] = *block;
                self.count = i + 1;
            }
            _ => unreachable!(),
        }
    }

    /// The next field of a proof is read, and all that it allows is computed. Its bytes are the first `width` of
    /// `block`, whose others are zeros.
    pub(crate) fn take(
        &mut self,
        plan: &Plan<'_, F>,
        part: ProofPart,
        block: &[u8; 32],
        width: usize,
        room: &mut Room<F>,
    )
        requires whole { IsWholeField (shape F.coding.bytes F.coding.size) plan.now.params part block.now width }
        requires sound { IsSound F.ops F.coding.element plan.now.circuit.now plan.now.params self.old room.old }
        ensures sound { IsSound F.ops F.coding.element plan.now.circuit.now plan.now.params self.new room.new }
        ensures kept { IsKeptNext F.ops F.coding plan.now.circuit.now plan.now.params
            (number_of plan.now.params part) (take width block.now) self.old self.new }
    {
        match place_of(plan, part) {
            Some(place) => self.take_sent(plan, place, block, room),
            None => self.take_other(plan, part, block, width, room),
        }
    }
}
