//! The leaves of the opened columns, which are hashed four at a time.

ghost use Rattle.lzk_profile.specs.Profile.{opened_count};
ghost use Rattle.std.specs.Prelude.{◌≡◌, ◌+◌, ◌*◌, ◌<◌, cond, length, slice_set, IfOk};
ghost use Rattle.lzk_merkle.specs.Leaf.{leaf_of};
ghost use Rattle.lzk_merkle.specs.Nodes as tree;
ghost use Rattle.lzk_verify.specs.Checks.{needed_digests};
ghost use Rattle.lzk_verify.specs.Desk.{IsChecked};
ghost use Rattle.lzk_verify.specs.Leaves.{FitsIn, AreThree, with_leaf, with_three, with_leaves};

use crate::opening::{Opened, check_root};
use crate::room::zero_digests;
use lzk_circuit::zeros;
use lzk_field::Field;
use lzk_layout::{OPENED, Plan};
use lzk_merkle::{four_leaves, leaf};
use std::alloc::{AllocError, Global};
use std::marker::Model;

/// A column that waits for three others.
#[derive(Drop)]
struct WaitingColumn<F> {
    /// Which of the opened columns it is.
    place: usize,
    nonce: [u8; 32],
    elements: Vec<F>,
}

/// The columns that wait for a fourth, or room for them.
#[derive(Drop)]
struct ThreeColumns<F> {
    first: WaitingColumn<F>,
    second: WaitingColumn<F>,
    third: WaitingColumn<F>,
}

/// The leaves of the opened columns. Columns wait until they are four, or until the leaves are wanted.
#[derive(Drop)]
pub(crate) struct Leaves<F: Field> {
    made: Vec<[u8; 32]>,
    /// How many columns wait.
    waiting: usize,
    columns: ThreeColumns<F>,
    /// Room for the bytes of four leaves.
    bytes: Vec<u8>,
}

impl<F: Field> Model for Leaves<F> {
    ghost use Rattle.std.specs.Prelude.{length};
    ghost use Rattle.lzk_verify.specs.Leaves.{LeafList, AreSound, with_leaves};

    ghost Value = { LeafList };

    ghost view = { λ l. record {
      items = with_leaves F.coding.bytes F.coding.number l.waiting l.columns l.made.items;
      rows = length l.columns.first.elements.items;
    } };

    ghost invariant = { λ l. AreSound F.coding.bytes l.waiting l.columns l.made.items l.bytes.items };
}

impl<F: Field> WaitingColumn<F> {
    // Room for a column of so many elements.
    fn new(alloc: Global, rows: usize) -> Result<WaitingColumn<F>, AllocError>
        ensures { IfOk result (λ column. FitsIn 1 rows column) }
    {
        let Ok(elements) = zeros(alloc, rows) else {
            return Err(AllocError);
        };
        Ok(WaitingColumn {
            place: 0,
            nonce: [0; 32],
            elements,
        })
    }

    // This column waits.
    fn set(&mut self, place: usize, nonce: &[u8; 32], elements: &[F])
        requires { length elements.now ≡ length self.old.elements.items }
        ensures place { self.new.place ≡ place }
        ensures nonce { self.new.nonce ≡ nonce.now }
        ensures elements { self.new.elements.items ≡ elements.now }
    {
        self.place = place;
        self.nonce = *nonce;
        self.elements.copy_from_slice(elements);
    }
}

impl<F: Field> ThreeColumns<F> {
    fn new(alloc: Global, rows: usize) -> Result<ThreeColumns<F>, AllocError>
        ensures { IfOk result (λ columns. AreThree 1 rows columns) }
    {
        let Ok(first) = WaitingColumn::new(alloc, rows) else {
            return Err(AllocError);
        };
        let Ok(second) = WaitingColumn::new(alloc, rows) else {
            return Err(AllocError);
        };
        let Ok(third) = WaitingColumn::new(alloc, rows) else {
            return Err(AllocError);
        };
        Ok(ThreeColumns {
            first,
            second,
            third,
        })
    }
}

// Room for the bytes of four leaves of so many elements.
fn room_for_four<F: Field>(alloc: Global, plan: &Plan<'_, F>) -> Result<Vec<u8>, AllocError>
    ensures { IfOk result (λ bytes. length bytes.items ≡ 4 * (32 + plan.now.params.nrow * F.coding.bytes)) }
{
    let mut bytes = Vec::new(alloc);
    bytes.resize(4 * (32 + plan.params.nrow as usize * F::BYTES), 0)?;
    Ok(bytes)
}

// Makes the leaves of the three columns and of this fourth.
fn make_four<F: Field>(
    columns: &ThreeColumns<F>,
    place: usize,
    nonce: &[u8; 32],
    elements: &[F],
    bytes: &mut [u8],
    made: &mut [[u8; 32]],
)
    requires columns { AreThree (length made.old) (length elements.now) columns.now }
    requires inside { place < length made.old }
    requires bytes { length bytes.old ≡ 4 * (32 + length elements.now * F.coding.bytes) }
    ensures { made.new ≡ slice_set (with_three F.coding.bytes F.coding.number columns.now made.old) place
        (leaf_of F.coding.bytes F.coding.number nonce.now elements.now) }
{
    let [first, second, third] = [&columns.first, &columns.second, &columns.third];
    let nonces = [first.nonce, second.nonce, third.nonce, *nonce];
    let [a, b, c, d] = four_leaves(
        &nonces,
        &first.elements,
        &second.elements,
        &third.elements,
        elements,
        bytes,
    );
    made[first.place] = a;
    made[second.place] = b;
    made[third.place] = c;
    made[place] = d;
}

// Makes the leaf of this column, where it waits.
fn make_one<F: Field>(waits: bool, column: &WaitingColumn<F>, made: &mut [[u8; 32]])
    requires { column.now.place < length made.old }
    ensures leaf { made.new ≡ cond waits (with_leaf F.coding.bytes F.coding.number column.now made.old) made.old }
    ensures length { length made.new ≡ length made.old }
{
    if waits {
        made[column.place] = leaf(&column.nonce, &column.elements);
    }
}

// Makes the leaves of the first so many of the columns.
fn make_waiting<F: Field>(waiting: usize, columns: &ThreeColumns<F>, made: &mut [[u8; 32]])
    requires { AreThree (length made.old) (length columns.now.first.elements.items) columns.now }
    ensures { made.new ≡ with_leaves F.coding.bytes F.coding.number waiting columns.now made.old }
{
    make_one(waiting > 0, &columns.first, made);
    make_one(waiting > 1, &columns.second, made);
    make_one(waiting > 2, &columns.third, made);
}

impl<F: Field> Leaves<F> {
    /// Room for the leaves of the opened columns.
    pub(crate) fn new(alloc: Global, plan: &Plan<'_, F>) -> Result<Leaves<F>, AllocError>
        ensures items { IfOk result (λ leaves. length leaves.items ≡ opened_count) }
        ensures rows { IfOk result (λ leaves. leaves.rows ≡ plan.now.params.nrow) }
    {
        // What is made last is dropped at no exit.
        let Ok(made) = zero_digests(alloc, OPENED) else {
            return Err(AllocError);
        };
        let Ok(bytes) = room_for_four::<F>(alloc, plan) else {
            return Err(AllocError);
        };
        let Ok(columns) = ThreeColumns::new(alloc, plan.params.nrow as usize) else {
            return Err(AllocError);
        };
        Ok(Leaves {
            made,
            waiting: 0,
            columns,
            bytes,
        })
    }

    /// No column waits any more, and the leaves say nothing of those that did.
    pub(crate) fn forget(&mut self)
        ensures length { length self.new.items ≡ length self.old.items }
        ensures rows { self.new.rows ≡ self.old.rows }
    {
        self.waiting = 0;
    }

    /// The leaf of an opened column becomes that of this nonce and these elements.
    pub(crate) fn set(&mut self, place: usize, nonce: &[u8; 32], elements: &[F])
        requires inside { place < length self.old.items }
        requires rows { length elements.now ≡ self.old.rows }
        ensures { self.new
            ≡ record self.old {
              items = slice_set self.old.items place
                  (leaf_of F.coding.bytes F.coding.number nonce.now elements.now);
            } }
    {
        match self.waiting {
            0 => self.columns.first.set(place, nonce, elements),
            1 => self.columns.second.set(place, nonce, elements),
            2 => self.columns.third.set(place, nonce, elements),
            _ => {
                make_four(
                    &self.columns,
                    place,
                    nonce,
                    elements,
                    &mut self.bytes,
                    &mut self.made,
                );
            }
        }
        self.waiting = (self.waiting + 1) % 4;
    }

    /// The root that the leaves and the path lead to, where it is not the proof's. `nodes` is room, and says nothing
    /// afterwards.
    pub(crate) fn check_root(
        &mut self,
        opened: &Opened<'_, '_, F>,
        root: &[u8; 32],
        path: &[[u8; 32]],
        nodes: &mut [[u8; 32]],
    ) -> Option<[u8; 32]>
        requires path { length path.now ≡ needed_digests opened.now.plan.now.params opened.now.columns.now }
        requires leaves { length self.old.items ≡ length opened.now.columns.now }
        requires nodes { length nodes.old ≡ 2 * opened.now.plan.now.params.mcol }
        ensures root { let o = opened.now in
            let found = tree.root_of o.plan.now.params.mcol o.columns.now self.old.items path.now in
            IsChecked (found ≡ root.now) found result }
        ensures nodes { length nodes.new ≡ 2 * opened.now.plan.now.params.mcol }
        ensures same { self.new ≡ self.old }
    {
        make_waiting(self.waiting, &self.columns, &mut self.made);
        self.waiting = 0;
        check_root(opened, root, &self.made, path, nodes)
    }
}
