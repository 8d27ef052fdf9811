//! The lists that a proof has.

ghost use Rattle.std.specs.Prelude.{◌≡◌, ◌<◌, ◌≤◌, ◌++◌, [], ◌∷◌, length, replicate, take, IfOk};
ghost use Rattle.std.specs.Borrow.{sem};
ghost use Rattle.lzk_layout.specs.Lending.{lends_elements, lends_blocks, lends_path};

use lzk_circuit::zeros;
use lzk_field::Field;
use std::alloc::{AllocError, Global};
use std::marker::Model;

/// A list of elements. It is made from a `Vec` and gives it back, with no memory taken.
#[derive(Drop)]
pub struct Elements<F> {
    pub(crate) list: Vec<F>,
}

impl<F> Model for Elements<F> {
    ghost use Rattle.std.specs.Prelude.{List};

    ghost Value = { List F };

    ghost view = { λ e. e.list.items };
}

impl<F: Field> Elements<F> {
    /// So many zeros. `Err` where there is no memory for them.
    pub fn zeros(alloc: Global, count: usize) -> Result<Elements<F>, AllocError>
        ensures { IfOk result (λ list. list ≡ replicate count F.ops.zero) }
    {
        Ok(Elements {
            list: zeros(alloc, count)?,
        })
    }
}

impl<F> Elements<F> {
    /// These elements.
    pub fn new(list: Vec<F>) -> Elements<F>
        ensures { result ≡ list.items }
    {
        Elements { list }
    }

    /// The elements as they were handed in.
    pub fn into_vec(self) -> Vec<F>
        ensures { result.items ≡ self }
    {
        self.list
    }

    /// The elements in order.
    pub fn as_slice(&self) -> &[F]
        ensures { result.now ≡ self.now }
    {
        &self.list
    }

    /// The elements in order, to be written.
    pub fn as_mut_slice(&mut self) -> &mut [F]
        ensures* writes_back { sem 𝓛 (lends_elements F.row self.entry result) }
        ensures value { result.now ≡ self.old }
    {
        self.list.as_mut_slice()
    }
}

/// A list of digests or nonces. It is made from a `Vec` and gives it back, with no memory taken.
#[derive(Drop)]
pub struct Blocks {
    pub(crate) list: Vec<[u8; 32]>,
}

impl Model for Blocks {
    ghost use Rattle.std.specs.Prelude.{List, ℕ};

    ghost Value = { List (List ℕ) };

    ghost view = { λ b. b.list.items };
}

impl Blocks {
    /// These blocks.
    pub fn new(list: Vec<[u8; 32]>) -> Blocks
        ensures { result ≡ list.items }
    {
        Blocks { list }
    }

    /// The blocks as they were handed in.
    pub fn into_vec(self) -> Vec<[u8; 32]>
        ensures { result.items ≡ self }
    {
        self.list
    }

    /// The blocks in order.
    pub fn as_slice(&self) -> &[[u8; 32]]
        ensures { result.now ≡ self.now }
    {
        &self.list
    }

    /// The blocks in order, to be written.
    pub fn as_mut_slice(&mut self) -> &mut [[u8; 32]]
        ensures* writes_back { sem 𝓛 (lends_blocks self.entry result) }
        ensures value { result.now ≡ self.old }
    {
        self.list.as_mut_slice()
    }
}

/// The digests of a path, with room for more.
#[derive(Drop)]
pub struct Path {
    pub(crate) list: Vec<[u8; 32]>,
    pub(crate) count: usize,
}

impl Model for Path {
    ghost use Rattle.std.specs.Prelude.{◌≤◌, take, vec_len};
    ghost use Rattle.lzk_layout.specs.Lists.{Digests};

    ghost Value = { Digests };

    ghost view = { λ p. record { digests = take p.count p.list.items; room = vec_len p.list } };

    ghost invariant = { λ p. p.count ≤ vec_len p.list };
}

impl Path {
    /// No digests, and room for so many.
    pub fn with_room(alloc: Global, room: usize) -> Result<Path, AllocError>
        ensures { IfOk result (λ p. p ≡ record { digests = []; room = room }) }
    {
        let mut list = Vec::new(alloc);
        list.resize(room, [0; 32])?;
        Ok(Path { list, count: 0 })
    }

    /// How many digests there are.
    pub fn len(&self) -> usize
        ensures { result ≡ length self.now.digests }
    {
        self.count
    }

    /// How many digests there is room for.
    pub fn room(&self) -> usize
        ensures { result ≡ self.now.room }
    {
        self.list.len()
    }

    /// Removes all digests.
    pub fn clear(&mut self)
        ensures { self.new ≡ record { digests = []; room = self.old.room } }
    {
        self.count = 0;
    }

    /// Adds a digest at the end, with no memory taken.
    pub fn push(&mut self, digest: [u8; 32])
        requires { length self.old.digests < self.old.room }
        ensures { self.new ≡ record { digests = self.old.digests ++ digest ∷ []; room = self.old.room } }
    {
        self.list[self.count] = digest;
        self.count += 1;
    }

    /// The digests in order.
    pub fn as_slice(&self) -> &[[u8; 32]]
        ensures { result.now ≡ self.now.digests }
    {
        let (digests, _) = self.list.split_at(self.count);
        digests
    }

    /// The digests in order, and the room behind them, to be written. What is written behind the digests is not kept.
    pub fn room_mut(&mut self) -> &mut [[u8; 32]]
        ensures* writes_back { sem 𝓛 (lends_path self.entry result) }
        ensures value { take (length self.old.digests) result.now ≡ self.old.digests }
        ensures room { length result.now ≡ self.old.room }
    {
        self.list.as_mut_slice()
    }
}
