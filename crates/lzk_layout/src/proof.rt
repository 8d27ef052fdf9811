//! Proofs.

ghost use Rattle.std.specs.Prelude.{◌≡◌, ◌≤◌, length, replicate, IfOk};
ghost use Rattle.lzk_layout.specs.Sizes.{AreParams};
ghost use Rattle.lzk_layout.specs.Proofs.{zero_digest, zero_proof, HasLengths};

use crate::limits::{BLINDS, MOST_DIGESTS, OPENED};
use crate::lists::{Blocks, Elements, Path};
use crate::params::Params;
use lzk_field::Field;
use std::alloc::{AllocError, Global};

/// A proof: what the prover sends, in the order of the profile's proof file.
#[derive(Drop)]
pub struct Proof<F> {
    /// The circuit's id.
    pub id: [u8; 32],
    /// The root of the tree of columns.
    pub root: [u8; 32],
    /// The elements that the sumchecks send.
    pub messages: Elements<F>,
    /// The low degree answer.
    pub ldt: Elements<F>,
    /// The linear answer.
    pub dot: Elements<F>,
    /// The quadratic answer's first values, as many as columns are opened.
    pub quad_head: Elements<F>,
    /// The quadratic answer's last values, those behind the row's elements.
    pub quad_tail: Elements<F>,
    /// The opened columns' nonces.
    pub nonces: Blocks,
    /// The opened columns, one after the other.
    pub columns: Elements<F>,
    /// The digests that the root is found with.
    pub path: Path,
}

fn zero_blocks(alloc: Global, count: usize) -> Result<Blocks, AllocError>
    ensures { IfOk result (λ list. list ≡ replicate count zero_digest) }
{
    let mut list = Vec::new(alloc);
    list.resize(count, [0; 32])?;
    Ok(Blocks { list })
}

// Two lists of so many zeros, or none.
fn two_lists<F: Field>(
    alloc: Global,
    first: u32,
    second: u32,
) -> Result<(Elements<F>, Elements<F>), AllocError>
    ensures first { IfOk result (λ lists. lists.0 ≡ replicate first F.ops.zero) }
    ensures second { IfOk result (λ lists. lists.1 ≡ replicate second F.ops.zero) }
{
    let first = Elements::zeros(alloc, first as usize)?;
    Ok((first, Elements::zeros(alloc, second as usize)?))
}

impl<F: Field> Proof<F> {
    /// A proof of zeros for these parameters, with an empty path and room for as many digests as a path may have.
    pub fn new(alloc: Global, params: &Params) -> Result<Proof<F>, AllocError>
        requires { AreParams F.ops params.now }
        ensures zeros { IfOk result (λ proof. proof ≡ zero_proof F.ops params.now) }
        ensures lengths { IfOk result (λ proof. HasLengths params.now proof) }
    {
        let path = Path::with_room(alloc, MOST_DIGESTS)?;
        let nonces = zero_blocks(alloc, OPENED)?;
        let (messages, columns) = two_lists(alloc, params.nsum, OPENED as u32 * params.nrow)?;
        let (ldt, dot) = two_lists(alloc, params.block, params.dblock)?;
        let (quad_head, quad_tail) = two_lists(alloc, BLINDS as u32, params.dblock - params.block)?;
        Ok(Proof {
            id: [0; 32],
            root: [0; 32],
            messages,
            ldt,
            dot,
            quad_head,
            quad_tail,
            nonces,
            columns,
            path,
        })
    }
}
