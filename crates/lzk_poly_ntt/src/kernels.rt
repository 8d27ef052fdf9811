//! The kernels that weighted values are convolved with: the inverses of differences of points, transformed.

ghost use Rattle.std.specs.Prelude.{◌≡◌, ◌≢◌, ℕ, ◌+◌, ◌^◌, ◌<◌, ◌≤◌, length, IfOk};
ghost use Rattle.lzk_field.specs.Sums.{entry};
ghost use Rattle.lzk_poly.specs.Weights.{IsInverseTable};
ghost use Rattle.lzk_poly_ntt.specs.Kernels.{kernel_entry, AreKernels, IsPlan, IsReady};
ghost use Rattle.lzk_poly_ntt.specs.Transform.{doubled, spectrum};

use crate::plan::Plan;
use crate::prepared::{Factor, Prepared, prepare};
use crate::transform::Transform;
use lzk_field::Field;
use std::alloc::{AllocError, Global};

/// The kernels of an extender, transformed, and what they are convolved by.
#[derive(Drop)]
pub(crate) struct Kernels<F: Factor> {
    pub transform: Transform<F>,
    pub plan: Plan,
    /// The transformed kernels of each block and each piece, one after the other.
    pub spectra: Vec<Prepared<F>>,
    pub ghost ready: { IsReady F.ops F.coding.element transform plan spectra.items },
}

/// A row cut up for a transform, with the inverses that its kernels are made of.
#[derive(Drop)]
pub(crate) struct Cut<'a, F: Factor> {
    pub transform: &'a Transform<F>,
    /// The inverses of the elements with the points' numbers.
    pub inverses: &'a [F],
    pub plan: Plan,
    pub ghost table: { IsInverseTable F.ops F.coding.element inverses.now },
    pub ghost points: { length inverses.now ≡ plan.upto },
    pub ghost planned: { IsPlan plan transform.now.bits },
    pub ghost two: { F.ops.plus F.ops.one F.ops.one ≢ F.ops.zero },
}

// The inverse of the backward transform's factor.
fn inverse_size<F: Field>(bits: u32) -> F
    requires { F.ops.plus F.ops.one F.ops.one ≢ F.ops.zero }
    ensures value { result ≡ F.ops.inverse (doubled F.ops bits) }
    ensures inverse { F.ops.times (doubled F.ops bits) result ≡ F.ops.one }
{
    let mut size = F::one();
    for _k in 0..bits {
        size = size.add(size);
    }
    match size.inv() {
        Some(inverse) => inverse,
        None => unreachable!(),
    }
}

// The table's entry times the scale, and zero behind the table.
fn scaled<F: Field>(inverses: &[F], place: usize, scale: F) -> F
    ensures { result ≡ F.ops.times scale (entry F.ops inverses.now place) }
{
    if place < inverses.len() {
        scale.mul(inverses[place])
    } else {
        F::zero()
    }
}

// The forward transform of the inverses of the points from `first` on, each times the scale, as factors.
fn kernel<F: Factor>(
    alloc: Global,
    cut: &Cut<'_, F>,
    scale: F,
    first: usize,
) -> Result<Vec<Prepared<F>>, AllocError>
    requires positive { 1 ≤ first }
    requires few { first ≤ 65536 }
    ensures { let d = cut.now.transform.now in IfOk result (λ v.
        (length v.items ≡ 2 ^ d.bits)
        × ((j : ℕ) → j < 2 ^ d.bits
        → entry F.ops v.items j
        ≡ spectrum F.ops d.bits d.root
        (kernel_entry F.ops F.coding.element scale (length cut.now.inverses.now) first) j)) }
{
    let (transform, inverses) = (cut.transform, cut.inverses);
    let mut list = Vec::new(alloc);
    for t in 0..transform.size() {
        list.push(scaled(inverses, first + t, scale))?;
    }
    transform.forward(&mut list);
    prepare(alloc, &list)
}

/// The transformed kernels of each block and each piece, one after the other. The backward transform's factor
/// is undone in them once, so that no row has to.
pub(crate) fn kernel_spectra<F: Factor>(
    alloc: Global,
    cut: &Cut<'_, F>,
) -> Result<Vec<Prepared<F>>, AllocError>
    ensures kernels { let c = cut.now in
        IfOk result (λ v. AreKernels F.ops F.coding.element c.transform.now c.plan v.items) }
    ensures inverse_size { let size = doubled F.ops cut.now.transform.now.bits in
        F.ops.times size (F.ops.inverse size) ≡ F.ops.one }
{
    let plan = cut.plan;
    let scale = inverse_size::<F>(cut.transform.bits());
    let mut all = Vec::new(alloc);
    for v in 0..plan.blocks {
        let end = (v * plan.block + plan.block).min(plan.count);
        for p in 0..plan.pieces {
            let from = plan.count + p * plan.piece;
            let factors = kernel(alloc, cut, scale, from + 1 - end)?;
            all.extend_from_slice(&factors)?;
        }
    }
    Ok(all)
}
