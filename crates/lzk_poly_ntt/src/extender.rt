//! What extends rows by convolution.

ghost use Rattle.std.specs.Prelude.{◌≡◌, ◌≢◌, ◌+◌, ◌^◌, ℕ, ◌<◌, ◌≤◌, length, IfOk};
ghost use Rattle.lzk_field.specs.Sums.{entry};
ghost use Rattle.lzk_poly.specs.Extension.{Reach, extension};
ghost use Rattle.lzk_poly.specs.Weights.{IsEven};
ghost use Rattle.lzk_poly_ntt.specs.Kernels.{IsPlan};

use crate::blocks::{Row, extend_by};
use crate::kernels::{Cut, Kernels, kernel_spectra};
use crate::plan::Plan;
use crate::prepared::Factor;
use crate::transform::Transform;
use lzk_poly::Weights;
use std::alloc::{AllocError, Global};
use std::marker::Model;

/// What extends rows of `count` values to the points with numbers below `upto`, by number-theoretic
/// transforms. Over the prime field it is made by `RowExtend::make`.
///
/// The weights, and the transforms of the kernels, are computed once. A row takes one forward transform for
/// each block of its values, and for each piece of the further points a pointwise product for each block, whose
/// sum is transformed backward once. It takes no memory but the caller's room: a transform for each block, and
/// one more.
#[derive(Drop)]
pub struct NttExtender<F: Factor> {
    weights: Weights<F>,
    kernels: Kernels<F>,
}

impl<F: Factor> Model for NttExtender<F> {
    ghost use Rattle.std.specs.Prelude.{◌≡◌, ◌+◌, ◌*◌, ◌^◌};
    ghost use Rattle.lzk_poly.specs.Extension.{Reach};
    ghost use Rattle.lzk_poly_ntt.specs.Kernels.{Convolver};

    ghost Value = { Convolver };

    ghost view = { λ e.
        record { reach = e.weights; room = (e.kernels.plan.blocks + 1) * 2 ^ e.kernels.transform.bits } };

    ghost invariant = { λ e. (e.kernels.plan.count ≡ e.weights.count) × (e.kernels.plan.upto ≡ e.weights.upto) };
}

impl<F: Factor> NttExtender<F> {
    /// What extends rows that are cut up so by these transforms.
    pub(crate) fn with_plan(
        alloc: Global,
        plan: Plan,
        transform: Transform<F>,
    ) -> Result<NttExtender<F>, AllocError>
        requires plan { IsPlan plan transform.bits }
        requires even { IsEven F.ops F.coding.element plan.upto }
        requires two { F.ops.plus F.ops.one F.ops.one ≢ F.ops.zero }
        ensures { IfOk result (λ e. e.reach ≡ record { count = plan.count; upto = plan.upto }) }
    {
        let weights = Weights::new(alloc, plan.count as u32, plan.upto as u32)?;
        let spectra = {
            let cut = Cut {
                transform: &transform,
                inverses: &weights.inverses()[..plan.upto],
                plan,
            };
            kernel_spectra(alloc, &cut)?
        };
        let kernels = Kernels {
            transform,
            plan,
            spectra,
        };
        Ok(NttExtender { weights, kernels })
    }

    /// How many elements of room an extension takes: as many as a transform for each block, and one more.
    pub(crate) fn room_size(&self) -> usize
        ensures { result ≡ self.now.room }
    {
        (self.kernels.plan.blocks + 1) * self.kernels.transform.size()
    }

    /// Writes the values at the points from `count` on of the polynomial through `values`.
    pub(crate) fn extend(&self, values: &[F], out: &mut [F], room: &mut [F])
        requires fits { length values.now ≡ self.now.reach.count }
        requires reached { length out.old + self.now.reach.count ≡ self.now.reach.upto }
        requires room { length room.old ≡ self.now.room }
        ensures { (k : ℕ) → k < length out.new
            → entry F.ops out.new k ≡ extension F.ops F.coding.element values.now (self.now.reach.count + k) }
    {
        let spectra = self.kernels.plan.blocks * self.kernels.transform.size();
        let (spectra, convolved) = room.split_at_mut(spectra);
        let row = Row {
            kernels: &self.kernels,
            weights: self.weights.weights(),
            passed: self.weights.passed(),
            values,
        };
        extend_by(&row, spectra, convolved, out);
    }
}
