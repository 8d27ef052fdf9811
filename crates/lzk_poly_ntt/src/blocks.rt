//! A row's extension: the transforms of its blocks of values, and a backward transform for each piece of the
//! points.

ghost use Rattle.std.specs.Prelude.{◌≡◌, ℕ, ◌+◌, ◌-◌, ◌*◌, ◌^◌, ◌<◌, ◌≤◌, List, length};
ghost use Rattle.lzk_field.specs.Sums.{entry};
ghost use Rattle.lzk_poly.specs.Extension.{extension};
ghost use Rattle.lzk_poly.specs.Weights.{IsPassed, IsWeights};
ghost use Rattle.lzk_poly_ntt.specs.Kernels.{convolutions, weighted, AreSpectra};
ghost use Rattle.lzk_poly_ntt.specs.Lists.{HaveOneLength};
ghost use Rattle.lzk_poly_ntt.specs.Transform.{spectrum, IsRoot};

use crate::kernels::Kernels;
use crate::prepared::{Factor, Prepared};
use lzk_field::Field;

/// A row's values, with what it is extended by.
#[derive(Drop)]
pub(crate) struct Row<'a, F: Factor> {
    pub kernels: &'a Kernels<F>,
    /// The weights of the values' points.
    pub weights: &'a [F],
    /// At each further point, the product of its differences from the values' points.
    pub passed: &'a [F],
    pub values: &'a [F],
    pub ghost weighted: { IsWeights F.ops F.coding.element kernels.now.plan.count weights.now },
    pub ghost passes: { IsPassed F.ops F.coding.element kernels.now.plan.count kernels.now.plan.upto passed.now },
    pub ghost count: { length values.now ≡ kernels.now.plan.count },
}

// The values times their weights, behind so many zeros and before zeros to the end.
fn weigh<F: Field>(values: &[F], weights: &[F], skip: usize, out: &mut [F])
    requires same { length weights.now ≡ length values.now }
    requires room { skip + length values.now ≤ length out.old }
    ensures before { (i : ℕ) → i < skip → entry F.ops out.new i ≡ F.ops.zero }
    ensures near { (i : ℕ) → i < length values.now
        → entry F.ops out.new (skip + i) ≡ F.ops.times (entry F.ops values.now i) (entry F.ops weights.now i) }
    ensures far { (i : ℕ) → skip + length values.now ≤ i → i < length out.new → entry F.ops out.new i ≡ F.ops.zero }
{
    for h in 0..skip {
        out[h] = F::zero();
    }
    for i in 0..values.len() {
        out[skip + i] = values[i].mul(weights[i]);
    }
    for k in skip + values.len()..out.len() {
        out[k] = F::zero();
    }
}

// The transform of a block's values times their weights. A block that is short stands at the end of its places.
fn transform_block<F: Factor>(row: &Row<'_, F>, v: usize, out: &mut [F])
    requires block { v < row.now.kernels.now.plan.blocks }
    requires out { length out.old ≡ 2 ^ row.now.kernels.now.transform.bits }
    ensures { let r = row.now in let d = r.kernels.now.transform in
        (j : ℕ) → j < length out.new
        → entry F.ops out.new j
        ≡ spectrum F.ops d.bits d.root (weighted F.ops r.kernels.now.plan r.values.now r.weights.now v) j }
{
    let plan = row.kernels.plan;
    let start = v * plan.block;
    let end = (start + plan.block).min(plan.count);
    let skip = plan.block - (end - start);
    weigh(&row.values[start..end], &row.weights[start..end], skip, out);
    row.kernels.transform.forward(out);
}

// The transforms of the blocks from one on, one after the other.
fn transform_blocks<F: Factor>(row: &Row<'_, F>, from: usize, spectra: &mut [F])
    requires order { from ≤ row.now.kernels.now.plan.blocks }
    requires spectra { let kernels = row.now.kernels.now in
        length spectra.old ≡ (kernels.plan.blocks - from) * 2 ^ kernels.transform.bits }
    ensures { let r = row.now in let kernels = r.kernels.now in
        AreSpectra F.ops kernels.transform kernels.plan r.values.now r.weights.now from spectra.new }
{
    let kernels = row.kernels;
    if from == kernels.plan.blocks {
        return;
    }
    let (first, rest) = spectra.split_at_mut(kernels.transform.size());
    transform_block(row, from, first);
    transform_blocks(row, from + 1, rest);
}

// Sets entries to the products of those at their place and the factors.
fn set_multiples<F: Factor>(list: &[F], factors: &[Prepared<F>], out: &mut [F])
    requires lengths { HaveOneLength out.old list.now factors.now }
    ensures { (j : ℕ) → j < length out.new
        → entry F.ops out.new j ≡ F.ops.times (entry F.ops list.now j) (entry F.ops factors.now j) }
{
    for j in 0..out.len() {
        out[j] = factors[j].times(list[j]);
    }
}

// Adds the products of the entries at their place and the factors.
fn add_multiples<F: Factor>(list: &[F], factors: &[Prepared<F>], out: &mut [F])
    requires lengths { HaveOneLength out.old list.now factors.now }
    ensures { (j : ℕ) → j < length out.new → entry F.ops out.new j ≡
        F.ops.plus (entry F.ops out.old j) (F.ops.times (entry F.ops list.now j) (entry F.ops factors.now j)) }
{
    for j in 0..out.len() {
        out[j] = out[j].add(factors[j].times(list[j]));
    }
}

// The sums over the blocks of the products of their transforms and their kernels for a piece: the transform of
// the sum of the convolutions.
fn sum_products<F: Factor>(kernels: &Kernels<F>, p: usize, spectra: &[F], out: &mut [F])
    requires piece { p < kernels.now.plan.pieces }
    requires spectra { length spectra.now ≡ kernels.now.plan.blocks * 2 ^ kernels.now.transform.bits }
    requires out { length out.old ≡ 2 ^ kernels.now.transform.bits }
    ensures { let d = kernels.now.transform in (values weights : List F) → IsRoot F.ops d.bits d.root →
        AreSpectra F.ops d kernels.now.plan values weights 0 spectra.now → (j : ℕ) → j < length out.new →
        entry F.ops out.new j ≡ spectrum F.ops d.bits d.root
        (convolutions F.ops F.coding.element d kernels.now.plan values weights p kernels.now.plan.blocks) j }
{
    let plan = kernels.plan;
    let size = kernels.transform.size();
    let first = p * size;
    set_multiples(&spectra[..size], &kernels.spectra[first..first + size], out);
    for v in 1..plan.blocks {
        let place = (v * plan.pieces + p) * size;
        let at = v * size;
        add_multiples(
            &spectra[at..at + size],
            &kernels.spectra[place..place + size],
            out,
        );
    }
}

// Sets the entries from `at` to before `to` to products of entries at their places and those of `list` from
// `first` on.
fn set_products<F: Field>(
    out: &mut [F],
    at: usize,
    to: usize,
    factors: &[F],
    list: &[F],
    first: usize,
)
    requires within { to ≤ length out.old }
    requires factors { to ≤ length factors.now }
    requires enough { first + (to - at) ≤ length list.now }
    ensures inside { (k : ℕ) → at ≤ k → k < to
        → entry F.ops out.new k ≡ F.ops.times (entry F.ops list.now (first + (k - at))) (entry F.ops factors.now k) }
    ensures before { (k : ℕ) → k < at → entry F.ops out.new k ≡ entry F.ops out.old k }
{
    for k in at..to {
        out[k] = list[first + (k - at)].mul(factors[k]);
    }
}

/// Writes the values at the points from that of the last given value on: the barycentric sums, times the
/// products of differences.
pub(crate) fn extend_by<F: Factor>(
    row: &Row<'_, F>,
    spectra: &mut [F],
    convolved: &mut [F],
    out: &mut [F],
)
    requires out { let plan = row.now.kernels.now.plan in length out.old + plan.count ≡ plan.upto }
    requires spectra { let kernels = row.now.kernels.now in
        length spectra.old ≡ kernels.plan.blocks * 2 ^ kernels.transform.bits }
    requires convolved { length convolved.old ≡ 2 ^ row.now.kernels.now.transform.bits }
    ensures { (k : ℕ) → k < length out.new → entry F.ops out.new k ≡
        extension F.ops F.coding.element row.now.values.now (row.now.kernels.now.plan.count + k) }
{
    let kernels = row.kernels;
    let plan = kernels.plan;
    transform_blocks(row, 0, spectra);
    for p in 0..plan.pieces {
        sum_products(kernels, p, spectra, convolved);
        kernels.transform.backward(convolved);
        let at = p * plan.piece;
        let to = (at + plan.piece).min(out.len());
        set_products(out, at, to, row.passed, convolved, plan.block - 1);
    }
}
