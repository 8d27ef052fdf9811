//! The twiddle factors of all blocks, in one list.

ghost use Rattle.std.specs.Prelude.{◌≡◌, ◌≢◌, ℕ, ◌+◌, ◌-◌, ◌*◌, ◌^◌, ◌<◌, ◌≤◌, length, IfOk};
ghost use Rattle.lzk_field.specs.Sums.{entry};
ghost use Rattle.lzk_poly.specs.Products.{IsBinary};
ghost use Rattle.lzk_afft.specs.Basis.{normalized, vanishing};
ghost use Rattle.lzk_afft.specs.Blocks.{AreTwiddles, AreLevelTwiddles, AreImages, HasImages, IsSubspace};

use lzk_field::Field;
use std::alloc::{AllocError, Global};

/// The twiddle factors of the block of the first 2^depth points and of all its halves, the largest block's
/// first.
pub(crate) fn twiddle_factors<F: Field>(alloc: Global, depth: u32) -> Result<Vec<F>, AllocError>
    requires subspace { IsSubspace F.ops F.coding.element depth }
    ensures { IfOk result (λ v. (length v.items ≡ 2 ^ depth) × AreTwiddles F.ops F.coding.element depth 0 1 v.items) }
{
    let mut images = vec![in alloc; F::zero(); depth as usize]?;
    let mut scaled = vec![in alloc; F::zero(); depth as usize]?;
    let mut twiddles = vec![in alloc; F::zero(); 1 << depth]?;
    set_points(&mut images);
    fill_levels(&mut twiddles, &mut images, &mut scaled, depth, 0);
    Ok(twiddles)
}

// The images of the points with one bit under the first subspace polynomial, which is t itself.
fn set_points<F: Field>(images: &mut [F])
    requires few { length images.old ≤ 16 }
    ensures { AreImages F.ops F.coding.element 0 images.new }
{
    for i in 0..images.len() {
        images[i] = F::point(1 << i);
    }
}

// The twiddle factors of all blocks of at least 2^(from + 1) points.
fn fill_levels<F: Field>(
    twiddles: &mut [F],
    images: &mut [F],
    scaled: &mut [F],
    depth: u32,
    from: u32,
)
    requires subspace { IsSubspace F.ops F.coding.element depth }
    requires order { from ≤ depth }
    requires whole { length twiddles.old ≡ 2 ^ (depth - from) }
    requires images { length images.old ≡ depth }
    requires scaled { length scaled.old ≡ depth }
    requires are_images { AreImages F.ops F.coding.element from images.old }
    ensures { AreLevelTwiddles F.ops F.coding.element from depth twiddles.new }
{
    if from == depth {
        return;
    }
    let half = twiddles.len() / 2;
    let (low, high) = twiddles.split_at_mut(half);
    let rest = (depth - from - 1) as usize;
    normalize(images, scaled, from);
    fill_sums(&scaled[..rest], high);
    next_images(images, from);
    fill_levels(low, images, scaled, depth, from + 1);
}

// The normalized subspace polynomial at the points whose one bit comes after `from`: the images over that of
// point 2^from.
fn normalize<F: Field>(images: &[F], scaled: &mut [F], from: u32)
    requires few { length images.now ≤ 16 }
    requires images { HasImages F.ops F.coding.element from images.now }
    requires scaled { length scaled.old ≡ length images.now }
    ensures { (i : ℕ) → i + from + 1 < length images.now → entry F.ops scaled.new i ≡
        normalized F.ops F.coding.element from (F.coding.element (2 ^ (i + (from + 1)))) }
{
    let first = from as usize;
    let inverse = match images[first].inv() {
        Some(inverse) => inverse,
        None => unreachable!(),
    };
    for i in 0..images.len() - first - 1 {
        scaled[i] = images[first + 1 + i].mul(inverse);
    }
}

// At each place the sum of the images of its bits, which is the image of the sum of their points.
fn fill_sums<F: Field>(images: &[F], row: &mut [F])
    requires whole { length row.old ≡ 2 ^ length images.now }
    ensures { (h : ℕ → F) → h 0 ≡ F.ops.zero
        → ((i k : ℕ) → i < length images.now → k < 2 ^ i → h (2 ^ i + k) ≡ F.ops.plus (h (2 ^ i)) (h k))
        → ((i : ℕ) → i < length images.now → entry F.ops images.now i ≡ h (2 ^ i)) → (c : ℕ) → c < length row.new
        → entry F.ops row.new c ≡ h c }
{
    if images.is_empty() {
        row[0] = F::zero();
        return;
    }
    let last = images.len() - 1;
    let half = row.len() / 2;
    let (low, high) = row.split_at_mut(half);
    fill_sums(&images[..last], low);
    shifted(low, images[last], high);
}

// Writes the sums of the entries and one more element.
fn shifted<F: Field>(low: &[F], by: F, high: &mut [F])
    requires { length high.old ≡ length low.now }
    ensures { (i : ℕ) → i < length high.new → entry F.ops high.new i ≡ F.ops.plus by (entry F.ops low.now i) }
{
    for i in 0..high.len() {
        high[i] = by.add(low[i]);
    }
}

// The images under the next subspace polynomial, S(t) * (S(t) + S(point 2^from)).
fn next_images<F: Field>(images: &mut [F], from: u32)
    requires images { HasImages F.ops F.coding.element from images.old }
    requires binary { IsBinary F.ops F.coding.element (from + 1) }
    ensures { AreImages F.ops F.coding.element (from + 1) images.new }
{
    let here = images[from as usize];
    for i in 0..images.len() {
        images[i] = images[i].mul(images[i].add(here));
    }
}
