//! Laws of the definitions, as contracts of functions that do nothing.

ghost use Rattle.std.specs.Prelude.{◌≡◌, ℕ, ◌<◌};
ghost use Rattle.lzk_field.specs.Sums.{sum_below};
ghost use Rattle.lzk_poly_ntt.specs.Transform.{cyclic_convolution, dft, inverse_dft, IsPrincipal};

use lzk_field::Field;

/// For a principal root `w` of order `n`, with the inverse `v`, the inverse transform undoes the
/// transform, and the inverse transform of the products of two transforms' values is the cyclic convolution.
///
/// The number of the entries must have an inverse in the field.
pub fn convolution_laws<F: Field>()
    ensures undone { (n : ℕ) → (w v : F) → IsPrincipal F.ops n w → F.ops.times w v ≡ F.ops.one
        → F.ops.times (sum_below F.ops n (λ j. F.ops.one)) (F.ops.inverse (sum_below F.ops n (λ j. F.ops.one)))
        ≡ F.ops.one
        → (x : ℕ → F) → (t : ℕ) → t < n
        → inverse_dft F.ops n v (λ j. dft F.ops n w x j) t ≡ x t }
    ensures conv { (n : ℕ) → (w v : F) → IsPrincipal F.ops n w → F.ops.times w v ≡ F.ops.one
        → F.ops.times (sum_below F.ops n (λ j. F.ops.one)) (F.ops.inverse (sum_below F.ops n (λ j. F.ops.one)))
        ≡ F.ops.one
        → (x y : ℕ → F) → (t : ℕ) → t < n
        → inverse_dft F.ops n v (λ j. F.ops.times (dft F.ops n w x j) (dft F.ops n w y j)) t
        ≡ cyclic_convolution F.ops n x y t }
{}
