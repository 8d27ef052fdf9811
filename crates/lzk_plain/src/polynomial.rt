//! The value of a polynomial.

ghost use Rattle.std.specs.Prelude.{◌≡◌, List};
ghost use Rattle.lzk_poly.specs.Polynomial.{eval, power_sum};

use lzk_field::Field;

/// The sum of `coeffs[k] * t^k`, which is `coeffs[0] + t * (coeffs[1] + t * (..))`.
pub fn eval<F: Field>(coeffs: &[F], t: F) -> F
    ensures value { result ≡ power_sum F.ops coeffs.now t }
    ensures steps { result ≡ eval F.ops coeffs.now t }
    ensures same { (cs : List F) → (x : F) → power_sum F.ops cs x ≡ eval F.ops cs x }
{
    let mut value = F::zero();
    for i in (0..coeffs.len()).rev() {
        value = coeffs[i].add(t.mul(value));
    }
    value
}
