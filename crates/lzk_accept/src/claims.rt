//! The layers of a script, and the points at which claims on layers stand.

ghost use Rattle.std.specs.Prelude.{◌≡◌, ◌<◌, ◌≤◌, length};
ghost use Rattle.lzk_circuit.specs.Bits.{bits};
ghost use Rattle.lzk_layout.specs.Places.{depth, width_at, bits_under};
ghost use Rattle.lzk_sumcheck.specs.Script.{layer_at, point_a, point_b, HasBits};

use crate::exchange::Scripted;
use lzk_field::Field;
use lzk_sumcheck::LayerScript;

/// What layer `l` draws.
pub fn layer_of<'a, F: Field>(scripted: &Scripted<'a, F>, l: u32) -> &'a LayerScript<F>
    requires layer { l < depth scripted.now.circuit.now }
    ensures layer { result.now ≡ layer_at F.ops scripted.now.script.now l }
    ensures bits { HasBits (bits_under scripted.now.circuit.now l) result.now }
{
    let layers = scripted.script.layers.as_slice();
    &layers[l as usize]
}

/// The two points at which claims on layer `l` stand, the input layer being the one after the last.
pub fn points_on<'a, F: Field>(scripted: &Scripted<'a, F>, l: u32) -> (&'a [F], &'a [F])
    requires layer { l ≤ depth scripted.now.circuit.now }
    ensures first { result.0.now ≡ point_a F.ops scripted.now.script.now l }
    ensures second { result.1.now ≡ point_b F.ops scripted.now.script.now l }
    ensures first_length { length result.0.now ≡ bits (width_at scripted.now.circuit.now l) }
    ensures second_length { length result.1.now ≡ bits (width_at scripted.now.circuit.now l) }
{
    if l == 0 {
        let script = scripted.script;
        let point = script.out_point.as_slice();
        return (point, point);
    }
    let layer = layer_of(scripted, l - 1);
    (layer.ra.as_slice(), layer.rb.as_slice())
}
