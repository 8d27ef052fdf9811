//! What the inputs give behind the last layer.

ghost use Rattle.lzk_profile.specs.Profile.{most_bits, most_width};
ghost use Rattle.std.specs.Prelude.{◌≡◌, ◌+◌, ◌*◌, ◌^◌, ◌≤◌, length};
ghost use Rattle.lzk_circuit.specs.Wires as wires;
ghost use Rattle.lzk_mle.specs.Multilinear.{tilde};
ghost use Rattle.lzk_layout.specs.Places.{depth};
ghost use Rattle.lzk_sumcheck.specs.Script.{point_a, point_b};
ghost use Rattle.lzk_accept.specs.Residuals.{inputs_at};

use crate::bound::eq_of;
use crate::witnessed::Witnessed;
use lzk_accept::points_on;
use lzk_circuit::set_inputs;
use lzk_field::Field;

// The extension of the values at the point.
fn extension_of<F: Field>(values: &[F], r: &[F]) -> F
    requires few { length values.now ≤ most_width }
    ensures { result ≡ tilde F.ops values.now r.now }
{
    let mut total = F::zero();
    for k in 0..values.len() {
        total = total.add(eq_of(k as u32, r).mul(values[k]));
    }
    total
}

/// The extension of the inputs at the two points at which claims on them stand, those at the second one times gamma.
/// `room` has 262,144 places in LZK1, twice as many as there are numbers of so many bits as number wires.
pub(crate) fn inputs_of<F: Field>(witnessed: &Witnessed<'_, F>, room: &mut [F]) -> F
    requires room { length room.old ≡ 2 * 2 ^ most_bits }
    ensures value { let o = F.ops in
        let e = witnessed.now.exchange in
        let s = e.scripted.script.now in
        let l = depth e.scripted.circuit.now in
        let at = inputs_at o e.scripted.circuit.now e.public.now witnessed.now.w.now in
        result ≡ o.plus (at (point_a o s l)) (o.times s.gamma (at (point_b o s l))) }
    ensures room { length room.new ≡ length room.old }
{
    let exchange = &witnessed.exchange;
    let scripted = &exchange.scripted;
    let script = scripted.script;
    let depth = scripted.circuit.depth();
    let public = exchange.public;
    let private = &witnessed.w[..scripted.circuit.privates() as usize];
    let (values, _) = room.split_at_mut(1 + public.len() + private.len());
    set_inputs(public, private, values);
    let (a, b) = points_on(scripted, depth);
    let first = extension_of(values, a);
    let second = extension_of(values, b);
    first.add(script.gamma.mul(second))
}
