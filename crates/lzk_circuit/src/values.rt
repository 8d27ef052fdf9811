//! The values of a circuit's wires.

ghost use Rattle.std.specs.Prelude.{◌≡◌, ◌<◌, ◌≤◌, ◌+◌, length, replicate, IfOk};
ghost use Rattle.lzk_circuit.specs.Checks.{HasRoom, checks_of};
ghost use Rattle.lzk_circuit.specs.Limits.{most_wires, most_total};
ghost use Rattle.lzk_circuit.specs.Wires.{all_values, inputs_of, list_at, AreLayerValues, IsFirstNonzero, AreZeros};
ghost use Rattle.lzk_field.specs.Sums.{entry};

use crate::checks::set_check_list;
use crate::circuit::Circuit;
use crate::eval::eval_lists;
use lzk_field::Field;
use std::alloc::{AllocError, Global};
use std::marker::Model;

/// Room for the value of each wire of a circuit, the inputs' last, and of each check.
#[derive(Drop)]
pub struct Values<F: Field> {
    lists: Vec<Vec<F>>,
    checks: Vec<F>,
}

impl<F: Field> Model for Values<F> {
    ghost use Rattle.std.specs.Prelude.{map, length, ◌≤◌, ◌+◌};
    ghost use Rattle.std.specs.List.{AllByRecursion};
    ghost use Rattle.lzk_circuit.specs.Checks.{Valuation};
    ghost use Rattle.lzk_circuit.specs.Limits.{most_wires, most_total, most_width};

    ghost Value = { Valuation F };

    ghost view = { λ v. record { wires = map (λ list. list.items) v.lists.items; checks = v.checks.items } };

    ghost invariant = { λ v.
        AllByRecursion (λ list. length list.items ≤ most_width) v.lists.items
        × (length v.checks.items ≤ most_wires + most_total) };
}

impl<F: Field> Values<F> {
    /// Room for this circuit. All wires and checks are 0 before the first `eval`. `Err` where there is no memory for
    /// it.
    pub fn new(alloc: Global, circuit: &Circuit<F>) -> Result<Values<F>, AllocError>
        ensures room { IfOk result (λ values. HasRoom F.coding.number circuit.now values) }
        ensures zeros { IfOk result (λ values. AreZeros F.ops values.wires) }
        ensures checks { IfOk result (λ values. (k : _) → entry F.ops values.checks k ≡ F.ops.zero) }
    {
        let count = circuit.depth() + 1;
        let mut lists = Vec::with_capacity(alloc, count as usize)?;
        for l in 0..count {
            lists.push(zeros(alloc, circuit.width(l) as usize)?)?;
        }
        let checks = zeros(alloc, circuit.checks() as usize)?;
        Ok(Values { lists, checks })
    }

    /// The value of wire `g` of layer `l`, the input layer being the one after the last.
    pub fn wire(&self, l: u32, g: u32) -> F
        requires layer { l < length self.now.wires }
        requires wire { g < length (list_at self.now.wires l) }
        ensures { result ≡ entry F.ops (list_at self.now.wires l) g }
    {
        self.lists[l as usize][g as usize]
    }

    /// The values of the wires of layer `l`, the input layer being the one after the last.
    pub fn layer(&self, l: u32) -> &[F]
        requires { l < length self.now.wires }
        ensures { result.now ≡ list_at self.now.wires l }
    {
        &self.lists[l as usize]
    }

    /// The value of check `k`: the outputs' checks come first, and then those of each layer from 1 on.
    pub fn check(&self, k: u32) -> F
        requires { k < length self.now.checks }
        ensures { result ≡ entry F.ops self.now.checks k }
    {
        self.checks[k as usize]
    }

    /// The values of the checks.
    pub fn checks(&self) -> &[F]
        ensures { result.now ≡ self.now.checks }
    {
        &self.checks
    }

    /// The first check that is not 0, with its value.
    pub fn first_nonzero(&self) -> Option<(u32, F)>
        ensures { IsFirstNonzero F.ops self.now.checks result }
    {
        find_nonzero(&self.checks)
    }
}

/// So many zeros. `Err` where there is no memory for them.
pub fn zeros<F: Field>(alloc: Global, count: usize) -> Result<Vec<F>, AllocError>
    ensures { IfOk result (λ list. list.items ≡ replicate count F.ops.zero) }
{
    let mut list = Vec::new(alloc);
    list.resize(count, F::zero())?;
    Ok(list)
}

// The first value that is not 0, and its place.
fn find_nonzero<F: Field>(checks: &[F]) -> Option<(u32, F)>
    requires { length checks.now ≤ most_wires + most_total }
    ensures { IsFirstNonzero F.ops checks.now result }
{
    for g in 0..checks.len() {
        let value = checks[g];
        if value.number() != 0 {
            return Some((g as u32, value));
        }
    }
    None
}

impl<F: Field> Circuit<F> {
    /// Sets each wire and each check to its value. The slices are as long as the circuit has public and private inputs,
    /// and
    /// `values` is room that was made for this circuit.
    pub fn eval(&self, public: &[F], private: &[F], values: &mut Values<F>)
        requires publics { length public.now ≡ self.now.publics }
        requires privates { length private.now ≡ self.now.privates }
        requires room { HasRoom F.coding.number self.now values.old }
        ensures wires { values.new.wires ≡ all_values F.ops self.now.layers (inputs_of F.ops public.now private.now) }
        ensures layers { AreLayerValues F.ops self.now.layers values.new.wires }
        ensures inputs { list_at values.new.wires (length self.now.layers) ≡ inputs_of F.ops public.now private.now }
        ensures checks { values.new.checks
            ≡ checks_of F.ops F.coding.number self.now.layers (inputs_of F.ops public.now private.now) }
        ensures room { HasRoom F.coding.number self.now values.new }
    {
        eval_lists(self.layers(), public, private, &mut values.lists);
        set_check_list(self.layers(), &values.lists, &mut values.checks);
    }
}
