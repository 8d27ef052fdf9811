//! Valid circuits.

ghost use Rattle.std.specs.Prelude.{◌≡◌, ◌⊎◌, ◌<◌, ◌≤◌, length, slice_get, slice_index_or, Some, MatchResult};
ghost use Rattle.lzk_circuit.specs.Checks.{check_count};
ghost use Rattle.lzk_circuit.specs.Faults.{first_fault};
ghost use Rattle.lzk_circuit.specs.Valid.{IsValid, wiring, wiring_of, widths};

use crate::check::{check_counts, check_layers};
use crate::checks::count_checks;
use crate::fault::CircuitFault;
use crate::layer::Layer;
use lzk_field::Field;
use std::marker::Model;

/// A valid circuit: its counts are within the limits, and each layer's terms ascend strictly by (g, a, b) and stay in
/// range, with a at most b.
/// In version 1 no coefficient is zero; in version 2 a coefficient may be zero where its term is the only one of its g.
#[derive(Drop)]
pub struct Circuit<F: Field> {
    version: u8,
    publics: u32,
    privates: u32,
    layers: Vec<Layer<F>>,
}

impl<F: Field> Model for Circuit<F> {
    ghost use Rattle.lzk_circuit.specs.Valid.{Wiring, IsValid, wiring_of};

    ghost Value = { Wiring F };

    ghost view = { λ c. wiring_of c.version c.publics c.privates c.layers.items };

    ghost invariant = { λ c. IsValid F.ops (wiring_of c.version c.publics c.privates c.layers.items) };
}

impl<F: Field> Circuit<F> {
    /// The circuit of version 1 or 2 with these layers, the outputs' first. The layers are dropped on a refusal.
    pub fn of_version(
        version: u8,
        publics: u32,
        privates: u32,
        layers: Vec<Layer<F>>,
    ) -> Result<Circuit<F>, CircuitFault>
        requires { (version ≡ 1) ⊎ (version ≡ 2) }
        ensures circuit { MatchResult result
            (λ c. c ≡ wiring_of version publics privates layers.items)
            (λ fault. first_fault F.coding.number version publics privates layers.items ≡ Some fault) }
        ensures valid { MatchResult result
            (λ c. IsValid F.ops (wiring_of version publics privates layers.items))
            (λ fault. ¬ IsValid F.ops (wiring_of version publics privates layers.items)) }
    {
        check_counts(publics, privates, layers.len())?;
        check_layers(version, 1 + publics + privates, &layers)?;
        Ok(Circuit {
            version,
            publics,
            privates,
            layers,
        })
    }

    /// The circuit with these layers, which the caller knows to be valid. Nothing is looked at.
    pub fn of_valid(version: u8, publics: u32, privates: u32, layers: Vec<Layer<F>>) -> Circuit<F>
        requires layers { IsValid F.ops (wiring_of version publics privates layers.items) }
        ensures circuit { result ≡ wiring_of version publics privates layers.items }
        ensures valid { IsValid F.ops result }
    {
        Circuit {
            version,
            publics,
            privates,
            layers,
        }
    }

    /// The circuit of version 1 with these layers, the outputs' first. The layers are dropped on a refusal.
    pub fn of_layers(
        publics: u32,
        privates: u32,
        layers: Vec<Layer<F>>,
    ) -> Result<Circuit<F>, CircuitFault>
        ensures circuit { MatchResult result
            (λ c. c ≡ wiring publics privates layers.items)
            (λ fault. first_fault F.coding.number 1 publics privates layers.items ≡ Some fault) }
        ensures valid { MatchResult result
            (λ c. IsValid F.ops (wiring publics privates layers.items))
            (λ fault. ¬ IsValid F.ops (wiring publics privates layers.items)) }
    {
        Circuit::of_version(1, publics, privates, layers)
    }

    /// The circuit of version 2 with these layers, the outputs' first. The layers are dropped on a refusal.
    pub fn of_layers_v2(
        publics: u32,
        privates: u32,
        layers: Vec<Layer<F>>,
    ) -> Result<Circuit<F>, CircuitFault>
        ensures circuit { MatchResult result
            (λ c. c ≡ wiring_of 2 publics privates layers.items)
            (λ fault. first_fault F.coding.number 2 publics privates layers.items ≡ Some fault) }
        ensures valid { MatchResult result
            (λ c. IsValid F.ops (wiring_of 2 publics privates layers.items))
            (λ fault. ¬ IsValid F.ops (wiring_of 2 publics privates layers.items)) }
    {
        Circuit::of_version(2, publics, privates, layers)
    }

    /// 1 or 2.
    pub fn version(&self) -> u8
        ensures version { result ≡ self.now.version }
        ensures valid { IsValid F.ops self.now }
    {
        self.version
    }

    /// The circuit of version 2 with the same inputs and layers. It takes no memory.
    pub fn upgraded(self) -> Circuit<F>
        ensures { result ≡ wiring_of 2 self.publics self.privates self.layers }
    {
        Circuit {
            version: 2,
            publics: self.publics,
            privates: self.privates,
            layers: self.layers,
        }
    }

    /// A circuit is valid: a law, for callers that see its value alone. Nothing is done.
    pub fn valid_laws(&self)
        ensures { IsValid F.ops self.now }
    {
        let _ = &self.layers;
    }

    /// How many checks there are: one for each output, and one for each assertion wire of the layers below.
    pub fn checks(&self) -> u32
        ensures { result ≡ check_count F.coding.number self.now.layers }
    {
        count_checks(self.layers())
    }

    /// How many public inputs there are.
    pub fn publics(&self) -> u32
        ensures { result ≡ self.now.publics }
    {
        self.publics
    }

    /// How many private inputs there are.
    pub fn privates(&self) -> u32
        ensures { result ≡ self.now.privates }
    {
        self.privates
    }

    /// How many layers there are, the input layer not counted.
    pub fn depth(&self) -> u32
        ensures depth { result ≡ length self.now.layers }
        ensures valid { IsValid F.ops self.now }
    {
        self.layers.len() as u32
    }

    /// Layer `l`, the outputs' being layer 0.
    pub fn layer(&self, l: u32) -> &Layer<F>
        requires { l < length self.now.layers }
        ensures { slice_get self.now.layers l ≡ Some result.now }
    {
        &self.layers[l as usize]
    }

    // The layers, the outputs' first.
    pub(crate) fn layers(&self) -> &[Layer<F>]
        ensures layers { result.now ≡ self.now.layers }
        ensures valid { IsValid F.ops self.now }
    {
        &self.layers
    }

    /// How many wires layer `l` has, the input layer being the one after the last.
    pub fn width(&self, l: u32) -> u32
        requires { l ≤ length self.now.layers }
        ensures { result ≡ slice_index_or (widths self.now) l 0 }
    {
        if (l as usize) < self.layers.len() {
            self.layers[l as usize].wires
        } else {
            1 + self.publics + self.privates
        }
    }
}
