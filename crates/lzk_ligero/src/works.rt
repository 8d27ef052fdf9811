//! The prover.

ghost use Rattle.std.specs.Prelude.{◌≡◌, ◌≢◌, ◌≤◌, ◌<◌, length, take, IfOk, MatchResult, Some, None};
ghost use Rattle.std.specs.Borrow.{sem};
ghost use Rattle.lzk_circbytes.specs.Files.{id_of};
ghost use Rattle.lzk_field.specs.Sums.{entry};
ghost use Rattle.lzk_circuit.specs.Checks.{checks_of, IsSatisfied};
ghost use Rattle.lzk_circuit.specs.Wires.{all_values, inputs_of, IsFirstNonzero};
ghost use Rattle.lzk_ligero_proof.specs.Changed.{IsSentPlace};
ghost use Rattle.lzk_ligero_proof.specs.Proving.{IsChangedFile, IsFileBy, IsProofFile, words_of};
ghost use Rattle.lzk_ligero_proof.specs.AnyInputs.{AllButSum};
ghost use Rattle.lzk_ligero_proof.specs.Refused.{IsRefused};
ghost use Rattle.lzk_verify.specs.Verdict.{IsVerdict};
ghost use Rattle.lzk_verify.specs.declared.verdict.Verdict.TheVariants.{Accepted};
ghost use Rattle.lzk_layout.specs.Sizes.{params_of};
ghost use Rattle.lzk_ligero.specs.Changes.{change_of, IsChangeOf};
ghost use Rattle.lzk_ligero_steps.specs.Parts.{ArePartsFor};

use crate::changing::Change;
use crate::proving::write;
use lzk_circbytes::id;
use lzk_circuit::Circuit;
use lzk_field::{Field, Gate, Words};
use lzk_layout::Plan;
use lzk_ligero_proof::{Answer, accepted_laws, checked_laws, refused_laws};
use lzk_ligero_steps::{Parts, Unsatisfied};
use lzk_ligero_tableau::Given;
use lzk_poly::RowExtend;
use lzk_work_crew::Crew;
use lzk_work_threads::Hands;
use std::alloc::{AllocError, Global};
use std::marker::Model;

/// A prover over one circuit, which extends rows by X.
///
/// All memory is taken by `new`, and a prover serves any number of inputs.
#[derive(Drop)]
pub struct WorksOver<'c, F: Field, X: RowExtend<F>> {
    circuit: &'c Circuit<F>,
    parts: Parts<F, X>,
}

impl<'c, F: Field, X: RowExtend<F>> Model for WorksOver<'c, F, X> {
    ghost use Rattle.lzk_circuit.specs.Valid.{Wiring};
    ghost use Rattle.lzk_ligero_steps.specs.Parts.{ArePartsFor};

    ghost Value = { Wiring F };

    ghost view = { λ w. w.circuit.now };

    ghost invariant = { λ w. ArePartsFor F.ops F.coding X.reach X.rooms w.circuit.now w.parts };
}

impl<'c, F: Field, X: RowExtend<F>> WorksOver<'c, F, X> {
    ghost use Rattle.lzk_ligero.specs.Lending.{StaysForCircuit};

    /// A prover over this circuit.
    ///
    /// # Errors
    ///
    /// `AllocError` where the memory for wires, rows, tree, sumchecks, answers and proof is not given.
    pub fn new(alloc: Global, circuit: &'c Circuit<F>) -> Result<WorksOver<'c, F, X>, AllocError>
        ensures { IfOk result (λ works. works ≡ circuit.now) }
    {
        let id = id(alloc, circuit)?;
        WorksOver::with_id(alloc, circuit, id)
    }

    /// A prover over a circuit whose id is known, as SHA-256 of the file that it was read from.
    ///
    /// # Errors
    ///
    /// As `new`.
    pub fn with_id(
        alloc: Global,
        circuit: &'c Circuit<F>,
        id: [u8; 32],
    ) -> Result<WorksOver<'c, F, X>, AllocError>
        requires id { id ≡ id_of F.coding circuit.now }
        ensures { IfOk result (λ works. works ≡ circuit.now) }
    {
        let parts = Parts::new(alloc, circuit, id)?;
        Ok(WorksOver { circuit, parts })
    }

    /// Gives the prover's memory back, as dropping it does. A caller who ends a prover so owes no proof of how its
    /// parts end.
    pub fn close(self) {
        drop(self);
    }

    /// The bytes of the proof's file, whether the inputs satisfy the circuit or not. It is there for tests, and does
    /// what
    /// `prove` does for inputs that satisfy it. No memory is taken.
    pub fn attempt<R: Hands, W: Words, G: Gate>(
        &mut self,
        rt: &R,
        session: &[u8],
        public: &[F],
        private: &[F],
        words: &W,
        workers: usize,
        gate: &G,
    ) -> &[u8]
        requires session { length session.now ≤ 64 }
        requires public { length public.now ≡ self.old.publics }
        requires private { length private.now ≡ self.old.privates }
        requires some { 1 ≤ workers }
        requires most { workers ≤ 64 }
        ensures* same { sem 𝓛 (StaysForCircuit F.row X.row F.Field X.RowExtend self.entry) }
        ensures file { IsProofFile F.ops F.coding self.old session.now public.now private.now
            (words_of (W.at words.now)) result.now }
        ensures checked { AllButSum F.ops F.coding self.old session.now public.now result.now }
    {
        checked_laws::<F>();
        self.circuit.valid_laws();
        let plan = Plan {
            circuit: self.circuit,
            params: self.parts.params,
        };
        let given = Given {
            plan: &plan,
            session,
            public,
            private,
            words,
        };
        self.parts.evaluate(&given);
        let crew = Crew { rt, gate, workers };
        let len = write(&crew, &given, None, &mut self.parts);
        &self.parts.answering.bytes[..len]
    }

    /// The bytes of the proof's file where `by` was added to one value of an answer before the columns were drawn. It
    /// is there for tests of verifiers: what is opened is that of the changed answers, so that one check alone refuses
    /// it. No memory is taken.
    pub fn attempt_changed<R: Hands, W: Words, G: Gate>(
        &mut self,
        rt: &R,
        session: &[u8],
        public: &[F],
        private: &[F],
        words: &W,
        workers: usize,
        gate: &G,
        answer: Answer,
        place: u32,
        by: F,
    ) -> &[u8]
        requires session { length session.now ≤ 64 }
        requires public { length public.now ≡ self.old.publics }
        requires private { length private.now ≡ self.old.privates }
        requires some { 1 ≤ workers }
        requires most { workers ≤ 64 }
        requires place { IsSentPlace (params_of self.old) answer place }
        ensures* same { sem 𝓛 (StaysForCircuit F.row X.row F.Field X.RowExtend self.entry) }
        ensures file { IsChangedFile F.ops F.coding self.old session.now public.now private.now
            (words_of (W.at words.now)) answer place by result.now }
        ensures refused { IsSatisfied F.ops F.coding.number self.old.layers (inputs_of F.ops public.now private.now)
            → by ≢ F.ops.zero
            → IsRefused F.ops F.coding self.old session.now public.now answer place by result.now }
    {
        refused_laws::<F>();
        self.circuit.valid_laws();
        let plan = Plan {
            circuit: self.circuit,
            params: self.parts.params,
        };
        let given = Given {
            plan: &plan,
            session,
            public,
            private,
            words,
        };
        self.parts.evaluate(&given);
        let crew = Crew { rt, gate, workers };
        let change = Some(Change { answer, place, by });
        let len = write(&crew, &given, change, &mut self.parts);
        &self.parts.answering.bytes[..len]
    }

    /// The bytes of the proof's file, or the first check that is not 0. No memory is taken.
    ///
    /// # Errors
    ///
    /// `Unsatisfied` where a check is not 0. The prover may be used again.
    pub fn prove<R: Hands, W: Words, G: Gate>(
        &mut self,
        rt: &R,
        session: &[u8],
        public: &[F],
        private: &[F],
        words: &W,
        workers: usize,
        gate: &G,
    ) -> Result<&[u8], Unsatisfied<&F>>
        requires session { length session.now ≤ 64 }
        requires public { length public.now ≡ self.old.publics }
        requires private { length private.now ≡ self.old.privates }
        requires some { 1 ≤ workers }
        requires most { workers ≤ 64 }
        ensures* same { sem 𝓛 (StaysForCircuit F.row X.row F.Field X.RowExtend self.entry) }
        ensures proved { MatchResult result (λ bytes.
            IsFirstNonzero F.ops
            (checks_of F.ops F.coding.number self.old.layers (inputs_of F.ops public.now private.now)) None
            × IsProofFile F.ops F.coding self.old session.now public.now private.now (words_of (W.at words.now))
            bytes.now) (λ fault.
            IsFirstNonzero F.ops
            (checks_of F.ops F.coding.number self.old.layers (inputs_of F.ops public.now private.now))
            (Some (fault.output, fault.value.now))) }
        ensures accepted { IfOk result (λ bytes. IsVerdict F.ops F.coding self.old session.now public.now
            bytes.now Accepted) }
    {
        let plan = Plan {
            circuit: self.circuit,
            params: self.parts.params,
        };
        let given = Given {
            plan: &plan,
            session,
            public,
            private,
            words,
        };
        if let Some(output) = self.parts.evaluate(&given) {
            return Err(self.parts.fault(output));
        }
        accepted_laws::<F>();
        self.circuit.valid_laws();
        let crew = Crew { rt, gate, workers };
        let len = write(&crew, &given, None, &mut self.parts);
        Ok(&self.parts.answering.bytes[..len])
    }
}
