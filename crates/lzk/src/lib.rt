//! Longfellow ZK for programs in Rattle: the names that a wallet or a service needs, under `use lzk::{..}`.
//!
//! The scheme is that of draft-google-cfrg-libzk over the commitment of Ligero (CCS 2017), as the profile in
//! docs/FORMATS.md has it. The functions below stand as they are in the program `lzk_example`, which the gate proves
//! and runs. What each call promises is said where it is declared.
//!
//! Compile a statement: a source names a field and its inputs and asserts equations.
//!
//! ```text
//! /// The file of a statement's circuit.
//! pub fn compile_file(alloc: Global, statement: &[u8]) -> anyhow::Result<Vec<u8>>
//!     requires { length statement.now ≤ 4194304 }
//! {
//!     let source = parse(alloc, statement)?;
//!     match compile(alloc, &source)? {
//!         AnyCircuit::Gold(circuit) => Ok(encode(alloc, &circuit)?),
//!         AnyCircuit::Gf(circuit) => Ok(encode(alloc, &circuit)?),
//!     }
//! }
//! ```
//!
//! Prove it: a prover takes all its memory at once and serves any number of inputs. The seed is 32 bytes that nobody
//! else can guess, new for each proof.
//!
//! ```text
//! // A proof by a prover, which serves any number of inputs.
//! fn prove_by<R: Threads + Sync + AllocGlobal>(
//!     rt: &R,
//!     prover: &mut GoldProver<'_>,
//!     session: &[u8],
//!     public: &[Gold],
//!     private: &[Gold],
//!     seed: [u8; 32],
//! ) -> anyhow::Result<Vec<u8>>
//!     requires session { length session.now ≤ 64 }
//!     requires public { length public.now ≡ prover.old.publics }
//!     requires private { length private.now ≡ prover.old.privates }
//! {
//!     match prover.prove(rt, session, public, private, &Seeded::new(seed), 4, &Open) {
//!         Ok(proof) => Ok(proof.to_vec(rt.alloc())?),
//!         Err(fault) => bail!("assert {} does not hold", fault.output),
//!     }
//! }
//!
//! /// The bytes of a proof. Four workers share the work.
//! pub fn prove_numbers<R: Threads + Sync + AllocGlobal>(
//!     rt: &R,
//!     circuit: &Circuit<Gold>,
//!     session: &[u8],
//!     public: &[Gold],
//!     private: &[Gold],
//!     seed: [u8; 32],
//! ) -> anyhow::Result<Vec<u8>>
//!     requires session { length session.now ≤ 64 }
//!     requires public { length public.now ≡ circuit.now.publics }
//!     requires private { length private.now ≡ circuit.now.privates }
//! {
//!     let mut prover = GoldProver::new(rt.alloc(), circuit)?;
//!     let proof = prove_by(rt, &mut prover, session, public, private, seed);
//!     prover.close();
//!     proof
//! }
//! ```
//!
//! Verify it, whole or as its bytes come: a verifier keeps no list of them, and serves any number of proofs.
//!
//! ```text
//! /// The verdict on a proof that lies in memory. A verifier serves any number of proofs.
//! pub fn verify_whole<F: Field>(
//!     verifier: &mut Verifier<'_, F>,
//!     session: &[u8],
//!     public: &[F],
//!     proof: &[u8],
//! ) -> Verdict<F>
//!     requires session { length session.now ≤ 64 }
//!     requires public { length public.now ≡ verifier.old.circuit.publics }
//!     ensures verdict { IsVerdict F.ops F.coding verifier.old.circuit session.now public.now proof.now result }
//!     ensures circuit { verifier.new.circuit ≡ verifier.old.circuit }
//! {
//!     verifier.verify(session, public, proof)
//! }
//!
//! /// The same of a proof that comes in pieces, as over a network.
//! pub fn verify_fed<F: Field>(
//!     verifier: &mut Verifier<'_, F>,
//!     session: &[u8],
//!     public: &[F],
//!     proof: &[u8],
//! ) -> Verdict<F>
//!     requires session { length session.now ≤ 64 }
//!     requires public { length public.now ≡ verifier.old.circuit.publics }
//!     ensures circuit { verifier.new.circuit ≡ verifier.old.circuit }
//! {
//!     verifier.open(session, public);
//!     for piece in proof.chunks(1000) {
//!         verifier.feed(piece);
//!     }
//!     verifier.end()
//! }
//! ```
//!
//! Verify many, by workers that share 256 jobs at most, over circuits of either field:
//!
//! ```text
//! /// A job over the circuit at this place of the list of circuits.
//! pub fn job_of(
//!     alloc: Global,
//!     circuit: u32,
//!     session: &[u8],
//!     public: &[Gold],
//!     proof: &[u8],
//! ) -> Result<Job, AllocError> {
//!     let session = session.to_vec(alloc)?;
//!     let public = public.to_vec(alloc)?;
//!     let proof = proof.to_vec(alloc)?;
//!     Ok(Job::Gold(JobOf {
//!         circuit,
//!         session,
//!         public,
//!         proof,
//!     }))
//! }
//!
//! /// The verdicts on all jobs, in their order, by four workers.
//! pub fn verify_many<R: Threads + Sync + AllocGlobal>(
//!     rt: &R,
//!     circuits: &[AnyCircuit],
//!     jobs: &[Job],
//! ) -> anyhow::Result<Vec<AnyVerdict>>
//!     ensures { IfOk result (λ verdicts. HaveVerdicts circuits.now jobs.now verdicts.items) }
//! {
//!     if jobs.len() > 256 || !are_fit(circuits, jobs) {
//!         bail!("a job does not fit its circuit");
//!     }
//!     Ok(verify_all(rt, rt.alloc(), circuits, jobs, 4, &Open)?)
//! }
//! ```
//!
//! A statement can also be made of gadgets, by [`Statement`], of small circuits among them, by [`assert_circuit`], and
//! of circuits that share inputs, by [`beside`], or by [`beside_any`] where they assert within their layers.
#![tactic(auto)]

mod fit;

pub use crate::fit::{are_fit, is_fit};
use lzk_afft::Transform;
pub use lzk_batch::{AnyVerdict, Job, JobOf, verify_all};
pub use lzk_circbytes::{AnyCircuit, DecodeError, decode, encode, id};
pub use lzk_circuit::Circuit;
pub use lzk_circuit_beside::{AnyPart, BesideError, Part, beside, beside_any};
pub use lzk_expr::{NumberError, Source, SourceError, read_numbers};
pub use lzk_field::{Field, Gate, Open, Seeded, Words};
pub use lzk_gadgets::{Statement, assert_circuit, private_nodes, public_nodes};
pub use lzk_gf128::Gf128;
pub use lzk_goldilocks::{Drawn, Gold};
pub use lzk_level::{LevelError, Node};
pub use lzk_ligero::Unsatisfied;
use lzk_ligero::WorksOver;
use lzk_poly_ntt::NttExtender;
pub use lzk_source::{compile, compile_v2, parse, values};
pub use lzk_verify::{Desk as Verifier, Verdict};

/// A prover over a circuit over the prime field, with the fastest extension of rows. Its random words are to be those
/// of [`Drawn`], which in LZK1 are the words of its source as they are.
pub type GoldProver<'c> = WorksOver<'c, Gold, NttExtender<Gold>>;

/// A prover over a circuit over GF(2^128), with the fastest extension of rows.
pub type GfProver<'c> = WorksOver<'c, Gf128, Transform>;
