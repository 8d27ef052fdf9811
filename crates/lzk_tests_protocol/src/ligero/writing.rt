//! What one prover writes in turn, by digests.

ghost use Rattle.std.specs.Prelude.{◌≡◌, ◌≤◌, length};
ghost use Rattle.lzk_layout.specs.Sizes.{params_of};

use crate::ligero::changes::count_changed;
use crate::ligero::vectors::Case;
use lzk_circuit::Circuit;
use lzk_field::{Field, Gate, Listed, Open, Seeded, Words};
use lzk_layout::Params;
use lzk_ligero::WorksOver;
use lzk_poly::RowExtend;
use sha2::{Digest, Sha256};
use std::alloc::{AllocError, Global};
use std::marker::Sync;
use std::thread::Threads;

/// What one prover writes in turn.
#[derive(Clone, Copy)]
pub struct Written {
    /// By 1, 2, 5, 7 and 64 workers.
    pub by_workers: ByWorkers,
    /// For a private input of 4.
    pub of_four: [u8; 32],
    /// What `prove` writes where no random word is listed.
    pub of_zeros: Result<[u8; 32], (u32, u128)>,
    /// What `prove` writes of so many words, all of whose bits are 1.
    pub of_ones: Result<[u8; 32], (u32, u128)>,
    /// How many of the changed proofs are those of the table.
    pub changed: u32,
    /// The output that `prove` names for a private input of 4, with its value's number.
    pub refused: Result<[u8; 32], (u32, u128)>,
    /// What `prove` writes after that.
    pub proved: Result<[u8; 32], (u32, u128)>,
}

/// What so many workers write.
#[derive(Clone, Copy)]
pub struct ByWorkers {
    pub one: [u8; 32],
    pub two: [u8; 32],
    pub five: [u8; 32],
    pub seven: [u8; 32],
    pub sixty_four: [u8; 32],
}

/// The inputs of a statement, and those with a private input of 4.
#[derive(Clone, Copy)]
pub struct Inputs<'a, F> {
    pub public: &'a [F],
    pub private: &'a [F],
    pub four: &'a [F],
}

// No random words, so that each is 0, and as many of the greatest as a proof of the square uses.
#[derive(Drop)]
struct Extremes {
    none: Listed,
    greatest: Listed,
}

const USED: usize = 3_016;

fn extreme_words(alloc: Global) -> Result<Extremes, AllocError> {
    let words = vec![in alloc; u128::MAX; USED]?;
    Ok(Extremes {
        none: Listed {
            words: Vec::new(alloc),
        },
        greatest: Listed { words },
    })
}

// What is written, whether the inputs satisfy the circuit or not.
fn attempted<R: Threads + Sync, F: Field, X: RowExtend<F>, W: Words, G: Gate>(
    rt: &R,
    works: &mut WorksOver<'_, F, X>,
    session: &[u8],
    public: &[F],
    private: &[F],
    words: &W,
    workers: usize,
    gate: &G,
) -> [u8; 32]
    requires session { length session.now ≤ 64 }
    requires public { length public.now ≡ works.old.publics }
    requires private { length private.now ≡ works.old.privates }
    requires some { 1 ≤ workers }
    requires few { workers ≤ 64 }
    ensures circuit { works.new ≡ works.old }
{
    let bytes = works.attempt(rt, session, public, private, words, workers, gate);
    Sha256::digest(bytes)
}

/// What `prove` writes, or the output that it names with its value's number.
pub fn answered<R: Threads + Sync, F: Field, X: RowExtend<F>, W: Words>(
    rt: &R,
    works: &mut WorksOver<'_, F, X>,
    session: &[u8],
    public: &[F],
    private: &[F],
    words: &W,
    workers: usize,
) -> Result<[u8; 32], (u32, u128)>
    requires session { length session.now ≤ 64 }
    requires public { length public.now ≡ works.old.publics }
    requires private { length private.now ≡ works.old.privates }
    requires some { 1 ≤ workers }
    requires few { workers ≤ 64 }
    ensures circuit { works.new ≡ works.old }
{
    match works.prove(rt, session, public, private, words, workers, &Open) {
        Ok(bytes) => Ok(Sha256::digest(bytes)),
        Err(fault) => Err((fault.output, fault.value.number())),
    }
}

// What several numbers of workers write.
fn by_workers<R: Threads + Sync, F: Field, X: RowExtend<F>, G: Gate>(
    rt: &R,
    works: &mut WorksOver<'_, F, X>,
    case: &Case,
    public: &[F],
    private: &[F],
    gate: &G,
) -> ByWorkers
    requires session { length case.now.session.now ≤ 64 }
    requires public { length public.now ≡ works.old.publics }
    requires private { length private.now ≡ works.old.privates }
    ensures circuit { works.new ≡ works.old }
{
    let words = Seeded::new(case.seed);
    let session = case.session;
    ByWorkers {
        one: attempted(rt, works, session, public, private, &words, 1, gate),
        two: attempted(rt, works, session, public, private, &words, 2, gate),
        five: attempted(rt, works, session, public, private, &words, 5, gate),
        seven: attempted(rt, works, session, public, private, &words, 7, gate),
        sixty_four: attempted(rt, works, session, public, private, &words, 64, gate),
    }
}

// All that is written by one prover, which passes the gate where several numbers of workers write.
fn write_all<R: Threads + Sync, F: Field, X: RowExtend<F>, G: Gate>(
    rt: &R,
    works: &mut WorksOver<'_, F, X>,
    params: &Params,
    case: &Case,
    inputs: &Inputs<'_, F>,
    extremes: &Extremes,
    gate: &G,
) -> Written
    requires params { params.now ≡ params_of works.old }
    requires session { length case.now.session.now ≤ 64 }
    requires public { length inputs.now.public.now ≡ works.old.publics }
    requires private { length inputs.now.private.now ≡ works.old.privates }
    requires four { length inputs.now.four.now ≡ works.old.privates }
{
    let words = Seeded::new(case.seed);
    let session = case.session;
    let (public, private, four) = (inputs.public, inputs.private, inputs.four);
    let (none, greatest) = (&extremes.none, &extremes.greatest);
    Written {
        by_workers: by_workers(rt, works, case, public, private, gate),
        of_four: attempted(rt, works, session, public, four, &words, 2, &Open),
        of_zeros: answered(rt, works, session, public, private, none, 2),
        of_ones: answered(rt, works, session, public, private, greatest, 2),
        changed: count_changed(rt, works, params, case, public, private),
        refused: answered(rt, works, session, public, four, &words, 2),
        proved: answered(rt, works, session, public, private, &words, 64),
    }
}

// What a prover over this circuit writes, also of these words.
fn written_of<R: Threads + Sync, F: Field, X: RowExtend<F>, G: Gate>(
    rt: &R,
    alloc: Global,
    circuit: &Circuit<F>,
    case: &Case,
    inputs: &Inputs<'_, F>,
    extremes: &Extremes,
    gate: &G,
) -> Result<Written, AllocError>
    requires session { length case.now.session.now ≤ 64 }
    requires public { length inputs.now.public.now ≡ circuit.now.publics }
    requires private { length inputs.now.private.now ≡ circuit.now.privates }
    requires four { length inputs.now.four.now ≡ circuit.now.privates }
{
    let params = Params::of(circuit);
    let mut works = WorksOver::<F, X>::new(alloc, circuit)?;
    let written = write_all(rt, &mut works, &params, case, inputs, extremes, gate);
    works.close();
    Ok(written)
}

/// What a prover over this circuit writes.
pub fn written_over<R: Threads + Sync, F: Field, X: RowExtend<F>, G: Gate>(
    rt: &R,
    alloc: Global,
    circuit: &Circuit<F>,
    case: &Case,
    inputs: &Inputs<'_, F>,
    gate: &G,
) -> Result<Written, AllocError>
    requires session { length case.now.session.now ≤ 64 }
    requires public { length inputs.now.public.now ≡ circuit.now.publics }
    requires private { length inputs.now.private.now ≡ circuit.now.privates }
    requires four { length inputs.now.four.now ≡ circuit.now.privates }
{
    let extremes = extreme_words(alloc)?;
    let written = written_of::<R, F, X, G>(rt, alloc, circuit, case, inputs, &extremes, gate);
    drop(extremes);
    written
}
