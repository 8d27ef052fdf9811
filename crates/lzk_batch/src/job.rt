//! Jobs, and the verdicts on their proofs.

use lzk_field::Field;
use lzk_gf128::Gf128;
use lzk_goldilocks::Gold;
use lzk_verify::Verdict;

/// A proof's bytes, with what they are verified for.
#[derive(Drop)]
pub struct JobOf<F: Field> {
    /// The place of the circuit among those of the batch. Jobs may share one.
    pub circuit: u32,
    pub session: Vec<u8>,
    pub public: Vec<F>,
    pub proof: Vec<u8>,
}

/// A job over one of the two fields.
#[derive(Drop)]
pub enum Job {
    Gold(JobOf<Gold>),
    Gf(JobOf<Gf128>),
}

/// A verdict over one of the two fields.
#[derive(Clone, Copy, Debug, PartialEq, Eq)]
pub enum AnyVerdict {
    Gold(Verdict<Gold>),
    Gf(Verdict<Gf128>),
}

/// The number of a job, and the verdict on its proof.
#[derive(Clone, Copy, Debug, PartialEq, Eq)]
pub struct Judged {
    pub job: u32,
    pub verdict: AnyVerdict,
}
