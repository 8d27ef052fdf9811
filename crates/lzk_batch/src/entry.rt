//! A job of a list.

/// The names of a job's files, and the bytes of its session.
#[derive(Debug, Drop)]
pub struct Entry {
    pub circuit: String,
    pub public: String,
    pub proof: String,
    pub session: Vec<u8>,
}
