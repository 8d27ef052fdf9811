//! What each proof has a fixed number of, and its limits.

pub use lzk_profile::{BLINDS, MOST_DIGESTS, MOST_ROWS, OPENED};
