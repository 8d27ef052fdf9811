//! What a command works with.

use std::alloc::Global;

/// The runtime that starts workers, the memory, and the gate that workers pass.
#[derive(Drop)]
pub struct Means<'a, R, G> {
    pub rt: &'a R,
    pub alloc: Global,
    pub gate: &'a G,
}
