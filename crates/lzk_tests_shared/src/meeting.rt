//! A gate that two workers pass.

use lzk_field::Gate;
use std::sync::atomic::{AtomicU64, Ordering};

/// A gate in which two workers look for each other.
#[derive(Drop)]
pub struct Meeting {
    first: AtomicU64,
    second: AtomicU64,
    first_saw: AtomicU64,
    second_saw: AtomicU64,
}

impl Meeting {
    /// A gate that nobody has passed.
    pub fn new() -> Meeting {
        Meeting {
            first: AtomicU64::new(0),
            second: AtomicU64::new(0),
            first_saw: AtomicU64::new(0),
            second_saw: AtomicU64::new(0),
        }
    }

    /// Whether each of the two saw the other.
    pub fn have_met(&self) -> bool {
        self.first_saw.load(Ordering::SeqCst) == 1 && self.second_saw.load(Ordering::SeqCst) == 1
    }
}

// Sets the worker's own flag, and looks for the other's. Only the first time counts.
fn meet(own: &AtomicU64, other: &AtomicU64, saw: &AtomicU64) {
    if own.swap(1, Ordering::SeqCst) == 1 {
        return;
    }
    for _ in 0..100_000_000u64 {
        if other.load(Ordering::SeqCst) == 1 {
            saw.store(1, Ordering::SeqCst);
            return;
        }
        std::hint::spin_loop();
    }
}

// One worker alone would look in vain, and more than two would find what others left.
impl Gate for Meeting {
    fn enter(&self, worker: usize, of: usize) {
        if of != 2 {
            return;
        }
        if worker == 0 {
            meet(&self.first, &self.second, &self.first_saw);
        } else {
            meet(&self.second, &self.first, &self.second_saw);
        }
    }
}
