//! Who does a proof's work: where threads come from, what each worker passes, and how many workers there are.
//!
//! The facts about the number stand with it, so that no function that is handed a crew asks for them. A caller writes
//!
//! ```text
//! let crew = Crew { rt: &rt, gate: &Open, workers: 4 };
//! ```
#![tactic(auto)]

ghost use Rattle.std.specs.Prelude.{◌≤◌};

/// The workers that a proof's work may be shared out among.
#[derive(Drop)]
pub struct Crew<'a, R, G> {
    /// What starts threads.
    pub rt: &'a R,
    /// What each worker enters before its chunk of the rows.
    pub gate: &'a G,
    /// How many workers there are at most.
    pub workers: usize,
    pub ghost some: { 1 ≤ workers },
    pub ghost few: { workers ≤ 64 },
}
