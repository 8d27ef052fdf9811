//! Commitment to a proof's rows, by workers.
//!
//! As in Ligero (CCS 2017) and draft-google-cfrg-libzk, a prover commits to the columns of its extended rows by a tree.
//! `lzk_ligero_tableau` has what one thread does for it; here rows and leaves are shared out in chunks. A caller writes
//!
//! ```text
//! let plan = Plan::of(&circuit);
//! let room = extenders.short.room_len().max(extenders.long.room_len());
//! let mut tableau = Tableau::new(alloc, &circuit, room)?;
//! let mut tree = Tree::new(alloc, plan.params.mcol)?;
//! let crew = Crew { rt: &rt, gate: &Open, workers: 4 };
//! let given = Given { plan: &plan, session: &session, public: &public, private: &private, words: &words };
//! let root = commit(&crew, &given, &extenders, &mut tableau, &mut tree);
//! ```
#![tactic(auto)]

mod committing;
mod filling;
mod hashing;
mod rows;

pub use committing::commit;
