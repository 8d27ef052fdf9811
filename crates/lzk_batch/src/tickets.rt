//! Tickets and passes.

ghost use Rattle.std.specs.Prelude.{◌≡◌, ℕ, ◌+◌, ◌-◌, ◌≤◌, ◌<◌, [], ◌∷◌, ◌++◌, All, IfOk, IfSome, IfNone, IsOk, length, vec_len};
ghost use Rattle.lzk_batch.specs.Tickets.{late, most_jobs, most_workers, HasEachBelowOnce};
ghost use Rattle.lzk_batch.specs.Passes.{TicketsState, PassState, IsOf, IsOpen, HasDrawnNothing, AreAll, drawn_of, shares_of, with_number, fresh, joined};

use crate::rule::{Draws, Once, Shares, View};
use atomic_table::{Seat, Table};
use std::alloc::{AllocError, Global};
use std::marker::Model;

// The table of the ticket word.
type Word = Table<u8, View, (), Once, Global>;

/// The numbers of jobs, each of which is drawn once.
#[derive(Drop)]
pub struct Tickets {
    word: Word,
    jobs: u32,
}

impl Model for Tickets {
    ghost use Rattle.std.specs.Prelude.{◌≡◌, ◌≤◌};
    ghost use Rattle.lzk_batch.specs.Tickets.{most_jobs};
    ghost use Rattle.lzk_batch.specs.Passes.{TicketsState, tickets_of};

    ghost Value = { TicketsState };

    ghost view = { λ t. tickets_of t.word.shared.table_id t.jobs };

    ghost invariant = { λ t.
        (t.word.shared.table_id.words ≡ 1) × (t.word.shared.table_id.slots ≡ 0) × (t.jobs ≤ most_jobs) };
}

/// What a worker draws with.
#[derive(Drop)]
pub struct Pass {
    seat: Seat<u8, View>,
}

impl Model for Pass {
    ghost use Rattle.std.specs.Prelude.{◌≡◌, [], false};
    ghost use Rattle.lzk_batch.specs.Passes.{PassState, pass_of};

    ghost Value = { PassState };

    ghost view = { λ p. pass_of p.seat.table_id p.seat.me.0 };

    ghost invariant = { λ p. (p.seat.me.1 ≡ []) × (p.seat.me.0.is_spent ≡ false) };
}

impl Pass {
    // Gives one share to a new pass.
    fn split_off(&mut self, tickets: &Tickets) -> Pass
        requires of { IsOf tickets.now self.old }
        requires some { 1 ≤ self.old.spare }
        requires fresh { self.old.drawn ≡ [] }
        ensures left { self.new ≡ fresh tickets.now.table (self.old.spare - 1) }
        ensures new { result ≡ fresh tickets.now.table 0 }
    {
        Pass {
            seat: tickets.word.shared.split_seat::<Shares>(&mut self.seat),
        }
    }

    // Takes in another pass.
    fn join_in(&mut self, tickets: &Tickets, other: Pass)
        requires of { IsOf tickets.now self.old × IsOf tickets.now other }
        ensures both { self.new ≡ joined self.old other }
    {
        tickets
            .word
            .shared
            .join_seat::<Shares>(&mut self.seat, other.seat);
    }
}

impl Tickets {
    // Tickets, and the pass that has every share.
    fn open(alloc: Global, jobs: u32) -> Result<(Tickets, Pass), AllocError>
        requires jobs { jobs ≤ most_jobs }
        ensures jobs { IfOk result (λ r. r.0.jobs ≡ jobs) }
        ensures whole { IfOk result (λ r. r.1 ≡ fresh r.0.table 63) }
    {
        let (word, seat) = Word::of_words(alloc, &[0], &())?;
        Ok((Tickets { word, jobs }, Pass { seat }))
    }

    /// Tickets for so many jobs, with a pass for each worker.
    ///
    /// # Errors
    ///
    /// `AllocError` where the memory for the word or for the passes is not given.
    pub fn deal(
        alloc: Global,
        jobs: u32,
        workers: usize,
    ) -> Result<(Tickets, Vec<Pass>), AllocError>
        requires jobs { jobs ≤ most_jobs }
        requires some { 1 ≤ workers }
        requires few { workers ≤ most_workers }
        ensures jobs { IfOk result (λ r. r.0.jobs ≡ jobs) }
        ensures passes { IfOk result (λ r. vec_len r.1 ≡ workers) }
        ensures all { IfOk result (λ r. AreAll r.0 r.1.items) }
        ensures fresh { IfOk result (λ r. All HasDrawnNothing r.1.items) }
    {
        let Ok((tickets, mut first)) = Tickets::open(alloc, jobs) else {
            return Err(AllocError);
        };
        let Ok(mut passes) = Vec::with_capacity(alloc, workers) else {
            return Err(AllocError);
        };
        while passes.len() + 1 < workers {
            let Ok(()) = passes.push(first.split_off(&tickets)) else {
                return Err(AllocError);
            };
        }
        let Ok(()) = passes.push(first) else {
            return Err(AllocError);
        };
        Ok((tickets, passes))
    }

    /// How many jobs they were dealt for.
    pub fn jobs(&self) -> u32
        ensures { result ≡ self.now.jobs }
    {
        self.jobs
    }

    /// Draws the next number, which the pass keeps: Some where it is a job's. A pass that has drawn None draws no more.
    pub fn draw(&self, pass: &mut Pass) -> Option<u32>
        requires of { IsOf self.now pass.old }
        requires open { IsOpen self.now pass.old }
        ensures some { IfSome result (λ n. (n < self.now.jobs) × (pass.new ≡ with_number pass.old n)) }
        ensures none { IfNone result ((n : ℕ) × (self.now.jobs ≤ n) × (pass.new ≡ with_number pass.old n)) }
        ensures ascends { IfSome result (λ n. All (λ x. x < n) pass.old.drawn) }
    {
        let number = self.word.shared.fetch_add::<Draws>(&mut pass.seat, 0, 1);
        if number < u64::from(self.jobs) {
            Some(number as u32)
        } else {
            None
        }
    }

    /// Takes in all passes, and gives the first number that was not drawn. No memory is taken, so this is always Ok.
    ///
    /// # Errors
    ///
    /// None: see above.
    pub fn gather(self, mut passes: Vec<Pass>) -> Result<u64, AllocError>
        requires all { AreAll self passes.items }
        ensures once { IfOk result (λ word. HasEachBelowOnce word (drawn_of passes.items)) }
        ensures always { IsOk result }
    {
        let Some(mut all) = passes.pop() else {
            unreachable!()
        };
        while let Some(pass) = passes.pop() {
            all.join_in(&self, pass);
        }
        Ok(self.close(all))
    }

    // The word at the end.
    fn close(self, pass: Pass) -> u64
        requires of { IsOf self pass }
        requires whole { pass.spare ≡ 63 }
        ensures { HasEachBelowOnce result pass.drawn }
    {
        let closed = self.word.close_with(pass.seat);
        let word = closed.word(0);
        closed.free();
        word
    }
}
