//! The rule on the ticket word and the views of its seats, and the steps that keep it.

use atomic_table::{Join, Play, Split, TableRule};
use std::collections::LinkedList;

/// What a seat knows: the numbers that it drew, and how many more than one of them may be past all jobs. No value of it
/// is made.
pub(crate) struct View {
    pub drawn: LinkedList<u64>,
    pub spare: u64,
    pub is_spent: bool,
}

/// Each number is drawn once.
pub(crate) struct Once;

impl TableRule<u8, View, ()> for Once {
    ghost use Rattle.std.specs.Prelude.{[], false};
    ghost use Rattle.lzk_batch.specs.Tickets.{Rule, view_of};

    ghost holds = { λ _ s. Rule s.words s.views };

    ghost first = { λ _. view_of [] 63 false };
}

/// A draw: the seat learns the number that the word was.
pub(crate) struct Draws;

impl Play<u8, View> for Draws {
    ghost use Rattle.std.specs.Prelude.{◌≡◌, ◌<◌, [], ◌∷◌, ◌++◌, All};
    ghost use Rattle.lzk_batch.specs.Tickets.{view_of};

    ghost then = { λ _ me n after.
        All (λ x. x < n) me.0.drawn × (after ≡ (view_of (me.0.drawn ++ n ∷ []) me.0.spare me.0.is_spent, me.1)) };
}

/// A seat gives a share to a new one, or takes in another with its shares.
pub(crate) struct Shares;

impl Split<View> for Shares {
    ghost use Rattle.std.specs.Prelude.{[], false, ◌-◌};
    ghost use Rattle.lzk_batch.specs.Tickets.{view_of};

    ghost left = { λ v. view_of v.drawn (v.spare - 1) v.is_spent };

    ghost right = { λ _. view_of [] 0 false };
}

impl Join<View> for Shares {
    ghost use Rattle.std.specs.Prelude.{[], true, false, ◌+◌, ◌++◌};
    ghost use Rattle.lzk_batch.specs.Tickets.{view_of};

    ghost both = { λ v w. view_of (v.drawn ++ w.drawn) (v.spare + w.spare + 1) false };

    ghost spent = { view_of [] 0 true };
}
