//! The numbers of rounds, and of words of a state.

ghost use Rattle.std.specs.Prelude.{◌<◌, ◌≤◌};

/// The number of a round.
#[derive(Clone, Copy)]
pub(crate) struct Round {
    pub t: u32,
    pub ghost high: { t < 64 },
}

/// The number of a round whose word follows from the words before it.
#[derive(Clone, Copy)]
pub(crate) struct LaterRound {
    pub t: u32,
    pub ghost low: { 16 ≤ t },
    pub ghost high: { t < 64 },
}

/// The number of a word of a state.
#[derive(Clone, Copy)]
pub(crate) struct StateWord {
    pub i: u32,
    pub ghost high: { i < 8 },
}
