//! Why a call gives nothing.

ghost use Rattle.std.specs.Prelude.{◌≡◌};
ghost use Rattle.lzk_policy_calls.specs.declared.refusal.PolicyRefusal.TheVariants.{OutOfMemory};

use lzk_policy::PolicyFault;
use lzk_policy_texts::ValuesFault;
use std::alloc::AllocError;

/// Why a call gives nothing. What is shown is counted from 0, without the digest or the root.
#[derive(Clone, Copy)]
pub enum PolicyRefusal {
    /// A text has more than 65,536 bytes.
    TooLong,
    /// The text is no policy.
    NoPolicy(PolicyFault),
    /// The policy's circuit would pass a limit.
    OverLimit,
    /// The policy wants a secret of so many bytes: 16, or none.
    NoSecret(u32),
    /// The text is no path.
    NoPath(ValuesFault),
    /// The policy wants a record of so many bytes.
    NoRecord(u32),
    /// The text gives no values.
    NoValues(ValuesFault),
    /// The policy wants a path of so many nodes.
    NoNodes(u32),
    /// The leaf is none of its row.
    NoLeaf,
    /// What is shown at this place is not true.
    False(u32),
    /// Record and values do not fit the policy.
    Unfit,
    /// The text does not say what was shown.
    NoShown(ValuesFault),
    /// No text says what is shown: a text of the record has a blank, a line feed or `#`, or one name would stand for
    /// two values.
    Unsaid,
    /// So many bytes are to be written, and the room is smaller.
    NoRoom(u64),
    /// There was no memory.
    OutOfMemory,
}

impl From<AllocError> for PolicyRefusal {
    ghost from_gives = { λ _ e. e ≡ OutOfMemory };

    fn from(_: AllocError) -> PolicyRefusal {
        PolicyRefusal::OutOfMemory
    }
}
