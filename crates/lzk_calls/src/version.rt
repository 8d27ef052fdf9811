//! The versions of circuits.

ghost use Rattle.std.specs.Prelude.{MatchOption};
ghost use Rattle.lzk_calls.specs.Compiled.{IsNoVersion, IsVersion};

/// A circuit's version.
#[derive(Clone, Copy)]
pub(crate) enum Version {
    /// Each assert is an output.
    One,
    /// An assert is an assertion term where it stands.
    Two,
}

/// The version with this number.
pub(crate) fn version_of(number: u32) -> Option<Version>
    ensures { MatchOption result (IsNoVersion number) (IsVersion number) }
{
    match number {
        1 => Some(Version::One),
        2 => Some(Version::Two),
        _ => None,
    }
}
