//! Texts that are read.

ghost use Rattle.std.specs.Prelude.{◌≤◌, length};

// A text of at most 4 MiB.
#[derive(Clone, Copy)]
pub(crate) struct Text<'a> {
    pub bytes: &'a [u8],
    ghost few: { length bytes.now ≤ 4194304 },
}
