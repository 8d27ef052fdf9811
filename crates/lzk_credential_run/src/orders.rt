//! What `inputs`, `prove` and `verify` are asked for.

ghost use Rattle.std.specs.Prelude.{◌≤◌, length};

/// The names of the policy, which refusals tell, and of the proof, and the session.
#[derive(Clone, Copy)]
pub(crate) struct Order<'a> {
    pub policy: &'a str,
    pub proof: &'a str,
    pub session: &'a [u8],
    pub ghost short: { length session.now ≤ 64 },
}

/// The names of the files beside the values: the secret and the path, as the policy wants them, the secret first.
#[derive(Clone, Copy)]
pub(crate) enum Beside<'a> {
    Nothing,
    One(&'a str),
    Two(&'a str, &'a str),
}

/// The names of a holder's files.
#[derive(Clone, Copy)]
pub(crate) struct Holding<'a> {
    pub record: &'a str,
    pub values: &'a str,
    pub beside: Beside<'a>,
}
