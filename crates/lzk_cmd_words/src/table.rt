//! The table of commands: what stands behind each command's word.

ghost use Rattle.std.specs.Prelude.{◌≡◌, Some, None, cond, codes};
ghost use Rattle.std.specs.Str.{bytes_eq};
ghost use Rattle.lzk_cmd_words.specs.declared.table.Verb.TheVariants as verbs;
ghost use Rattle.lzk_cmd_words.specs.Table as table;

/// A command's word.
#[derive(Clone, Copy)]
pub(crate) enum Verb {
    Eval,
    Compile,
    Upgrade,
    Show,
    Prove,
    Verify,
    Batch,
    Demo,
    ShaCircuit,
    Sha256,
}

/// What the first name is: a file, the number of inputs of a demo, or the number of bytes of a message.
#[derive(Clone, Copy)]
pub(crate) enum First {
    File,
    Inputs,
    Bytes,
}

/// Whether a key may stand behind the names.
#[derive(Clone, Copy)]
pub(crate) enum Key {
    Forbidden,
    Optional,
    Required,
}

/// A row: how many names a command has, what the first is, and which keys stand behind them.
#[derive(Clone, Copy)]
pub(crate) struct Row {
    pub names: usize,
    pub first: First,
    pub seed: Key,
    pub session: Key,
    pub workers: Key,
    pub message: Key,
    pub version: Key,
}

// The command of this word, if it is one of the last five.
fn later_verb_of(word: &str) -> Option<Verb>
    ensures { result
        ≡ cond (bytes_eq word.now (codes "verify")) (Some verbs.Verify)
        (cond (bytes_eq word.now (codes "batch")) (Some verbs.Batch)
        (cond (bytes_eq word.now (codes "demo")) (Some verbs.Demo)
        (cond (bytes_eq word.now (codes "shacircuit")) (Some verbs.ShaCircuit)
        (cond (bytes_eq word.now (codes "sha256")) (Some verbs.Sha256) None)))) }
{
    if word == "verify" {
        Some(Verb::Verify)
    } else if word == "batch" {
        Some(Verb::Batch)
    } else if word == "demo" {
        Some(Verb::Demo)
    } else if word == "shacircuit" {
        Some(Verb::ShaCircuit)
    } else if word == "sha256" {
        Some(Verb::Sha256)
    } else {
        None
    }
}

/// The command of this word.
pub(crate) fn verb_of(word: &str) -> Option<Verb>
    ensures { result ≡ table.verb_of word.now }
{
    if word == "eval" {
        Some(Verb::Eval)
    } else if word == "compile" {
        Some(Verb::Compile)
    } else if word == "upgrade" {
        Some(Verb::Upgrade)
    } else if word == "show" {
        Some(Verb::Show)
    } else if word == "prove" {
        Some(Verb::Prove)
    } else {
        later_verb_of(word)
    }
}

// A row of file names with no keys.
fn names(count: usize) -> Row
    ensures { result ≡ table.plain count }
{
    Row {
        names: count,
        first: First::File,
        seed: Key::Forbidden,
        session: Key::Forbidden,
        workers: Key::Forbidden,
        message: Key::Forbidden,
        version: Key::Forbidden,
    }
}

/// The row of a command.
pub(crate) fn row_of(verb: Verb) -> Row
    ensures { result ≡ table.row_of verb }
{
    match verb {
        Verb::Eval => names(3),
        Verb::Compile => Row {
            version: Key::Optional,
            ..names(2)
        },
        Verb::Upgrade => names(2),
        Verb::Show => names(1),
        Verb::Prove => Row {
            seed: Key::Required,
            session: Key::Optional,
            workers: Key::Optional,
            ..names(4)
        },
        Verb::Verify => Row {
            session: Key::Optional,
            ..names(3)
        },
        Verb::Batch => Row {
            workers: Key::Optional,
            ..names(1)
        },
        Verb::Demo => Row {
            first: First::Inputs,
            seed: Key::Required,
            workers: Key::Optional,
            ..names(1)
        },
        Verb::ShaCircuit => Row {
            first: First::Bytes,
            ..names(2)
        },
        Verb::Sha256 => Row {
            seed: Key::Required,
            session: Key::Optional,
            workers: Key::Optional,
            message: Key::Required,
            ..names(2)
        },
    }
}

/// Whether a key that stands, or does not, may do so.
pub(crate) fn may_stand(stands: Key, there: bool) -> bool
    ensures { result ≡ table.may_stand stands there }
{
    match stands {
        Key::Forbidden => !there,
        Key::Optional => true,
        Key::Required => there,
    }
}
