//! Which command a list of words is.

ghost use Rattle.std.specs.Prelude.{◌≡◌, map, string_bytes};
ghost use Rattle.std.specs.Option.{option_map};
ghost use Rattle.lzk_credential_run.specs.Orders.{beside_of, holding_of};
ghost use Rattle.lzk_credential_run.specs.Words as texts;

use crate::keys::{Asked, Session, asked_in, is_key, session_in};
use crate::orders::{Beside, Holding};

/// The names of the files of `inputs`.
#[derive(Clone, Copy)]
pub(crate) struct InputsWords<'a> {
    pub policy: &'a str,
    pub holding: Holding<'a>,
    pub public: &'a str,
    pub private: &'a str,
}

/// The names of the files of `prove`, and its keys.
#[derive(Clone, Copy)]
pub(crate) struct ProveWords<'a> {
    pub policy: &'a str,
    pub holding: Holding<'a>,
    pub proof: &'a str,
    pub asked: Asked<'a>,
}

/// The names of the files of `verify`, and its session.
#[derive(Clone, Copy)]
pub(crate) struct VerifyWords<'a> {
    pub policy: &'a str,
    pub shown: &'a str,
    pub proof: &'a str,
    pub session: Session<'a>,
}

/// A command, with the names of its files and its keys.
#[derive(Clone, Copy)]
pub(crate) enum Command<'a> {
    Circuit { policy: &'a str, circuit: &'a str },
    Digest { policy: &'a str, record: &'a str },
    Inputs(InputsWords<'a>),
    Prove(ProveWords<'a>),
    Show { policy: &'a str },
    Verify(VerifyWords<'a>),
}

// The command of a word and two names.
fn pair_of<'a>(verb: &str, policy: &'a str, other: &'a str) -> Option<Command<'a>>
    ensures { option_map texts.command_view result ≡ texts.pair_of verb.now policy.now other.now }
{
    if verb == "circuit" {
        return Some(Command::Circuit {
            policy,
            circuit: other,
        });
    }
    if verb == "digest" {
        return Some(Command::Digest {
            policy,
            record: other,
        });
    }
    None
}

// The command `verify` of these names, if the last word is a session.
fn verify_of<'a>(
    policy: &'a str,
    shown: &'a str,
    proof: &'a str,
    key: &'a str,
) -> Option<Command<'a>>
    ensures { option_map texts.command_view result ≡ texts.verify_of policy.now shown.now proof.now key.now }
{
    let session = session_in(key.as_bytes())?;
    Some(Command::Verify(VerifyWords {
        policy,
        shown,
        proof,
        session,
    }))
}

// The command `inputs` of these names.
fn inputs_with<'a>(
    policy: &'a str,
    record: &'a str,
    values: &'a str,
    beside: Beside<'a>,
    public: &'a str,
    private: &'a str,
) -> Command<'a>
    ensures { texts.command_view result ≡ texts.inputs_with policy.now record.now values.now (beside_of beside.entry)
        public.now private.now }
{
    Command::Inputs(InputsWords {
        policy,
        holding: Holding {
            record,
            values,
            beside,
        },
        public,
        private,
    })
}

// The command `inputs` of these names: the last two are the files that are put.
fn inputs_of<'a>(
    policy: &'a str,
    record: &'a str,
    values: &'a str,
    fourth: &'a str,
    others: &'a [String],
) -> Option<Command<'a>>
    ensures { option_map texts.command_view result ≡ texts.inputs_of policy.now record.now values.now fourth.now
        (map (λ w. string_bytes w) others.now) }
{
    let (beside, public, private) = match others {
        [private] => (Beside::Nothing, fourth, private.as_str()),
        [public, private] => (Beside::One(fourth), public.as_str(), private.as_str()),
        [path, public, private] => (
            Beside::Two(fourth, path.as_str()),
            public.as_str(),
            private.as_str(),
        ),
        _ => return None,
    };
    Some(inputs_with(policy, record, values, beside, public, private))
}

// The command `prove` of these names, if the other words are its keys, and the proof's name is none.
fn prove_of<'a>(
    policy: &'a str,
    record: &'a str,
    values: &'a str,
    beside: Beside<'a>,
    proof: &'a str,
    keys: &'a [String],
) -> Option<Command<'a>>
    ensures { option_map texts.command_view result ≡ texts.prove_of policy.now record.now values.now
        (beside_of beside.entry) proof.now (map (λ w. string_bytes w) keys.now) }
{
    if is_key(proof.as_bytes()) {
        return None;
    }
    let asked = asked_in(keys)?;
    Some(Command::Prove(ProveWords {
        policy,
        holding: Holding {
            record,
            values,
            beside,
        },
        proof,
        asked,
    }))
}

// The command `prove` with two files beside the values, if behind them are a proof and keys.
fn prove_with_two<'a>(
    policy: &'a str,
    record: &'a str,
    values: &'a str,
    secret: &'a str,
    path: &'a str,
    others: &'a [String],
) -> Option<Command<'a>>
    ensures { option_map texts.command_view result ≡ texts.prove_with_two policy.now record.now values.now secret.now
        path.now (map (λ w. string_bytes w) others.now) }
{
    match others {
        [proof, keys @ ..] => {
            let beside = Beside::Two(secret, path);
            prove_of(policy, record, values, beside, proof.as_str(), keys)
        }
        [] => None,
    }
}

// The command `prove` with a file beside the values: the word behind it is the proof where all others are keys, and
// otherwise a second such file.
fn prove_with<'a>(
    policy: &'a str,
    record: &'a str,
    values: &'a str,
    fourth: &'a str,
    others: &'a [String],
) -> Option<Command<'a>>
    ensures { option_map texts.command_view result ≡ texts.prove_with policy.now record.now values.now fourth.now
        (map (λ w. string_bytes w) others.now) }
{
    let [fifth, keys @ ..] = others else {
        return None;
    };
    let fifth = fifth.as_str();
    match prove_of(policy, record, values, Beside::One(fourth), fifth, keys) {
        Some(command) => Some(command),
        None => prove_with_two(policy, record, values, fourth, fifth, keys),
    }
}

// The command `prove`: the fourth word is the proof where all behind it are keys, and otherwise a file beside the
// values.
fn proves<'a>(
    policy: &'a str,
    record: &'a str,
    values: &'a str,
    fourth: &'a str,
    others: &'a [String],
) -> Option<Command<'a>>
    ensures { option_map texts.command_view result ≡ texts.proves policy.now record.now values.now fourth.now
        (map (λ w. string_bytes w) others.now) }
{
    match prove_of(policy, record, values, Beside::Nothing, fourth, others) {
        Some(command) => Some(command),
        None => prove_with(policy, record, values, fourth, others),
    }
}

// The command of a word and four words or more behind it.
fn long_of<'a>(
    verb: &str,
    first: &'a str,
    second: &'a str,
    third: &'a str,
    fourth: &'a str,
    others: &'a [String],
) -> Option<Command<'a>>
    ensures { option_map texts.command_view result ≡ texts.long_of verb.now first.now second.now third.now fourth.now
        (map (λ w. string_bytes w) others.now) }
{
    if verb == "inputs" {
        return inputs_of(first, second, third, fourth, others);
    }
    if verb == "prove" {
        return proves(first, second, third, fourth, others);
    }
    if verb == "verify" && others.is_empty() {
        return verify_of(first, second, third, fourth);
    }
    None
}

// The command of a word and the words behind it.
fn named<'a>(verb: &str, names: &'a [String]) -> Option<Command<'a>>
    ensures { option_map texts.command_view result ≡ texts.named verb.now (map (λ w. string_bytes w) names.now) }
{
    match names {
        [] => None,
        [policy] => {
            if verb == "show" {
                return Some(Command::Show {
                    policy: policy.as_str(),
                });
            }
            None
        }
        [policy, other] => pair_of(verb, policy.as_str(), other.as_str()),
        [_, _, _] => None,
        [first, second, third, fourth, others @ ..] => long_of(
            verb,
            first.as_str(),
            second.as_str(),
            third.as_str(),
            fourth.as_str(),
            others,
        ),
    }
}

/// The command of the words, if they are one.
#[tactic(auto, unfolding(crate::specs::Words::command_of))]
pub(crate) fn parse_words(words: &[String]) -> Option<Command<'_>>
    ensures { option_map texts.command_view result ≡ texts.command_of (map (λ w. string_bytes w) words.now) }
{
    match words {
        [verb, names @ ..] => named(verb.as_str(), names),
        [] => None,
    }
}
