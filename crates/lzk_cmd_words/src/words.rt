//! Which command a list of words is.

ghost use Rattle.std.specs.Prelude.{◌≡◌, MatchOption, map, string_bytes};
ghost use Rattle.std.specs.Option.{option_copied, option_map};
ghost use Rattle.lzk_cmd_words.specs.declared.table.Verb.TheVariants as verbs;
ghost use Rattle.lzk_cmd_words.specs.Words.{built, command_of, version_of};
ghost use Rattle.lzk_cmd_words.specs.KeyViews.{keys_view};
ghost use Rattle.lzk_cmd_words.specs.Keys as texts;
ghost use Rattle.lzk_cmd_words.specs.Views.{command_view};

use crate::grammar::request_of;
use crate::keys::Keys;
use crate::table::Verb;

/// The names of the files of `prove`, and the digits of its seed, and of its session and workers if they stand.
#[derive(Clone, Copy)]
pub struct ProveWords<'a> {
    pub circuit: &'a str,
    pub public: &'a str,
    pub private: &'a str,
    pub proof: &'a str,
    pub seed: &'a [u8],
    pub session: Option<&'a [u8]>,
    pub workers: Option<&'a [u8]>,
}

/// The names of the files of `sha256`, and the digits of its message and seed, and of its session and workers if they
/// stand.
#[derive(Clone, Copy)]
pub struct HashWords<'a> {
    pub circuit: &'a str,
    pub proof: &'a str,
    pub message: &'a [u8],
    pub seed: &'a [u8],
    pub session: Option<&'a [u8]>,
    pub workers: Option<&'a [u8]>,
}

/// The version that a compiled circuit is to have.
#[derive(Clone, Copy)]
pub enum Version {
    One,
    Two,
}

/// A command, with the names of its files, and the digits of its numbers and keys.
#[derive(Clone, Copy)]
pub enum Command<'a> {
    Eval {
        circuit: &'a str,
        public: &'a str,
        private: &'a str,
    },
    Compile {
        source: &'a str,
        circuit: &'a str,
        version: Version,
    },
    Upgrade {
        old: &'a str,
        new: &'a str,
    },
    Show {
        circuit: &'a str,
    },
    Prove(ProveWords<'a>),
    Verify {
        circuit: &'a str,
        public: &'a str,
        proof: &'a str,
        session: Option<&'a [u8]>,
    },
    Batch {
        list: &'a str,
        workers: Option<&'a [u8]>,
    },
    Demo {
        count: &'a str,
        seed: &'a [u8],
        workers: Option<&'a [u8]>,
    },
    ShaCircuit {
        count: &'a str,
        circuit: &'a str,
    },
    Sha256(HashWords<'a>),
}

// The files of `eval`.
fn eval_of(names: &[String]) -> Option<Command<'_>>
    ensures { (keys : texts.Keys)
        → option_map command_view result ≡ built verbs.Eval (map (λ w. string_bytes w) names.now) keys }
{
    match names {
        [circuit, public, private] => Some(Command::Eval {
            circuit: circuit.as_str(),
            public: public.as_str(),
            private: private.as_str(),
        }),
        _ => None,
    }
}

// The version of a text.
fn version_of(text: Option<&[u8]>) -> Version
    ensures { result ≡ version_of (option_copied text.entry) }
{
    match text {
        Some(text) => {
            if text == "2".as_bytes() {
                Version::Two
            } else {
                Version::One
            }
        }
        None => Version::One,
    }
}

// The files of `compile`, and its version.
fn compile_of<'a>(names: &'a [String], keys: &Keys<'a>) -> Option<Command<'a>>
    ensures { option_map command_view result
        ≡ built verbs.Compile (map (λ w. string_bytes w) names.now) (keys_view keys.now) }
{
    match names {
        [source, circuit] => Some(Command::Compile {
            source: source.as_str(),
            circuit: circuit.as_str(),
            version: version_of(keys.version),
        }),
        _ => None,
    }
}

// The files of `upgrade`.
fn upgrade_of(names: &[String]) -> Option<Command<'_>>
    ensures { (keys : texts.Keys)
        → option_map command_view result ≡ built verbs.Upgrade (map (λ w. string_bytes w) names.now) keys }
{
    match names {
        [old, new] => Some(Command::Upgrade {
            old: old.as_str(),
            new: new.as_str(),
        }),
        _ => None,
    }
}

// The file of `show`.
fn show_of(names: &[String]) -> Option<Command<'_>>
    ensures { (keys : texts.Keys)
        → option_map command_view result ≡ built verbs.Show (map (λ w. string_bytes w) names.now) keys }
{
    match names {
        [circuit] => Some(Command::Show {
            circuit: circuit.as_str(),
        }),
        _ => None,
    }
}

// The files of `prove`, its seed, and its session and workers.
fn prove_of<'a>(names: &'a [String], keys: &Keys<'a>) -> Option<Command<'a>>
    ensures { option_map command_view result
        ≡ built verbs.Prove (map (λ w. string_bytes w) names.now) (keys_view keys.now) }
{
    match names {
        [circuit, public, private, proof] => {
            let Some(seed) = keys.seed else {
                return None;
            };
            Some(Command::Prove(ProveWords {
                circuit: circuit.as_str(),
                public: public.as_str(),
                private: private.as_str(),
                proof: proof.as_str(),
                seed,
                session: keys.session,
                workers: keys.workers,
            }))
        }
        _ => None,
    }
}

// The files of `verify`, and its session.
fn verify_of<'a>(names: &'a [String], keys: &Keys<'a>) -> Option<Command<'a>>
    ensures { option_map command_view result
        ≡ built verbs.Verify (map (λ w. string_bytes w) names.now) (keys_view keys.now) }
{
    match names {
        [circuit, public, proof] => Some(Command::Verify {
            circuit: circuit.as_str(),
            public: public.as_str(),
            proof: proof.as_str(),
            session: keys.session,
        }),
        _ => None,
    }
}

// The list of `batch`, and its workers.
fn batch_of<'a>(names: &'a [String], keys: &Keys<'a>) -> Option<Command<'a>>
    ensures { option_map command_view result
        ≡ built verbs.Batch (map (λ w. string_bytes w) names.now) (keys_view keys.now) }
{
    match names {
        [list] => Some(Command::Batch {
            list: list.as_str(),
            workers: keys.workers,
        }),
        _ => None,
    }
}

// The number of `demo`, its seed, and its workers.
fn demo_of<'a>(names: &'a [String], keys: &Keys<'a>) -> Option<Command<'a>>
    ensures { option_map command_view result
        ≡ built verbs.Demo (map (λ w. string_bytes w) names.now) (keys_view keys.now) }
{
    match names {
        [count] => {
            let Some(seed) = keys.seed else {
                return None;
            };
            Some(Command::Demo {
                count: count.as_str(),
                seed,
                workers: keys.workers,
            })
        }
        _ => None,
    }
}

// The number of bytes and the circuit of `shacircuit`.
fn shacircuit_of(names: &[String]) -> Option<Command<'_>>
    ensures { (keys : texts.Keys)
        → option_map command_view result ≡ built verbs.ShaCircuit (map (λ w. string_bytes w) names.now) keys }
{
    match names {
        [count, circuit] => Some(Command::ShaCircuit {
            count: count.as_str(),
            circuit: circuit.as_str(),
        }),
        _ => None,
    }
}

// The files of `sha256`, its message and seed, and its session and workers.
fn sha256_of<'a>(names: &'a [String], keys: &Keys<'a>) -> Option<Command<'a>>
    ensures { option_map command_view result
        ≡ built verbs.Sha256 (map (λ w. string_bytes w) names.now) (keys_view keys.now) }
{
    match names {
        [circuit, proof] => {
            let Some(message) = keys.message else {
                return None;
            };
            let Some(seed) = keys.seed else {
                return None;
            };
            Some(Command::Sha256(HashWords {
                circuit: circuit.as_str(),
                proof: proof.as_str(),
                message,
                seed,
                session: keys.session,
                workers: keys.workers,
            }))
        }
        _ => None,
    }
}

// The command, if the names and keys are its own.
fn built<'a>(verb: Verb, names: &'a [String], keys: &Keys<'a>) -> Option<Command<'a>>
    ensures { option_map command_view result ≡ built verb (map (λ w. string_bytes w) names.now) (keys_view keys.now) }
{
    match verb {
        Verb::Eval => eval_of(names),
        Verb::Compile => compile_of(names, keys),
        Verb::Upgrade => upgrade_of(names),
        Verb::Show => show_of(names),
        Verb::Prove => prove_of(names, keys),
        Verb::Verify => verify_of(names, keys),
        Verb::Batch => batch_of(names, keys),
        Verb::Demo => demo_of(names, keys),
        Verb::ShaCircuit => shacircuit_of(names),
        Verb::Sha256 => sha256_of(names, keys),
    }
}

/// The command of the words, if they are one.
#[tactic(auto, unfolding(crate::specs::Words::command_of))]
pub fn parse_words(words: &[String]) -> Option<Command<'_>>
    ensures { MatchOption result
        (command_of (map (λ w. string_bytes w) words.now) ≡ None)
        (λ c. command_of (map (λ w. string_bytes w) words.now) ≡ Some (command_view c)) }
{
    match request_of(words) {
        Some(request) => built(request.verb, request.names, &request.keys),
        None => None,
    }
}
