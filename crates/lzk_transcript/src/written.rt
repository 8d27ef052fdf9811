//! A list of bytes that only proofs read. It takes no memory, and its methods do nothing at run time.

ghost use Rattle.std.specs.Prelude.{◌≡◌, [], ◌++◌};

use http_server::Log;
use std::marker::Model;

/// The bytes that a hash has taken.
#[derive(Drop)]
pub(crate) struct Written {
    log: Log<u8, ()>,
}

impl Model for Written {
    ghost use Rattle.std.specs.Prelude.{List, ℕ, map};

    ghost Value = { List ℕ };

    ghost view = { λ w. map (λ entry. entry.0) w.log.items };
}

impl Written {
    /// No bytes.
    pub(crate) fn new() -> Written
        ensures { result ≡ [] }
    {
        Written { log: Log::new() }
    }

    /// Adds these bytes.
    pub(crate) fn append(&mut self, bytes: &[u8])
        ensures { self.new ≡ self.old ++ bytes.now }
    {
        for byte in bytes {
            self.log = self.log.and(byte, &());
        }
    }
}
