//! What a shelf and a sink are, and why they refuse.

ghost use Rattle.std.specs.Prelude.{◌≡◌, ◌≢◌, ◌<◌, ◌≤◌, Bool, IsTrue, List, ℕ, Option, length, take, IfOk, OnOk, OnErr};
ghost use Rattle.lzk_outside.specs.Outside.{Files, Reads, Holds, Torn, Appends, Counts};

/// Why a shelf gave no bytes.
#[derive(Clone, Copy, Debug, PartialEq, Eq)]
pub enum ShelfFault {
    /// The name is not there.
    Missing,
    /// The shelf could not read, though the name may be there.
    Failed,
    /// There was no memory for the read.
    OutOfMemory,
}

/// Why a shelf did not take a file.
#[derive(Clone, Copy, Debug, PartialEq, Eq)]
pub enum PutFault {
    /// The shelf could not write, and may have kept a front of the bytes.
    Failed,
    /// There was no memory for the file.
    OutOfMemory,
}

/// Why a sink took no bytes.
#[derive(Clone, Copy, Debug, PartialEq, Eq)]
pub enum SinkFault {
    /// The sink could not write.
    Failed,
    /// There was no memory for the bytes.
    OutOfMemory,
}

/// Files by name. A name is any text, and a file is its bytes.
pub trait Shelf {
    /// The bytes under each name, where the shelf tells them. No call changes whether it does.
    ghost held: { Self → Option Files };

    /// How many reads failed. Like the other counts it never falls, and it may stand still at the last
    /// value of u64.
    ghost read_faults: { Self → ℕ };

    /// How many puts failed.
    ghost put_faults: { Self → ℕ };

    /// How many reads were of a name that is not there.
    ghost misses: { Self → ℕ };

    /// Nothing is listed to fail. While it is so no call fails, and no call changes it.
    ghost never_fails: { Self → Bool };

    /// Fills the front of `buf` with the bytes of a name from byte `from` on, and answers how many.
    /// That may be fewer than there is room for. It is 0 at the end of the file and past it, and only
    /// there. Nothing is said of the bytes of `buf` after them.
    fn read(&mut self, name: &str, from: u64, buf: &mut [u8]) -> Result<usize, ShelfFault>
        requires { 0 < length buf.old }
        ensures within { IfOk result (λ n. n ≤ length buf.new) }
        ensures told { Reads (held self.old) name.now from result buf.new }
        ensures same { held self.new ≡ held self.old }

        // A failure and a missing name are counted, and nothing else is answered so.
        ensures failed { Counts (result ≡ Err ShelfFault.Failed) (read_faults self.old) (read_faults self.new) }
        ensures missing { Counts (result ≡ Err ShelfFault.Missing) (misses self.old) (misses self.new) }
        ensures puts { put_faults self.new ≡ put_faults self.old }

        // Where nothing is listed to fail, nothing does, and it stays so.
        ensures never { IsTrue (never_fails self.old) → result ≢ Err ShelfFault.Failed }
        ensures uncounted { IsTrue (never_fails self.old) → read_faults self.new ≡ read_faults self.old }
        ensures kept { never_fails self.new ≡ never_fails self.old };

    /// Makes a name hold exactly these bytes, whether or not it was there. A failure leaves under that
    /// name what was there, or a front of the new bytes.
    fn put(&mut self, name: &str, bytes: &[u8]) -> Result<(), PutFault>
        ensures ok { OnOk result (Holds (held self.old) name.now bytes.now (held self.new)) }
        ensures failed { result ≡ Err PutFault.Failed →
            Torn (held self.old) name.now bytes.now (held self.new) }
        ensures memory { result ≡ Err PutFault.OutOfMemory → held self.new ≡ held self.old }

        // A failure is counted, and nothing else is answered so.
        ensures cause { Counts (result ≡ Err PutFault.Failed) (put_faults self.old) (put_faults self.new) }
        ensures reads { read_faults self.new ≡ read_faults self.old }
        ensures misses { misses self.new ≡ misses self.old }
        ensures unfailed { result ≡ Err PutFault.OutOfMemory → put_faults self.new ≡ put_faults self.old }

        // Where nothing is listed to fail, nothing does, and it stays so.
        ensures never { IsTrue (never_fails self.old) → result ≢ Err PutFault.Failed }
        ensures uncounted { IsTrue (never_fails self.old) → put_faults self.new ≡ put_faults self.old }
        ensures kept { never_fails self.new ≡ never_fails self.old };
}

/// What is printed on.
pub trait Sink {
    /// The bytes that were written, where the sink tells them. No call changes whether it does.
    ghost written: { Self → Option (List ℕ) };

    /// How many writes failed. It never falls, and may stand still at the last value of u64.
    ghost faults: { Self → ℕ };

    /// Nothing is listed to fail. While it is so no write fails, and no write changes it.
    ghost never_fails: { Self → Bool };

    /// Takes some bytes, one or more, from the front of `bytes`, and answers how many. The caller goes
    /// on with the rest.
    fn write(&mut self, bytes: &[u8]) -> Result<usize, SinkFault>
        requires { 0 < length bytes.now }
        ensures some { IfOk result (λ n. 0 < n) }
        ensures within { IfOk result (λ n. n ≤ length bytes.now) }
        ensures ok { IfOk result (λ n. Appends (written self.old) (take n bytes.now) (written self.new)) }
        ensures err { OnErr result (written self.new ≡ written self.old) }

        // A failure is counted, and nothing else is answered so.
        ensures cause { Counts (result ≡ Err SinkFault.Failed) (faults self.old) (faults self.new) }

        // Where nothing is listed to fail, nothing does, and it stays so.
        ensures never { IsTrue (never_fails self.old) → result ≢ Err SinkFault.Failed }
        ensures uncounted { IsTrue (never_fails self.old) → faults self.new ≡ faults self.old }
        ensures kept { never_fails self.new ≡ never_fails self.old };
}
