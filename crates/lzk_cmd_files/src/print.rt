//! Printing how a run ends.

ghost use Rattle.std.specs.Prelude.{◌≡◌, ◌<◌, ℕ, take, string_bytes, OnOk, OnErr};
ghost use Rattle.lzk_outside.specs.Outside.{Appends};
ghost use Rattle.lzk_cmd_files.specs.Seen.{seen_sink, WriteFailed};
ghost use Rattle.lzk_cmd_files.specs.Walks.{Concludes, Prints, Quiet};

use crate::ending::{Ending, Halt};
use lzk_outside::{Sink, SinkFault};

// Writes a text to its end, or a front of it.
fn print<K: Sink>(out: &mut K, text: &[u8]) -> Result<(), SinkFault>
    ensures ok { OnOk result (Appends (K.written out.old) text.now (K.written out.new)) }
    ensures err { OnErr result ((n : ℕ) × Appends (K.written out.old) (take n text.now) (K.written out.new)) }
    ensures fault { result ≡ Err SinkFault.Failed → WriteFailed (seen_sink K.Sink out.old) (seen_sink K.Sink out.new) }
    ensures quiet { Quiet (seen_sink K.Sink out.old) (seen_sink K.Sink out.new) }
{
    let mut done = 0;
    while done < text.len() {
        done += out.write(&text[done..])?;
    }
    Ok(())
}

// Prints an ending, and answers its status: 5 after a failed write, 6 for want of memory.
fn print_ending<K: Sink>(out: &mut K, ending: &Ending) -> u8
    ensures prints { Prints (seen_sink K.Sink out.old) (seen_sink K.Sink out.new) ending.now.status
        (string_bytes ending.now.text) result }
    ensures quiet { Quiet (seen_sink K.Sink out.old) (seen_sink K.Sink out.new) }
{
    match print(out, ending.text.as_bytes()) {
        Ok(()) => ending.status,
        Err(SinkFault::Failed) => 5,
        Err(SinkFault::OutOfMemory) => 6,
    }
}

/// Prints how a run ends, and answers its status: 5 after a failed write, 6 for want of memory. Nothing is printed
/// where the run itself wants memory.
pub fn conclude<K: Sink>(out: &mut K, done: &Result<Ending, Halt>) -> u8
    ensures concludes { Concludes (seen_sink K.Sink out.old) (seen_sink K.Sink out.new) done.now result }
    ensures quiet { Quiet (seen_sink K.Sink out.old) (seen_sink K.Sink out.new) }
{
    match done {
        Ok(ending) => print_ending(out, ending),
        Err(Halt::End(ending)) => print_ending(out, ending),
        Err(Halt::Memory) => 6,
    }
}
