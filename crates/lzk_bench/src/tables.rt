//! Multilinear tables, and the script of a circuit's sumchecks.

ghost use Rattle.std.specs.Prelude.{◌≡◌, length};
ghost use Rattle.lzk_layout.specs.Sizes.{sent_counts};
ghost use Rattle.lzk_sumcheck.specs.Script.{HasShape};

use crate::circuits::circuit;
use crate::rows::first_values;
use lzk_circuit::Circuit;
use lzk_field::Field;
use lzk_goldilocks::Gold;
use lzk_mle::eq_table;
use lzk_plain::tilde;
use lzk_sumcheck::{Script, message_count, replay};
use lzk_transcript::Tape;
use std::alloc::{AllocError, Global};

// A point's first coordinate, as a number.
fn first_number<F: Field>(r: &[F]) -> u128 {
    match r.first() {
        Some(first) => first.number(),
        None => 0,
    }
}

// Tables in a list of 4,096 entries.
fn eq_often<F: Field>(r: &mut [F], out: &mut [F], times: u32) {
    for _ in 0..times {
        if r.len() != 12 || out.len() != 4096 {
            break;
        }
        eq_table(r, out);
        if let (Some(first), Some(last)) = (r.first_mut(), out.last()) {
            *first = *last;
        }
    }
}

/// Tables of 4,096 entries, the last entry of each being the next point's first coordinate.
pub fn eq_tables<F: Field>(alloc: Global, times: u32) -> Result<u128, AllocError> {
    let mut r = first_values::<F>(alloc, 12)?;
    let mut out = vec![in alloc; F::zero(); 4096]?;
    eq_often(&mut r, &mut out, times);
    Ok(first_number(&r))
}

// Extensions in a list of 4,096 entries.
fn extend_often<F: Field>(values: &[F], r: &mut [F], room: &mut [F], times: u32) {
    for _ in 0..times {
        if r.len() != 12 || room.len() != 4096 || values.len() != 4096 {
            break;
        }
        let value = tilde(values, r, room);
        if let Some(first) = r.first_mut() {
            *first = value;
        }
    }
}

/// Extensions of 4,096 values, each being the next point's first coordinate.
pub fn extensions<F: Field>(alloc: Global, times: u32) -> Result<u128, AllocError> {
    let values = first_values::<F>(alloc, 4096)?;
    let mut r = first_values::<F>(alloc, 12)?;
    let mut room = vec![in alloc; F::zero(); 4096]?;
    extend_often(&values, &mut r, &mut room, times);
    Ok(first_number(&r))
}

// Scripts of the same elements, from a tape that goes on.
fn replay_often(
    circuit: &Circuit<Gold>,
    times: u32,
    messages: &[Gold],
    script: &mut Script<Gold>,
) -> u128
    requires messages { length messages.now ≡ sent_counts circuit.now }
    requires shape { HasShape circuit.now script.old }
{
    let mut tape = Tape::new();
    for _ in 0..times {
        replay(circuit, &mut tape, messages, script);
    }
    tape.draw_block()
}

fn replayed_of(alloc: Global, circuit: &Circuit<Gold>, times: u32) -> Result<u128, AllocError> {
    let count = message_count(circuit);
    let messages = first_values::<Gold>(alloc, count)?;
    let mut script = Script::new(alloc, circuit)?;
    let drawn = if messages.len() == count as usize {
        replay_often(circuit, times, &messages, &mut script)
    } else {
        0
    };
    drop(script);
    Ok(drawn)
}

/// The writes and draws of eight layers with 17 bits each, from a tape that goes on.
pub fn replayed(alloc: Global, times: u32) -> Result<u128, AllocError> {
    match circuit(alloc, 8)? {
        Some(circuit) => replayed_of(alloc, &circuit, times),
        None => Ok(0),
    }
}
