//! The elements of a number file, or the end of the run.

ghost use Rattle.std.specs.Prelude.{◌≡◌, ◌≤◌, length, IfOk};
ghost use Rattle.lzk_cmd_files.specs.Decoded.{number_files};
ghost use Rattle.lzk_cmd_files.specs.Seen.{seen};
ghost use Rattle.lzk_cmd_files.specs.Walks.{Decodes, Gives, OnlyReads};

use crate::ending::{Ending, Halt};
use crate::files::{MOST_TEXT, read_file};
use crate::lines;
use lzk_expr::{NumberError, read_numbers};
use lzk_field::Field;
use lzk_outside::Shelf;
use std::alloc::Global;

/// The elements of this text.
pub fn elements_of<F: Field>(
    alloc: Global,
    name: &str,
    text: &[u8],
    count: u32,
) -> Result<Vec<F>, Halt>
    requires { length text.now ≤ 4194304 }
    ensures decodes { Decodes (number_files F.coding.size F.coding.number count) (λ v. v.items) name.now text.now
        result }
    ensures count { IfOk result (λ v. length v.items ≡ count) }
{
    match read_numbers(alloc, text, count) {
        Ok(elements) => Ok(elements),
        Err(NumberError::OutOfMemory) => Err(Halt::Memory),
        Err(NumberError::Fault(fault)) => {
            let text = lines::refuse_numbers(alloc, name, fault)?;
            Err(Halt::End(Ending { status: 3, text }))
        }
    }
}

/// The elements in a file of exactly `count` numbers.
pub fn read_elements<S: Shelf, F: Field>(
    alloc: Global,
    shelf: &mut S,
    name: &str,
    count: u32,
) -> Result<Vec<F>, Halt>
    ensures gives { Gives (number_files F.coding.size F.coding.number count) (λ v. v.items) (seen S.Shelf shelf.old)
        (seen S.Shelf shelf.new) name.now result }
    ensures reads { OnlyReads (seen S.Shelf shelf.old) (seen S.Shelf shelf.new) }
    ensures count { IfOk result (λ v. length v.items ≡ count) }
{
    let text = read_file(alloc, shelf, name, MOST_TEXT)?;
    elements_of(alloc, name, &text, count)
}
