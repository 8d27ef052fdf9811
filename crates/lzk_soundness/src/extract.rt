//! The private inputs that a committed table encodes, whoever made it: each row is read as the codeword that it is
//! near.
//!
//! A row of 4 * BLOCK elements is near one codeword at most, since two of them agree at BLOCK - 1 columns at most. So
//! the inputs depend on the table alone, on no draw and on nothing that is sent later. The definition tries all lists,
//! where unique decoding of Reed-Solomon codes (Berlekamp and Welch, 1986) finds the same.

ghost use Rattle.lzk_soundness.specs.Extract.Laws.{DecodingIsUnique, ExtractedCount, HonestAreExtracted};
ghost use Rattle.lzk_soundness.specs.Extract.Laws.{NothingIsZeros, RowsAreExtracted};

use lzk_field::Field;

/// A row near a codeword is read as that one, whoever finds it, and another one as zeros. From a table near rows what
/// stands in them is extracted, and from an honest prover's table his private inputs.
pub fn extract_laws<F: Field>()
    ensures unique { DecodingIsUnique F.ops F.coding }
    ensures nothing { NothingIsZeros F.ops F.coding }
    ensures count { ExtractedCount F.ops F.coding }
    ensures rows { RowsAreExtracted F.ops F.coding }
    ensures honest { HonestAreExtracted F.ops F.coding }
{}
