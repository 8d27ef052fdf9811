//! Rows of terms from sums of products.

ghost use Rattle.std.specs.Prelude.{◌≡◌, ℕ, ◌≤◌, List, [], ◌∷◌, length, IfOk, OnOk};
ghost use Rattle.lzk_goldilocks.specs.Elements.{ops};
ghost use Rattle.lzk_goldilocks.specs.declared.element.Gold.{Gold};
ghost use Rattle.lzk_circuit_reduce.specs.Rows.{IsRow, row_value, ordered};
ghost use Rattle.lzk_sha_circuit.specs.Products.{AreWithin, products_value};
ghost use Rattle.lzk_sha_circuit.specs.Layers.{one_row, Grows};

use crate::products::Product;
use lzk_circuit::Term;
use lzk_circuit_reduce::{add_term, append, merged};
use lzk_goldilocks::Gold;
use std::alloc::{AllocError, Global};

// So many products are added to a row one by one.
const FEW: usize = 16;

// What a few products add up to. The last one goes first, since the wires of a word's entries descend.
fn row_of_few(alloc: Global, products: &[Product<Gold>]) -> Result<Vec<Term<Gold>>, AllocError>
    ensures row { (width : ℕ) → AreWithin width products.now → IfOk result (λ row. IsRow ops width row.items) }
    ensures value { (below : List Gold)
        → IfOk result (λ row. row_value ops below row.items ≡ products_value ops below products.now) }
    ensures short { IfOk result (λ row. length row.items ≤ length products.now) }
    ensures one { products.now ≡ one_row ops → IfOk result (λ row. row.items ≡ ordered ops.one 0 0 ∷ []) }
{
    let mut row = Vec::with_capacity(alloc, products.len())?;
    for i in (0..products.len()).rev() {
        let product = products[i];
        add_term(&mut row, product.coef, product.a, product.b)?;
    }
    Ok(row)
}

// What the products add up to.
fn row_of(alloc: Global, products: &[Product<Gold>]) -> Result<Vec<Term<Gold>>, AllocError>
    ensures row { (width : ℕ) → AreWithin width products.now → IfOk result (λ row. IsRow ops width row.items) }
    ensures value { (below : List Gold)
        → IfOk result (λ row. row_value ops below row.items ≡ products_value ops below products.now) }
    ensures short { IfOk result (λ row. length row.items ≤ length products.now) }
    ensures one { products.now ≡ one_row ops → IfOk result (λ row. row.items ≡ ordered ops.one 0 0 ∷ []) }
{
    if products.len() <= FEW {
        return row_of_few(alloc, products);
    }
    let (left, right) = products.split_at(products.len() / 2);
    let left = row_of(alloc, left)?;
    let right = row_of(alloc, right)?;
    merged(alloc, &left, &right)
}

// Appends what the products add up to as the terms of a wire, which is the next one.
pub(crate) fn push_row(
    alloc: Global,
    wire: u32,
    products: &[Product<Gold>],
    terms: &mut Vec<Term<Gold>>,
) -> Result<(), AllocError>
    ensures { (width : ℕ) → AreWithin width products.now
        → OnOk result (Grows ops width wire terms.old.items (products.now ∷ []) terms.new.items) }
{
    let row = row_of(alloc, products)?;
    append(terms, wire, &row)
}
