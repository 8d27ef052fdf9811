//! Laws of answers, as contracts of functions that do nothing.

ghost use Rattle.lzk_ligero_answers.specs.Laws.{NoFurtherZero, ColumnsOpen, LowDegreePasses, LinearPasses, QuadraticPasses};
ghost use Rattle.lzk_ligero_answers.specs.Laws.{ZerosStand, LinearSumStands, CombinedRows, LowDegreeFails, LinearFails};
ghost use Rattle.lzk_ligero_answers.specs.Laws.{QuadraticFails, SumsChange};

use lzk_field::Field;

/// A polynomial that is not zero has fewer zeros than coefficients.
pub fn value_laws<F: Field>()
    ensures zeros { NoFurtherZero F.ops }
{}

/// The answers of rows are right at every opened column. Where the rows stand for a list that satisfies its
/// constraints, the quadratic answer has its zeros, and the linear answer the wanted sum.
pub fn answers_laws<F: Field>()
    ensures columns { ColumnsOpen F.ops F.coding.element }
    ensures low_degree { LowDegreePasses F.ops F.coding.element }
    ensures linear { LinearPasses F.ops F.coding.element }
    ensures quadratic { QuadraticPasses F.ops F.coding.element }
    ensures zeros { ZerosStand F.ops F.coding.element }
    ensures linear_sum { LinearSumStands F.ops F.coding.element }
    ensures combined { CombinedRows F.ops F.coding.element }
{}

/// An answer of rows with one value changed is wrong at every opened column, and the linear answer's sum changes by as
/// much.
pub fn changed_answers_laws<F: Field>()
    ensures low_degree { LowDegreeFails F.ops F.coding.element }
    ensures linear { LinearFails F.ops F.coding.element }
    ensures quadratic { QuadraticFails F.ops F.coding.element }
    ensures sums { SumsChange F.ops F.coding.element }
{}
