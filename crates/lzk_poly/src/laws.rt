//! Laws of the definitions, as contracts of functions that do nothing.

ghost use Rattle.lzk_poly.specs.Laws.{LongerListsExtend, PolynomialsExtend, ProductsExtend, SumsExtend};
ghost use Rattle.lzk_poly.specs.Laws.{ThroughHasValues, ThroughIsOnly, ThroughMeets, ThroughOfValues, ValuesStay};

use lzk_field::Field;

/// How values extend to further points: lists, products, sums of multiples, and values of polynomials.
pub fn extension_laws<F: Field>()
    ensures given { ValuesStay F.ops F.coding.element }
    ensures polynomials { PolynomialsExtend F.ops F.coding.element }
    ensures longer { LongerListsExtend F.ops F.coding.element }
    ensures products { ProductsExtend F.ops F.coding.element }
    ensures sums { SumsExtend F.ops F.coding.element }
{}

/// The coefficients that Lagrange's formula gives are those of the one polynomial through the values.
pub fn through_laws<F: Field>()
    ensures meets { ThroughMeets F.ops F.coding.element }
    ensures only { ThroughIsOnly F.ops F.coding.element }
    ensures back { ThroughOfValues F.ops F.coding.element }
    ensures values { ThroughHasValues F.ops F.coding.element }
{}
