//! Laws of the definitions, as contracts of a function that does nothing.

ghost use Rattle.lzk_expr.specs.SomeReading.{SomeReading};

/// Every text is a source or has a first fault: the rules of docs/FORMATS.md leave none without an answer. The body
/// does nothing.
pub fn source_laws()
    ensures some { SomeReading }
{}
