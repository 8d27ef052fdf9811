//! The answers of a prover: combinations of its rows.
//!
//! A row stands for the polynomial through its values. As in Ligero (CCS 2017), the answers are sums of such
//! polynomials times drawn factors, times polynomials of coefficients, and of products of two rows less a third, each
//! with a row of its own that hides it. They are sent by their values. A verifier compares each answer's extension with
//! the same combination of an opened column's elements.
//!
//! The rows stand in a table: one after another, the values of each at the same first points. A caller writes
//!
//! ```text
//! let table = Table { params: &params, values: &rows, width };
//! low_degree_into(&table, &u, &mut room, &mut low_degree);
//! linear_by_factors_into(&combined, &extender, &mut room, &mut linear);
//! quadratic_into(&table, &v, &mut quadratic);
//! ```
#![tactic(auto)]

mod laws;
mod linear;
mod low_degree;
mod quadratic;
mod rows;
mod table;

pub use laws::{answers_laws, changed_answers_laws, value_laws};
pub use linear::linear_by_factors_into;
pub use low_degree::low_degree_into;
pub use quadratic::quadratic_into;
pub use table::{Combined, Table};
