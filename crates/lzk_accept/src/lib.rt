//! The constraints of a proof: residuals of the sumchecks' claims, and what is drawn to combine them.
//!
//! As in draft-google-cfrg-libzk and Ligero (CCS 2017), what the sumchecks send is padded, and the pads and the
//! private inputs are committed to. For a list of pads and private inputs each layer, and the input layer behind them,
//! leaves a residual, which is affine in the list and zero for the list of an honest prover. A proof shows that the
//! residuals are zero, by one sum of all of them with drawn factors.
//!
//! Some steps and what they are handed are public for the plain forms, which stand in `lzk_residual`.
#![tactic(auto)]

mod challenges;
mod claims;
mod combination;
mod exchange;
mod factored;
mod forms;
mod linear;
mod points;
mod prepared;
mod rounds;
mod tables;
mod terms;

pub use challenges::{Challenges, draw_challenges};
pub use claims::{layer_of, points_on};
pub use combination::{Combining, combine_from};
pub use exchange::{Exchange, Scripted};
pub use factored::{Factored, combine_factored, combine_with_bounds};
pub use forms::{Form, Forms};
pub use linear::rest_forms;
pub use points::{Shares, ThreePoints};
pub use rounds::round_challenge;
