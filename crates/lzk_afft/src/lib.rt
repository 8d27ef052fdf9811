//! Rows over GF(2^128) extended by additive transforms.
//!
//! In a binary field the points with numbers below 2^k are a linear subspace over the field of two elements,
//! so that the subspace polynomial, which vanishes at them, is a linear map. An additive fast Fourier transform
//! (Cantor, 1989; Gao and Mateer, 2010) evaluates a polynomial at all points of such a subspace, or of a coset
//! of one, by splitting it at that map. Here the polynomial is given in the novel polynomial basis of Lin,
//! Chung and Han (FOCS 2014), the products of normalized subspace polynomials: then each level is butterflies,
//! one product each, and the backward transform undoes them in the opposite order. Both work in place.
//!
//! Rows in Ligero (CCS 2017) are extended so by Google's longfellow-zk, the implementation of
//! draft-google-cfrg-libzk: the backward transform finds the coefficients of the polynomial through the values,
//! and forward transforms evaluate it at further cosets. A row's length need not be a power of two. Then the
//! backward transform is truncated, as van der Hoeven (2004) does with Fourier's: some values are known, and
//! that the coefficients from as many on are zero. A row with N points takes O(N log N) products. A caller
//! writes
//!
//! ```text
//! let transform = Transform::new(alloc, 3, 6)?;
//! let mut room = vec![in alloc; Gf128::zero(); transform.room_len()]?;
//! let mut further = [Gf128::zero(); 3];
//! transform.extend(&values, &mut further, &mut room);
//! ```
#![tactic(auto)]

mod blocks;
mod butterflies;
mod points;
mod rows;
mod transform;
mod twiddles;

pub use transform::Transform;
