//! Number-theoretic transforms, and rows over the prime field extended by them.
//!
//! A number-theoretic transform is the discrete Fourier transform over a finite field with a root of one
//! whose order is a power of two (Pollard, 1971). The forward transform is decimated in frequency, by the
//! butterflies of Gentleman and Sande (1966), and leaves its values in bit-reversed order. The backward
//! transform is decimated in time, by the butterflies of Cooley and Tukey (1965), and takes them in that
//! order, so that no entry is moved. Both work in place.
//!
//! Rows are extended by convolution, as in Google's longfellow-zk, the implementation of
//! draft-google-cfrg-libzk. Lagrange's formula in its barycentric form asks, at each further point, for the
//! sum of each value times its weight over the difference from its point. That field's points are evenly
//! spaced, so that the inverse of a difference depends on the difference of the numbers alone: the sums are
//! the convolution of weighted values and the list of inverses. With n values, up to 2,048, and m further
//! points that takes O((n + m) log n) products, where the sums themselves take n m. A caller writes
//!
//! ```text
//! let extender = NttExtender::make(alloc, 3, 6)?;
//! let mut room = vec![in alloc; Gold::zero(); extender.room_len()]?;
//! let mut further = [Gold::zero(); 3];
//! extender.extend_row(&values, &mut further, &mut room);
//! ```
#![tactic(auto)]

mod blocks;
mod butterflies;
mod extender;
mod gold;
mod halves;
mod kernels;
mod laws;
mod plan;
mod prepared;
mod size;
mod transform;

pub use extender::NttExtender;
pub use gold::root_of;
pub use laws::convolution_laws;
pub use prepared::{Factor, Prepared};
pub use transform::Transform;
