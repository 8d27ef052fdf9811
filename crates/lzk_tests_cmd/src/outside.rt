//! Tests of `lzk_outside`: that each call succeeds where there is memory, and what no clause can say of files of the
//! system, of their permissions, links and other names, and of standard output.
//!
//! They stand above what they test, so that it is proved once and not again with its tests.

mod puts;
mod shelves;
