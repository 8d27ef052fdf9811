//! Fields, names, expressions and statements.

use std::marker::Model;

/// The field of a source: the prime field, in LZK1 that of 2^64 - 2^32 + 1 elements, or the one of 2^128.
#[derive(Clone, Copy, Debug, PartialEq, Eq)]
pub enum FieldId {
    /// The prime field of the profile, which LZK1 writes `goldilocks`.
    Goldilocks,
    /// Written `gf2_128`.
    Gf2_128,
}

/// A name of a source: 1 to 32 letters, digits and `_`. It is held in place, with no memory taken.
#[derive(Drop)]
pub struct Name {
    bytes: [u8; 32],
    len: u8,
}

impl Model for Name {
    ghost use Rattle.std.specs.Prelude.{List, ℕ, ◌≤◌, take};

    ghost Value = { List ℕ };

    ghost view = { λ n. take n.len n.bytes };

    ghost invariant = { λ n. (1 ≤ n.len) × (n.len ≤ 32) };
}

impl Name {
    ghost use Rattle.std.specs.Prelude.{◌≡◌, ◌≤◌, length};

    /// The name with these bytes. Which names a source may have is asked where it is made.
    pub fn new(bytes: &[u8]) -> Name
        requires some { 1 ≤ length bytes.now }
        requires few { length bytes.now ≤ 32 }
        ensures { result ≡ bytes.now }
    {
        let mut held = [0; 32];
        held[..bytes.len()].copy_from_slice(bytes);
        Name {
            bytes: held,
            len: bytes.len() as u8,
        }
    }

    /// The name's bytes.
    pub fn text(&self) -> &[u8]
        ensures text { result.now ≡ self.now }
        ensures some { 1 ≤ length self.now }
        ensures few { length self.now ≤ 32 }
    {
        &self.bytes[..self.len as usize]
    }
}

/// An expression: a number, an input or the value of a let name by its index, or a negative, a sum or
/// a product.
#[cycle(ast)]
#[derive(Drop)]
pub enum Expr {
    /// The element with this number.
    Number(u128),
    /// A public input, by its number in order of declaration.
    Public(u32),
    /// A private input, by its number in order of declaration.
    Private(u32),
    /// A let name, by its number in order of declaration.
    Named(u32),
    /// The negative.
    Neg(Box<Expr>),
    /// The sum of its parts, two or more.
    Sum(Vec<Part>),
    /// The product of its factors, two or more.
    Product(Vec<Expr>),
}

/// A part of a sum; with `minus` it is subtracted.
#[cycle(ast)]
#[derive(Drop)]
pub struct Part {
    /// Whether it is subtracted. The first part of a sum is added.
    pub minus: bool,
    /// What is added or subtracted.
    pub expr: Expr,
}

/// A statement: a public or a private input, a let name with its expression, or an equation.
#[derive(Drop)]
pub enum Statement {
    /// A public input is declared.
    Public(Name),
    /// A private input is declared.
    Private(Name),
    /// A name stands for an expression.
    Let(Name, Expr),
    /// The left value is to equal the right one.
    Assert(Expr, Expr),
}
