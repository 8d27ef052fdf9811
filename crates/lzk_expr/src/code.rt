//! Sources as code.

ghost use Rattle.std.specs.Prelude.{◌≡◌};
ghost use Rattle.lzk_expr.specs.Codes.{IsSomeCode};

use crate::ast::FieldId;
use std::marker::Model;

/// A word of a source's code: a step of an expression, in the order of the text, or the end of one.
#[derive(Clone, Copy)]
pub enum Word {
    /// A number, by its place in the code's list of numbers.
    Number(u32),
    /// A public input, by its number in order of declaration.
    Public(u32),
    /// A private input, by its number in order of declaration.
    Private(u32),
    /// A let name, by its number in order of declaration.
    Named(u32),
    /// What follows is added.
    Plus,
    /// What follows is subtracted; or, before an atom, its negative is meant.
    Minus,
    /// What follows is multiplied.
    Times,
    /// An opened parenthesis.
    Open,
    /// A closed parenthesis.
    Close,
    /// The end of a let name's expression.
    Define,
    /// The end of an assert's left side.
    Left,
    /// The end of an assert's right side.
    Right,
}

/// A source as code: the words of its lets and asserts in order. It is the code of some text.
#[derive(Drop)]
pub struct Code {
    field: FieldId,
    publics: u32,
    privates: u32,
    words: Vec<Word>,
    numbers: Vec<u128>,
}

impl Model for Code {
    ghost use Rattle.lzk_expr.specs.Codes.{Coded, IsSomeCode};
    ghost use Rattle.lzk_expr.specs.contracts.ast.FieldId as field_row;
    ghost use Rattle.lzk_expr.specs.contracts.code.Word as word_row;
    ghost use Rattle.std.specs.Coded.{codes};

    ghost Value = { Coded };

    ghost view = { λ c. record {
      field_is = c.field;
      publics = c.publics;
      privates = c.privates;
      words = c.words.items;
      numbers = c.numbers.items;
    } };

    ghost invariant = { λ c. IsSomeCode (record {
      field_is = c.field;
      publics = c.publics;
      privates = c.privates;
      words = c.words.items;
      numbers = c.numbers.items;
    }) };

    ghost coded = { Prim.hlevel (codes, word_row.the_row.coded, field_row.the_row.coded) };
}

impl Code {
    /// The code with these words and numbers, which is that of some text of at most 4 MiB. For callers that prove it.
    pub fn new(
        field: FieldId,
        publics: u32,
        privates: u32,
        words: Vec<Word>,
        numbers: Vec<u128>,
    ) -> Code
        requires { IsSomeCode (record {
          field_is = field;
          publics = publics;
          privates = privates;
          words = words.items;
          numbers = numbers.items;
        }) }
        ensures { result ≡ record {
          field_is = field;
          publics = publics;
          privates = privates;
          words = words.items;
          numbers = numbers.items;
        } }
    {
        Code {
            field,
            publics,
            privates,
            words,
            numbers,
        }
    }

    /// The field that the expressions are over.
    pub fn field(&self) -> FieldId
        ensures { result ≡ self.now.field_is }
    {
        self.field
    }

    /// How many public inputs there are.
    pub fn publics(&self) -> u32
        ensures { result ≡ self.now.publics }
    {
        self.publics
    }

    /// How many private inputs there are.
    pub fn privates(&self) -> u32
        ensures { result ≡ self.now.privates }
    {
        self.privates
    }

    /// The words in order.
    pub fn words(&self) -> &[Word]
        ensures words { result.now ≡ self.now.words }
        ensures some { IsSomeCode self.now }
    {
        &self.words
    }

    /// The numbers, by their places.
    pub fn numbers(&self) -> &[u128]
        ensures { result.now ≡ self.now.numbers }
    {
        &self.numbers
    }
}
