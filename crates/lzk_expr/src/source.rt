//! Sources.

ghost use Rattle.std.specs.Prelude.{◌≡◌, count_by};
ghost use Rattle.lzk_expr.specs.Sources.{IsWellFormed, IsSource};
ghost use Rattle.lzk_expr.specs.Trees.{is_public, is_private, is_assertion};
ghost use Rattle.lzk_expr.specs.View.{statements_of, tree_of};

use crate::ast::{FieldId, Statement};
use std::marker::Model;

/// A source: its field and its statements. It is well formed: some text reads as it.
#[derive(Drop)]
pub struct Source {
    field: FieldId,
    publics: u32,
    privates: u32,
    asserts: u32,
    statements: Vec<Statement>,
}

impl Model for Source {
    ghost use Rattle.lzk_expr.specs.Sources.{IsSource};
    ghost use Rattle.lzk_expr.specs.View.{Held, tree_of};
    ghost use Rattle.lzk_expr.specs.contracts.ast.Statement as statement_row;
    ghost use Rattle.lzk_expr.specs.contracts.ast.FieldId as field_row;
    ghost use Rattle.std.specs.Coded.{codes};

    ghost Value = { Held };

    ghost view = { λ s. record { field_is = s.field; statements = s.statements.items } };

    ghost invariant = { λ s.
        IsSource (tree_of (record { field_is = s.field; statements = s.statements.items })) s.publics s.privates
        s.asserts };

    ghost coded = { Prim.hlevel (codes, statement_row.the_row.coded, field_row.the_row.coded) };
}

impl Source {
    /// The source with these statements, which are those of some text of at most 4 MiB, and with their counts of public
    /// inputs, private inputs and asserts. For callers that prove it; `parse` of lzk_source reads a text.
    pub fn new(
        field: FieldId,
        statements: Vec<Statement>,
        publics: u32,
        privates: u32,
        asserts: u32,
    ) -> Source
        requires { IsSource (tree_of (record { field_is = field; statements = statements.items })) publics privates
            asserts }
        ensures { result ≡ record { field_is = field; statements = statements.items } }
    {
        Source {
            field,
            publics,
            privates,
            asserts,
            statements,
        }
    }

    /// The field that the expressions are over.
    pub fn field(&self) -> FieldId
        ensures { result ≡ self.now.field_is }
    {
        self.field
    }

    /// The statements in order. Inputs and let names are numbered in order of declaration, each kind from 0.
    pub fn statements(&self) -> &[Statement]
        ensures statements { result.now ≡ self.now.statements }
        ensures formed { IsWellFormed (tree_of self.now) }
    {
        &self.statements
    }

    /// How many public inputs there are.
    pub fn publics(&self) -> u32
        ensures { result ≡ count_by is_public (statements_of self.now.statements) }
    {
        self.publics
    }

    /// How many private inputs there are.
    pub fn privates(&self) -> u32
        ensures { result ≡ count_by is_private (statements_of self.now.statements) }
    {
        self.privates
    }

    /// How many asserts there are.
    pub fn asserts(&self) -> u32
        ensures { result ≡ count_by is_assertion (statements_of self.now.statements) }
    {
        self.asserts
    }
}
