//! Reading statement lines to code.

ghost use Rattle.std.specs.Prelude.{◌≡◌, ◌≤◌, ◌<◌, ◌+◌, ◌^◌, ◌&&◌, ◌||◌, ℕ, List, length};
ghost use Rattle.std.specs.Prelude.{is_some, true, false};
ghost use Rattle.std.specs.Prelude.{None, IfOk, OnOk, []};
ghost use Rattle.lzk_expr.specs.Texts.{content};
ghost use Rattle.lzk_profile.specs.Profile.{most_privates};
ghost use Rattle.lzk_expr.specs.SymbolForms.{IsScanOf};
ghost use Rattle.lzk_expr.specs.Sources.{Before, nothing_yet, is_field};
ghost use Rattle.lzk_expr.specs.Table.{found};
ghost use Rattle.lzk_expr.specs.Readers.{key_of, input_statement};
ghost use Rattle.lzk_expr.specs.Coders.{IsCoder, with_statement, TakesSymbols, TakesTextLine};
ghost use Rattle.lzk_expr.specs.Coders.{input_count, has_room, used, broken_by, names_broken_by, refused_by};
ghost use Rattle.lzk_expr.specs.declared.tokens.Keyword.TheVariants.{Field, Let, Assert};

use crate::ast::FieldId;
use crate::code::Word;
use crate::line_forms::{definition, field_of, first_keyword, halves};
use crate::names::{Binding, Names};
use crate::rules::Scan;
use crate::source_fault::SourceKind;
use crate::sum_words::{Marks, push_sum};
use crate::tokens::{Keyword, Symbol};
use lzk_profile::MOST_PRIVATES;
use std::alloc::{AllocError, Global};

// The two kinds of inputs.
#[derive(Clone, Copy)]
pub(crate) enum Input {
    Public,
    Private,
}

// What was read so far: the field, the statements' code, the declared names, and how many there are of each.
#[derive(Drop)]
pub(crate) struct Coder<'a> {
    pub field: Option<FieldId>,
    pub words: Vec<Word>,
    pub numbers: Vec<u128>,
    pub names: Names<'a>,
    pub publics: u32,
    pub privates: u32,
    pub lets: u32,
    pub asserts: u32,
}

// The first rule that a line with an expression breaks, where it is known whether it declares a name again.
fn broken(marks: Marks, twice: bool) -> Option<SourceKind>
    ensures { result ≡ broken_by marks.formed twice marks.known marks.below }
{
    if !marks.formed {
        return Some(SourceKind::Syntax);
    }
    if twice {
        return Some(SourceKind::Twice);
    }
    if !marks.known {
        return Some(SourceKind::Unknown);
    }
    if !marks.below {
        return Some(SourceKind::TooLarge);
    }
    None
}

// The first rule that a line of names breaks.
fn names_broken(none: bool, twice: bool) -> Option<SourceKind>
    ensures { result ≡ names_broken_by none twice }
{
    if none {
        return Some(SourceKind::Syntax);
    }
    if twice {
        return Some(SourceKind::Twice);
    }
    None
}

impl<'a> Coder<'a> {
    // Nothing was read. The list is for the words.
    pub fn with_words(alloc: Global, words: Vec<Word>) -> Coder<'a>
        requires none { words.items ≡ [] }
        ensures holds { IsCoder result nothing_yet }
        ensures used { used result ≡ 0 }
    {
        Coder {
            field: None,
            words,
            numbers: Vec::new(alloc),
            names: Names::new(alloc),
            publics: 0,
            privates: 0,
            lets: 0,
            asserts: 0,
        }
    }

    // Whether a line may begin so: the first one names the field.
    fn may_have(&self, keyword: Keyword) -> bool
        ensures { result ≡ (is_some self.now.field || is_field keyword) }
    {
        match keyword {
            Keyword::Field => true,
            _ => self.field.is_some(),
        }
    }

    // Each token behind public or private counts as an input.
    fn has_room(&self, keyword: Keyword, symbols: &[Symbol<'a>]) -> bool
        ensures { result ≡ has_room self.now keyword (length symbols.now) }
    {
        match keyword {
            Keyword::Public => self.publics as usize + symbols.len() <= 65_535,
            Keyword::Private => self.privates as usize + symbols.len() <= MOST_PRIVATES as usize,
            Keyword::Assert => self.asserts < 131_072,
            _ => true,
        }
    }

    fn take_field(&mut self, symbols: &[Symbol<'a>]) -> Option<SourceKind>
        ensures takes { TakesSymbols self.old self.new Field symbols.now result }
        ensures used { used self.new ≡ used self.old }
    {
        let Some(field) = field_of(symbols) else {
            return Some(SourceKind::Syntax);
        };
        if self.field.is_some() {
            return Some(SourceKind::Twice);
        }
        self.field = Some(field);
        None
    }

    // Declares an input, and answers whether its name was known.
    fn declare_input(&mut self, input: Input, name: &'a [u8]) -> Result<bool, AllocError>
        requires room { input_count input self.old < most_privates }
        ensures known { IfOk result (λ known. known ≡ is_some (found self.old.names.table name.now)) }
        ensures declares { IfOk result (λ known. (b : Before) → IsCoder self.old b → known ≡ false →
            IsCoder self.new (with_statement b (input_statement input name.now))) }
        ensures count { OnOk result (input_count input self.new ≡ input_count input self.old + 1) }
        ensures used { OnOk result (used self.new ≡ used self.old) }
    {
        match input {
            Input::Public => {
                let i = self.publics;
                self.publics = i + 1;
                self.names.declare(name, Binding::Public(i))
            }
            Input::Private => {
                let i = self.privates;
                self.privates = i + 1;
                self.names.declare(name, Binding::Private(i))
            }
        }
    }

    fn take_inputs(
        &mut self,
        input: Input,
        symbols: &[Symbol<'a>],
    ) -> Result<Option<SourceKind>, AllocError>
        requires room { input_count input self.old + length symbols.now ≤ most_privates }
        ensures takes { IfOk result (TakesSymbols self.old self.new (key_of input) symbols.now) }
        ensures used { OnOk result (used self.new ≡ used self.old) }
    {
        let mut twice = false;
        for symbol in symbols {
            let Symbol::Name(name) = *symbol else {
                return Ok(Some(SourceKind::Syntax));
            };
            let Ok(known) = self.declare_input(input, name) else {
                return Err(AllocError);
            };
            twice = twice | known;
        }
        Ok(names_broken(symbols.is_empty(), twice))
    }

    fn take_let(&mut self, symbols: &[Symbol<'a>]) -> Result<Option<SourceKind>, AllocError>
        requires field { is_some self.old.field ≡ true }
        requires few { used self.old + length symbols.now < 2 ^ 32 }
        ensures takes { IfOk result (TakesSymbols self.old self.new Let symbols.now) }
        ensures used { OnOk result (used self.new ≤ used self.old + length symbols.now) }
    {
        let field = self.field.unwrap();
        let Some((name, sum)) = definition(symbols) else {
            return Ok(Some(SourceKind::Syntax));
        };
        let Ok(marks) = push_sum(
            field,
            &self.names,
            sum,
            Word::Define,
            &mut self.words,
            &mut self.numbers,
        ) else {
            return Err(AllocError);
        };
        let Ok(twice) = self.names.declare(name, Binding::Named(self.lets)) else {
            return Err(AllocError);
        };
        self.lets += 1;
        Ok(broken(marks, twice))
    }

    fn take_assert(&mut self, symbols: &[Symbol<'a>]) -> Result<Option<SourceKind>, AllocError>
        requires field { is_some self.old.field ≡ true }
        requires room { self.old.asserts < 131072 }
        requires few { used self.old + length symbols.now < 2 ^ 32 }
        ensures takes { IfOk result (TakesSymbols self.old self.new Assert symbols.now) }
        ensures used { OnOk result (used self.new ≤ used self.old + length symbols.now) }
    {
        let field = self.field.unwrap();
        let Some((lhs, rhs)) = halves(symbols) else {
            return Ok(Some(SourceKind::Syntax));
        };
        let Ok(left) = push_sum(
            field,
            &self.names,
            lhs,
            Word::Left,
            &mut self.words,
            &mut self.numbers,
        ) else {
            return Err(AllocError);
        };
        let Ok(right) = push_sum(
            field,
            &self.names,
            rhs,
            Word::Right,
            &mut self.words,
            &mut self.numbers,
        ) else {
            return Err(AllocError);
        };
        self.asserts += 1;
        let both = Marks {
            formed: left.formed & right.formed,
            known: left.known & right.known,
            below: left.below & right.below,
        };
        Ok(broken(both, false))
    }

    fn take_form(
        &mut self,
        keyword: Keyword,
        symbols: &[Symbol<'a>],
    ) -> Result<Option<SourceKind>, AllocError>
        requires field { (is_some self.old.field || is_field keyword) ≡ true }
        requires room { has_room self.old keyword (length symbols.now) ≡ true }
        requires few { used self.old + length symbols.now < 2 ^ 32 }
        ensures takes { IfOk result (TakesSymbols self.old self.new keyword symbols.now) }
        ensures used { OnOk result (used self.new ≤ used self.old + length symbols.now) }
    {
        match keyword {
            Keyword::Field => Ok(self.take_field(symbols)),
            Keyword::Public => self.take_inputs(Input::Public, symbols),
            Keyword::Private => self.take_inputs(Input::Private, symbols),
            Keyword::Let => self.take_let(symbols),
            Keyword::Assert => self.take_assert(symbols),
        }
    }

    // The rule that a line breaks before its form is looked at.
    fn refused(&self, bounded: bool, keyword: Keyword, symbols: &[Symbol<'a>]) -> Option<SourceKind>
        ensures { result ≡ refused_by (is_some self.now.field || is_field keyword)
            (bounded && has_room self.now keyword (length symbols.now)) }
    {
        if !self.may_have(keyword) {
            return Some(SourceKind::NoField);
        }
        if !bounded {
            return Some(SourceKind::Limit);
        }
        if !self.has_room(keyword, symbols) {
            return Some(SourceKind::Limit);
        }
        None
    }

    // Takes a line's symbols, where it is known what the line keeps, or answers the first rule that it breaks. A line
    // with none is skipped.
    pub fn take_line(
        &mut self,
        scan: Scan,
        symbols: &[Symbol<'a>],
    ) -> Result<Option<SourceKind>, AllocError>
        requires { scan.clean ≡ true → used self.old + length symbols.now < 2 ^ 32 }
        ensures takes { IfOk result (λ broken. (b : Before) (line : List ℕ) → IsCoder self.old b
            → IsScanOf scan (content line) symbols.now → TakesTextLine b self.new line broken) }
        ensures clean { IfOk result (λ broken. broken ≡ None → scan.clean ≡ true) }
        ensures used { OnOk result (used self.new ≤ used self.old + length symbols.now) }
    {
        if !scan.clean {
            return Ok(Some(SourceKind::Character));
        }
        if symbols.is_empty() {
            return Ok(None);
        }
        let Some((keyword, rest)) = first_keyword(symbols) else {
            return Ok(Some(SourceKind::Keyword));
        };
        if let Some(kind) = self.refused(scan.bounded, keyword, rest) {
            return Ok(Some(kind));
        }
        self.take_form(keyword, rest)
    }
}
