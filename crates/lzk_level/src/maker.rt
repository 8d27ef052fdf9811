//! The nodes of code, made word by word.

ghost use Rattle.std.specs.Prelude.{◌≡◌, ℕ, ◌+◌, ◌≤◌, ◌++◌, List, [], ◌∷◌, slice_index_or, Some, OnOk, IfOk};
ghost use Rattle.lzk_expr.specs.Codes.{IsCodeOf, IsSomeCode, code_word, code_done, nameless};
ghost use Rattle.lzk_expr.specs.Trees.{SourceTree};
ghost use Rattle.lzk_level.specs.Nodes.{node_count};
ghost use Rattle.lzk_level.specs.Compilable.{IsNodeOrNone};
ghost use Rattle.lzk_level.specs.Finished.{AreBuilt, IsSomeBuilt};
ghost use Rattle.lzk_level.specs.Steps.{Held, held_in, nothing_held, CanJoin, AreHalvesOf};
ghost use Rattle.lzk_level.specs.Steps.{with_value, next_part_held, held_minus, held_times};
ghost use Rattle.lzk_level.specs.Steps.{held_sum, sum_ended, held_begun, held_opened, held_closed};
ghost use Rattle.lzk_level.specs.Steps.{held_defined, held_left, held_right, HasProduct, HasSum};
ghost use Rattle.lzk_level.specs.Makings.{IsOnTheWay, IsTaken, CanTakeWord};

use crate::builder::Builder;
use crate::half::{Half, nothing_of, times_before};
use crate::lets::{Operand, let_at};
use crate::list::push;
use crate::node::Node;
use crate::sum::{add_part, equate, sum_of};
use crate::value::{join, node_of, signed_value};
use lzk_expr::{Code, Word};
use lzk_field::Field;
use std::alloc::{AllocError, Global};

/// What is made of code so far. The parts of all open sums stand in one list.
#[derive(Drop)]
pub(crate) struct Maker<F: Field> {
    pub builder: Builder<F>,
    pub outer: Vec<Half<F>>,
    pub now: Half<F>,
    pub ready: bool,
    pub parts: Vec<(F, Node)>,
    pub lets: Vec<Operand<F>>,
    pub outputs: Vec<Node>,
    pub left: Option<Node>,
}

// A maker of the code's inputs.
fn new_maker<F: Field>(alloc: Global, code: &Code) -> Result<Maker<F>, AllocError>
    ensures { IfOk result (λ maker. held_in maker ≡ nothing_held F.ops code.now.publics code.now.privates) }
{
    // The code is that of some source, so its counts are small. Most gates take two words or more.
    let words = code.words();
    let builder = Builder::with_room(alloc, code.publics(), code.privates(), words.len() / 2)?;
    Ok(Maker {
        builder,
        outer: Vec::new(alloc),
        now: nothing_of(0, 0),
        ready: false,
        parts: Vec::new(alloc),
        lets: Vec::new(alloc),
        outputs: Vec::new(alloc),
        left: None,
    })
}

// The number at a place.
fn number_in(numbers: &[u128], place: u32) -> u128
    ensures { result ≡ slice_index_or numbers.now place 0 }
{
    match numbers.get(place as usize) {
        Some(number) => *number,
        None => 0,
    }
}

impl<F: Field> Maker<F> {
    // A value, with the sign before it, as one more factor.
    fn value(&mut self, operand: Operand<F>) -> Result<(), AllocError>
        requires room { node_count self.old.builder + 2 ≤ 2147483648 }
        requires operand { CanJoin (node_count self.old.builder) self.old.now.node operand }
        ensures { OnOk result (held_in self.new ≡ with_value F.ops (held_in self.old) operand) }
    {
        let value = signed_value(&mut self.builder, self.now.negated, operand)?;
        self.now.negated = false;
        self.ready = true;
        match value {
            Operand::Constant(c) => {
                self.now.number = Some(times_before(self.now.number, c));
                Ok(())
            }
            Operand::AtNode(node) => {
                let product = join(&mut self.builder, self.now.node, node)?;
                self.now.node = Some(product);
                Ok(())
            }
        }
    }

    // The product is a part, and the next one has this sign.
    fn part(&mut self, minus: bool) -> Result<(), AllocError>
        requires { HasProduct self.old.builder self.old.now }
        ensures { OnOk result (held_in self.new ≡ next_part_held F.ops (held_in self.old) minus) }
    {
        self.now.total = add_part(&mut self.builder, &mut self.parts, &self.now)?;
        self.now.minus = minus;
        self.now.number = None;
        self.now.node = None;
        self.now.negated = false;
        self.ready = false;
        Ok(())
    }

    // The value of the sum that was read, whose parts go.
    fn sum(&mut self) -> Result<Operand<F>, AllocError>
        requires { HasSum self.old.builder self.old.now self.old.parts.items }
        ensures held { IfOk result (λ _. held_in self.new ≡ sum_ended F.ops (held_in self.old)) }
        ensures value { IfOk result (λ value. value ≡ (held_sum F.ops (held_in self.old)).operand) }
    {
        sum_of(&mut self.builder, &mut self.parts, &self.now)
    }

    // The next sum begins.
    fn begin(&mut self)
        ensures { held_in self.new ≡ held_begun F.ops (held_in self.old) }
    {
        self.now = nothing_of(self.builder.gate_count(), self.parts.len());
        self.ready = false;
    }

    fn open(&mut self) -> Result<(), AllocError>
        ensures { OnOk result (held_in self.new ≡ held_opened F.ops (held_in self.old)) }
    {
        let pushed = push(&mut self.outer, self.now);
        self.begin();
        pushed
    }

    fn close(&mut self) -> Result<(), AllocError>
        requires can { HasSum self.old.builder self.old.now self.old.parts.items }
        requires outer { AreHalvesOf (node_count self.old.builder) self.old.outer.items }
        ensures { (outer : List (Half F)) (before : Half F) → self.old.outer.items ≡ outer ++ before ∷ []
            → OnOk result (held_in self.new ≡ held_closed F.ops (held_in self.old) outer before) }
    {
        let operand = self.sum()?;
        match self.outer.pop() {
            None => Ok(()),
            Some(before) => {
                self.now = before;
                self.value(operand)
            }
        }
    }

    fn minus(&mut self) -> Result<(), AllocError>
        requires { HasProduct self.old.builder self.old.now }
        ensures { OnOk result (held_in self.new ≡ held_minus F.ops (held_in self.old)) }
    {
        if self.ready {
            return self.part(true);
        }
        self.now.negated = true;
        Ok(())
    }

    fn times(&mut self)
        ensures { held_in self.new ≡ held_times (held_in self.old) }
    {
        self.ready = false;
    }

    // The nodes and the outputs.
    fn finished(self) -> (Builder<F>, Vec<Node>)
        ensures nodes { result.0 ≡ self.builder }
        ensures outputs { result.1.items ≡ self.outputs.items }
    {
        (self.builder, self.outputs)
    }

    fn define(&mut self) -> Result<(), AllocError>
        requires { HasSum self.old.builder self.old.now self.old.parts.items }
        ensures { OnOk result (held_in self.new ≡ held_defined F.ops (held_in self.old)) }
    {
        let operand = self.sum()?;
        self.begin();
        push(&mut self.lets, operand)
    }

    fn left(&mut self) -> Result<(), AllocError>
        requires { HasSum self.old.builder self.old.now self.old.parts.items }
        ensures { OnOk result (held_in self.new ≡ held_left F.ops (held_in self.old)) }
    {
        let operand = self.sum()?;
        let node = node_of(&mut self.builder, operand)?;
        self.left = Some(node);
        self.begin();
        Ok(())
    }

    fn right(&mut self) -> Result<(), AllocError>
        requires can { HasSum self.old.builder self.old.now self.old.parts.items }
        requires left { IsNodeOrNone (node_count (held_sum F.ops (held_in self.old)).nodes) self.old.left }
        ensures { (left : ℕ) → self.old.left ≡ Some left
            → OnOk result (held_in self.new ≡ held_right F.ops (held_in self.old) left) }
    {
        let operand = self.sum()?;
        let node = equate(&mut self.builder, &mut self.parts, self.left, operand)?;
        self.left = None;
        self.begin();
        push(&mut self.outputs, node)
    }

    /// Takes a word, where numbers stand in a list.
    pub fn take(&mut self, word: Word, numbers: &[u128]) -> Result<(), AllocError>
        requires { CanTakeWord F.ops (held_in self.old) (code_word numbers.now word) }
        ensures { OnOk result
            (IsTaken F.ops F.coding.element (code_word numbers.now word) (held_in self.old) (held_in self.new)) }
    {
        match word {
            Word::Number(i) => self.value(Operand::Constant(F::of_word(number_in(numbers, i)))),
            Word::Public(i) => {
                let node = self.builder.public(i);
                self.value(Operand::AtNode(node))
            }
            Word::Private(i) => {
                let node = self.builder.private(i);
                self.value(Operand::AtNode(node))
            }
            Word::Named(i) => {
                let operand = let_at(&self.lets, i);
                self.value(operand)
            }
            Word::Plus => self.part(false),
            Word::Minus => self.minus(),
            Word::Times => {
                self.times();
                Ok(())
            }
            Word::Open => self.open(),
            Word::Close => self.close(),
            Word::Define => self.define(),
            Word::Left => self.left(),
            Word::Right => self.right(),
        }
    }
}

// Takes all words of code.
fn take_all<F: Field>(maker: &mut Maker<F>, code: &Code) -> Result<(), AllocError>
    requires { held_in maker.old ≡ nothing_held F.ops code.now.publics code.now.privates }
    ensures some { IsSomeCode code.now }
    ensures way { (source : SourceTree) → IsCodeOf code.now source
        → OnOk result (IsOnTheWay F.ops F.coding.element code.now.publics code.now.privates []
        (code_done (nameless source.statements)) (held_in maker.new)) }
{
    let words = code.words();
    let numbers = code.numbers();
    for i in 0..words.len() {
        maker.take(words[i], numbers)?;
    }
    Ok(())
}

/// The nodes of code, and its outputs.
pub(crate) fn code_nodes<F: Field>(
    alloc: Global,
    code: &Code,
) -> Result<(Builder<F>, Vec<Node>), AllocError>
    ensures some { IfOk result (λ made. IsSomeBuilt F.ops F.coding.element made.0 made.1.items) }
    ensures built { (source : SourceTree) → IsCodeOf code.now source
        → IfOk result (λ made. AreBuilt F.ops F.coding.element source.statements made.0 made.1.items) }
{
    let mut maker = new_maker(alloc, code)?;
    let taken = take_all(&mut maker, code);
    taken.and(Ok(maker.finished()))
}
