//! An expression that is being read.

ghost use Rattle.std.specs.Prelude.{◌≡◌, Some, OnOk};
ghost use Rattle.lzk_expr.specs.Meanings as meaning;
ghost use Rattle.lzk_expr.specs.Meanings.{Minus, nothing_read, opened, with_atom_read, with_part, next, half_closed, added, parts_of_half};
ghost use Rattle.lzk_expr.specs.View.{expr_of};
ghost use Rattle.lzk_source.specs.Halves.{reads_of};

use crate::half::{Half, empty, end_product, ended, take_atom};
use crate::lists::push;
use lzk_expr::Expr;
use std::alloc::{AllocError, Global};
use std::mem;

// What stands before each open parenthesis, the innermost last; what is read now; and whether a
// product is there. What a step does that no expression has there is left open.
#[derive(Drop)]
pub(crate) struct Reads {
    pub outer: Vec<Half>,
    pub now: Half,
    pub ready: bool,
}

pub(crate) fn nothing_read(alloc: Global) -> Reads
    ensures { reads_of result ≡ nothing_read }
{
    Reads {
        outer: Vec::new(alloc),
        now: empty(alloc),
        ready: false,
    }
}

impl Reads {
    pub fn open(&mut self, alloc: Global) -> Result<(), AllocError>
        ensures { OnOk result (reads_of self.new ≡ opened (reads_of self.old)) }
    {
        let before = mem::replace(&mut self.now, empty(alloc));
        self.ready = false;
        push(&mut self.outer, before)
    }

    pub fn atom(&mut self, alloc: Global, expr: Expr) -> Result<(), AllocError>
        ensures { OnOk result (reads_of self.new ≡ with_atom_read (reads_of self.old) (expr_of expr)) }
    {
        self.ready = true;
        take_atom(alloc, &mut self.now, expr)
    }

    pub fn part(&mut self, alloc: Global, minus: bool) -> Result<(), AllocError>
        ensures { OnOk result (reads_of self.new ≡ with_part (reads_of self.old) minus) }
    {
        self.ready = false;
        end_product(alloc, &mut self.now, minus)
    }

    // A minus is the sign of the next part where a product is there, and of the next atom otherwise.
    pub fn minus(&mut self, alloc: Global) -> Result<(), AllocError>
        ensures { (after : meaning.Reads) → next (reads_of self.old) Minus ≡ Some after
            → OnOk result (reads_of self.new ≡ after) }
    {
        if self.ready {
            return self.part(alloc, true);
        }
        self.now.negated = true;
        Ok(())
    }

    pub fn close(&mut self, alloc: Global) -> Result<(), AllocError>
        ensures { (after : meaning.Reads)
            → half_closed (reads_of self.old).outer (added (parts_of_half (reads_of self.old).now)) ≡ Some after
            → OnOk result (reads_of self.new ≡ after) }
    {
        let Some(before) = self.outer.pop() else {
            return Ok(());
        };
        let inner = mem::replace(&mut self.now, before);
        let Ok(expr) = ended(inner) else {
            return Err(AllocError);
        };
        self.atom(alloc, expr)
    }
}
