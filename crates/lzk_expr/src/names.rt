//! The names that were declared.

ghost use Rattle.std.specs.Prelude.{◌≡◌, None, Some, IfOk, OnOk, is_some, bytes_eq};
ghost use Rattle.std.specs.Map.{update};
ghost use Rattle.lzk_expr.specs.Table.{found};

use crate::key::Key;
use std::alloc::{AllocError, Global};
use std::collections::HashMap;

// What a name stands for, by its number.
#[derive(Clone, Copy)]
pub(crate) enum Binding {
    Public(u32),
    Private(u32),
    Named(u32),
}

#[derive(Drop)]
pub(crate) struct Names<'a> {
    pub table: HashMap<Key<'a>, Binding>,
}

impl<'a> Names<'a> {
    pub fn new(alloc: Global) -> Names<'a>
        ensures { (w : _) → found result.table w ≡ None }
    {
        Names {
            table: HashMap::new(alloc),
        }
    }

    pub fn find(&self, name: &[u8]) -> Option<Binding>
        ensures { result ≡ found self.now.table name.now }
    {
        match self.table.get(&Key::new(name)) {
            Some(binding) => Some(*binding),
            None => None,
        }
    }

    // Lets a name stand for this, and answers whether it stood for something before.
    pub fn declare(&mut self, name: &'a [u8], binding: Binding) -> Result<bool, AllocError>
        ensures known { IfOk result (λ known. known ≡ is_some (found self.old.table name.now)) }
        ensures declares { OnOk result
            ((w : _) → found self.new.table w ≡ update bytes_eq (found self.old.table) name.now (Some binding) w) }
    {
        let before = self.table.insert(Key::new(name), binding)?;
        Ok(before.is_some())
    }
}
