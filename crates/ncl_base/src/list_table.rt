//! Lists at places, as items come to them.
ghost use Rattle.std.specs.Prelude.{◌≡◌, ◌<◌, [], IfOk, OnOk, length, replicate};
ghost use Rattle.ncl_base.specs.ListTables.{items_at, put_into};

use crate::memory::Memory;
use std::alloc::Global;
use std::marker::Model;

/// A list for each of some places, which contracts see as a list of lists.
#[derive(Drop)]
pub struct ListTable<T> {
    lists: Vec<Vec<T>>,
}

impl<T> Model for ListTable<T> {
    ghost use Rattle.std.specs.Prelude.{List, map};

    ghost Value = { List (List T) };

    ghost view = { λ a. map (λ l. l.items) a.lists.items };
}

impl<T: Copy> ListTable<T> {
    /// Nothing at so many places. An error is want of memory. Linear in their count.
    pub fn new(alloc: Global, places: usize) -> Result<Self, Memory>
        ensures { IfOk result (λ lists. lists ≡ replicate places []) }
    {
        let mut lists = Vec::with_capacity(alloc, places)?;
        for _ in 0..places {
            lists.push(Vec::new(alloc))?;
        }
        Ok(ListTable { lists })
    }

    /// One item more at a place, the last there. An error is want of memory.
    pub fn put(&mut self, place: usize, item: T) -> Result<(), Memory>
        requires { place < length self.old }
        ensures { OnOk result (self.new ≡ put_into self.old place item) }
    {
        self.lists[place].push(item)?;
        Ok(())
    }

    /// The items at a place, as they came. Takes no memory.
    pub fn at(&self, place: usize) -> &[T]
        requires { place < length self.now }
        ensures { result.now ≡ items_at self.now place }
    {
        self.lists[place].as_slice()
    }
}
