// Where the objects stand in a list.
ghost use Rattle.std.specs.Prelude.{◌≡◌, ◌≢◌, ℕ, Some, None, OnOk};
ghost use Rattle.dsm_entry.specs.declared.entry.Obj.{Obj};
ghost use Rattle.dsm_flat.specs.Gates.{item_of, place_of};

use dsm_entry::entry::{NoMemory, Obj};
use std::alloc::Global;

/// For each object its place in a list, if it has one.
#[derive(Drop)]
pub struct Index {
    locks: Vec<Option<usize>>,
    barriers: Vec<Option<usize>>,
    flags: Vec<Option<usize>>,
    close: Option<usize>,
}

// Item n of a table, and None behind its end.
fn item(table: &[Option<usize>], n: u32) -> Option<usize>
    ensures { result ≡ item_of table.now n }
{
    match table.get(n as usize) {
        Some(k) => *k,
        None => None,
    }
}

// Puts item n of a table.
fn put_item(table: &mut Vec<Option<usize>>, n: u32, k: usize) -> Result<(), NoMemory>
    ensures own { OnOk result (item_of table.new.items n ≡ Some k) }
    ensures others { OnOk result ((m : ℕ) → m ≢ n → item_of table.new.items m ≡ item_of table.old.items m) }
{
    let n = n as usize;
    for _m in table.len()..n + 1 {
        table.push(None)?;
    }
    table[n] = Some(k);
    Ok(())
}

impl Index {
    /// An index of no object. It takes no memory.
    pub fn new(alloc: Global) -> Index
        ensures { (o : Obj) → place_of result o ≡ None }
    {
        Index {
            locks: Vec::new(alloc),
            barriers: Vec::new(alloc),
            flags: Vec::new(alloc),
            close: None,
        }
    }

    /// The place of an object.
    pub fn find(&self, o: Obj) -> Option<usize>
        ensures { result ≡ place_of self.now o }
    {
        match o {
            Obj::Lock(l) => item(&self.locks, l),
            Obj::Barrier(b) => item(&self.barriers, b),
            Obj::Flag(f) => item(&self.flags, f),
            Obj::Close => self.close,
        }
    }

    /// Puts the place of an object.
    pub fn put(&mut self, o: Obj, k: usize) -> Result<(), NoMemory>
        ensures own { OnOk result (place_of self.new o ≡ Some k) }
        ensures others { OnOk result ((q : Obj) → q ≢ o → place_of self.new q ≡ place_of self.old q) }
    {
        match o {
            Obj::Lock(l) => put_item(&mut self.locks, l, k),
            Obj::Barrier(b) => put_item(&mut self.barriers, b, k),
            Obj::Flag(f) => put_item(&mut self.flags, f, k),
            Obj::Close => {
                self.close = Some(k);
                Ok(())
            }
        }
    }
}
