ghost use Rattle.std.specs.Prelude.{◌≡◌, ◌+◌, ◌<◌, ◌≤◌, ◌++◌, [], ◌∷◌, length, slice_get, OnOk, OnErr, IsOk};

use crate::entry::{Entry, NoMemory};
use std::alloc::Global;
use std::marker::Model;

/// What one processor did, oldest entry first, with room for some entries more.
#[derive(Drop)]
pub struct Trace {
    entries: Vec<Entry>,
    spare: u64,
}

impl Model for Trace {
    ghost use Rattle.std.specs.Prelude.{◌+◌, ◌≤◌, vec_len, vec_capacity};
    ghost use Rattle.dsm_entry.specs.Told.{Told};

    ghost Value = { Told };

    ghost view = { λ t. record { list = t.entries.items; spare = t.spare } };

    ghost invariant = { λ t. vec_len t.entries + t.spare ≤ vec_capacity t.entries };
}

impl Trace {
    /// A trace with no entry, and room for none. It takes no memory.
    pub fn new(alloc: Global) -> Trace
        ensures list { result.list ≡ [] }
        ensures spare { result.spare ≡ 0 }
    {
        Trace {
            entries: Vec::new(alloc),
            spare: 0,
        }
    }

    /// Makes room for one entry. Where there is room already, it takes no memory; where memory is not
    /// got, the trace stays as it was, and had no room.
    pub fn reserve_one(&mut self) -> Result<(), NoMemory>
        ensures list { self.new.list ≡ self.old.list }
        ensures ok { OnOk result (0 < self.new.spare) }
        ensures err { OnErr result (self.new.spare ≡ self.old.spare) }
        ensures full { OnErr result (self.old.spare ≡ 0) }
        ensures ready { 0 < self.old.spare → IsOk result }
        ensures same { 0 < self.old.spare → self.new.spare ≡ self.old.spare }
    {
        self.reserve(1)
    }

    /// Makes room for `count` entries. Where there is room for so many already, it takes no memory; where memory is
    /// not got, the trace stays as it was, and had less room.
    pub fn reserve(&mut self, count: u64) -> Result<(), NoMemory>
        ensures list { self.new.list ≡ self.old.list }
        ensures ok { OnOk result (count ≤ self.new.spare) }
        ensures err { OnErr result (self.new.spare ≡ self.old.spare) }
        ensures full { OnErr result (self.old.spare < count) }
        ensures ready { count ≤ self.old.spare → IsOk result }
        ensures same { count ≤ self.old.spare → self.new.spare ≡ self.old.spare }
    {
        if self.spare >= count {
            return Ok(());
        }
        self.entries.reserve(count as usize)?;
        self.spare = count;
        Ok(())
    }

    /// Appends an entry. It takes no memory.
    pub fn push(&mut self, e: Entry)
        requires { 0 < self.old.spare }
        ensures list { self.new.list ≡ self.old.list ++ e ∷ [] }
        ensures spare { self.new.spare + 1 ≡ self.old.spare }
    {
        let _ = self.entries.push(e);
        self.spare -= 1;
    }

    /// How many entries there are.
    pub fn len(&self) -> u64
        ensures { result ≡ length self.now.list }
    {
        self.entries.len() as u64
    }

    /// Entry `i`, from 0, and None exactly where there are no more than `i`.
    pub fn get(&self, i: u64) -> Option<Entry>
        ensures { result ≡ slice_get self.now.list i }
    {
        self.entries.get(i as usize).copied()
    }
}

#[cfg(test)]
mod tests {
    use super::*;
    use crate::entry::Obj;
    use std::test::Fail;

    // Memory is there: room is made, and what is pushed is read back in order.
    #[test]
    fn pushes_in_order(rt: HostRuntime) -> Result<(), Fail> {
        let mut trace = Trace::new(rt.alloc());
        assert_eq!(rt; trace.reserve_one(), Ok(()));
        trace.push(Entry::Out { v: 7 });
        assert_eq!(rt; trace.reserve_one(), Ok(()));
        trace.push(Entry::Pass {
            o: Obj::Close,
            c: 1,
        });
        assert_eq!(rt; trace.len(), 2);
        assert_eq!(rt; trace.get(0), Some(Entry::Out { v: 7 }));
        assert_eq!(rt; trace.get(2), None);
        Ok(())
    }

    // Room made at once is room for as many, and asking for less leaves it.
    #[test]
    fn reserves_for_several(rt: HostRuntime) -> Result<(), Fail> {
        let mut trace = Trace::new(rt.alloc());
        assert_eq!(rt; trace.reserve(3), Ok(()));
        assert_eq!(rt; trace.reserve(2), Ok(()));
        trace.push(Entry::Out { v: 7 });
        trace.push(Entry::Out { v: 8 });
        trace.push(Entry::Out { v: 9 });
        assert_eq!(rt; trace.get(2), Some(Entry::Out { v: 9 }));
        Ok(())
    }
}
