ghost use Rattle.std.specs.Prelude.{◌≡◌, ◌<◌, ◌^◌, ℕ, List, None, Some, IfOk, OnOk, Option, if◌then◌else◌};
ghost use Rattle.std.specs.Option.{option_map, option_or};
ghost use Rattle.std.specs.Str.{bytes_eq};
ghost use Rattle.dsm_asm.specs.Table.{held, places};

use std::alloc::{AllocError, Global};
use std::collections::BTreeMap;

/// Where a label stands.
#[derive(Clone, Copy, Debug, PartialEq, Eq)]
pub struct Label {
    /// How many lines stand before the one that defines it, the first if several do.
    pub line: u32,
    /// The place in the code that it stands for.
    pub place: u32,
}

/// The labels of a text.
#[derive(Drop)]
pub struct Labels<'a> {
    pub map: BTreeMap<&'a [u8], Label>,
}

impl<'a> Labels<'a> {
    /// No label. It takes no memory.
    pub fn new(alloc: Global) -> Labels<'a>
        ensures { (name : List ℕ) → held result name ≡ None }
    {
        Labels {
            map: BTreeMap::new(alloc),
        }
    }

    /// Where the label of this name stands.
    pub fn get(&self, name: &[u8]) -> Option<Label>
        ensures at { result ≡ held self.now name.now }
        ensures place { option_map (λ l. l.place) result ≡ places self.now name.now }
    {
        self.map.get(name).copied()
    }

    /// Defines a label, unless there is one of this name.
    pub fn define(&mut self, name: &'a [u8], label: Label) -> Result<(), AllocError>
        ensures { OnOk result ((other : List ℕ) → held self.new other ≡ option_or (held self.old other) (if bytes_eq name.now other then Some label else None)) }
    {
        if self.map.contains_key(name) {
            return Ok(());
        }
        self.map.insert(name, label)?;
        Ok(())
    }
}
