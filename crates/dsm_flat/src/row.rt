// For each processor an index into its trace.
ghost use Rattle.std.specs.Prelude.{◌≡◌, ◌<◌, ◌≤◌, ◌↔◌, [], length, map, slice_index, slice_set, IfOk, IsTrue};
ghost use Rattle.dsm_entry.specs.Told.{lists_of};
ghost use Rattle.dsm_flat.specs.Links.{IsFirstPass, AreFirstPasses};
ghost use Rattle.dsm_flat.specs.Rows.{Covers, IsLowered};

use crate::passes::first_pass;
use dsm_entry::entry::{NoMemory, Obj, Place};
use dsm_entry::trace::Trace;
use std::alloc::Global;
use std::marker::Model;

/// For each processor an index into its trace. It stands for the places at or behind these.
#[derive(Drop)]
pub struct Row {
    indices: Vec<u64>,
}

impl Model for Row {
    ghost use Rattle.std.specs.Prelude.{ℕ, List};

    ghost Value = { List ℕ };

    ghost view = { λ r. r.indices.items };
}

impl Row {
    /// No index. It takes no memory.
    pub fn empty(alloc: Global) -> Row
        ensures { result ≡ [] }
    {
        Row {
            indices: Vec::new(alloc),
        }
    }

    /// The length of each trace, so that it covers no place.
    pub fn ends(alloc: Global, traces: &[Trace]) -> Result<Row, NoMemory>
        ensures { IfOk result (λ r. r ≡ map (λ t. length t.list) traces.now) }
    {
        let indices = traces.iter().map(|t| t.len()).collect(alloc)?;
        Ok(Row { indices })
    }

    /// The first pass in each trace that stands behind signal `j` of `o`, or the length of the trace.
    pub fn first_passes(alloc: Global, traces: &[Trace], o: Obj, j: u64) -> Result<Row, NoMemory>
        ensures { IfOk result (AreFirstPasses (lists_of traces.now) o j) }
    {
        let mut indices = Vec::new(alloc);
        for trace in traces {
            indices.push(first_pass(trace, o, j))?;
        }
        Ok(Row { indices })
    }

    /// How many indices there are.
    pub fn len(&self) -> usize
        ensures { result ≡ length self.now }
    {
        self.indices.len()
    }

    /// The index of processor `p`.
    pub fn get(&self, p: usize) -> u64
        requires { p < length self.now }
        ensures { result ≡ slice_index self.now p }
    {
        self.indices[p]
    }

    /// Puts the index of processor `p`.
    pub fn set(&mut self, p: usize, i: u64)
        requires { p < length self.old }
        ensures { self.new ≡ slice_set self.old p i }
    {
        self.indices[p] = i;
    }

    /// Takes the lesser of two indices for each processor that the other row has.
    pub fn lower(&mut self, to: &Row)
        requires { length to.now ≤ length self.old }
        ensures { IsLowered self.old to.now self.new }
    {
        for q in 0..to.indices.len() {
            if to.indices[q] < self.indices[q] {
                self.indices[q] = to.indices[q];
            }
        }
    }

    /// Whether a place is at or behind the index of its processor.
    pub fn covers(&self, x: Place) -> bool
        requires { x.p < length self.now }
        ensures { IsTrue result ↔ Covers self.now x }
    {
        self.indices[x.p as usize] <= x.i
    }
}
