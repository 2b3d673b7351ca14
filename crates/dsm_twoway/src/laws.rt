// The laws of every run.
ghost use Rattle.dsm_runs.specs.Laws.{LeavesOtherMappings};
ghost use Rattle.dsm_runs.specs.Promises.{EveryRunKeepsThem, AloneIsOrdered};
ghost use Rattle.dsm_twoway.specs.Promise.{EveryRunKeepsWords, EveryRunIsShort};

/// The headline: what is promised of every run of every program on every cluster, by whatever list of events, starved ones
/// included, and so at every step. It does nothing: its clauses are what it is for.
pub fn every_list()
    // Each processor did what its program says, and synchronisation was legal.
    ensures runs { EveryRunKeepsThem }
    // No load of a word returned a value that was not there; if the conflicting accesses of the word so far are ordered, each
    // load of it returned the last store ordered before it, whatever its neighbours on the page do; and once all processors
    // have halted, its home has its last store.
    ensures words { EveryRunKeepsWords }
    // No event changes another processor's mapping, nor its words of it.
    ensures mappings { LeavesOtherMappings }
    // Where a processor is alone, each word is ordered.
    ensures alone { AloneIsOrdered }
    // Each trace is short: a processor makes at most two entries for each instruction that it may do, and two at the end.
    ensures short { EveryRunIsShort }
{}
