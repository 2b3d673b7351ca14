// Laws of the order, whatever the traces are.
ghost use Rattle.dsm_flat.specs.Laws.{IsTransitive, RankExcludesCircles, LastIsDetermined, FinalIsDetermined, OneTrace, SignalThenPass};
ghost use Rattle.dsm_flat.specs.WordLaw.{WordIsFlat, WordIsHandedOver};
ghost use Rattle.dsm_flat.specs.Logs.{NewIsOneMore, OldStays, NewestIsThere, OwnRises, LogHasAccesses, LatestGrows, OrderGrows};
ghost use Rattle.dsm_flat.specs.Clocks.{BeforeByEdges, ClockOfPast, ClockTells, ClockIsDetermined, NotAllBlocked};
ghost use Rattle.dsm_flat.specs.Racing.{StartDecides, OtherDecides, LoadDecides, StoreDecides, LastStoreRaces, LoadRaces, AllDecided};
ghost use Rattle.dsm_flat.specs.Visits.{StepVisits, OthersStay};

/// The laws of the order. It does nothing: its clauses are what it is for.
pub fn order_laws()
    // What is before a place is before all that the place is before.
    ensures transitive { IsTransitive }
    // A number for each place that every edge raises shows that no place is before itself.
    ensures rank { RankExcludesCircles }
    // Where no place is before itself, a place has at most one last value of a word.
    ensures last { LastIsDetermined }
    // Where no place is before itself, a word has at most one final value.
    ensures final_value { FinalIsDetermined }
    // For one trace in which no place is before itself, before is the order of places.
    ensures one_trace { OneTrace }
    // From one processor to another, before leads by a signal and then a pass.
    ensures carried { SignalThenPass }
{}

/// The law for one word. It does nothing: its clauses are what it is for.
pub fn word_law()
    // Where each load of the word has the value of the latest store before it, in an order that every edge raises, each
    // load has a source, and an ordered word is flat, with the value of the latest store of all as its final value.
    ensures flat { WordIsFlat }
    // From a store to an ordered word to a later access by another processor lead a signal and then a pass.
    ensures handed { WordIsHandedOver }
{}

/// The laws of a log, which is what all processors did in the order in which they did it. It does nothing: its clauses are
/// what it is for.
pub fn log_law()
    // What is in a log with one deed more is old, or it is that deed.
    ensures one_more { NewIsOneMore }
    // What was in the log stays at its place, and keeps its rank.
    ensures old { OldStays }
    // The newest deed is there, and has the greatest rank.
    ensures newest { NewestIsThere }
    // In one processor's trace a later entry has a greater rank.
    ensures own { OwnRises }
    // The accesses to a word in a log are those in its traces, the one of highest rank first.
    ensures accesses { LogHasAccesses }
    // A deed that stores to the word is its latest store.
    ensures latest { LatestGrows }
    // A deed that gets the latest store where it loads the word keeps its accesses in order.
    ensures order { OrderGrows }
{}

/// The laws of clocks. It does nothing: its clauses are what it is for.
pub fn clock_law()
    // What is before an entry comes to it from the previous one of its trace, or from the signals that it stands behind.
    ensures edges { BeforeByEdges }
    // With one entry more of its own processor, the counts of what is before a place are its clock.
    ensures past { ClockOfPast }
    // A clock counts of other places those that are before its own.
    ensures tells { ClockTells }
    // Two clocks of a place have the same numbers.
    ensures one_clock { ClockIsDetermined }
    // Where no place is before itself, all entries can be visited such that each comes behind what is before it.
    ensures not_blocked { NotAllBlocked }
    // An entry whose clock is made of its processor's, of the signals that it stands behind and of itself is visited behind what
    // is before it,
    ensures step { StepVisits }
    // and the clocks of the other processors stay theirs.
    ensures others { OthersStay }
{}

/// The laws of what decides about later accesses to a word, where each entry is visited behind what is before it. It does
/// nothing: its clauses are what it is for.
pub fn race_law()
    // In the beginning there is no last store, and no load.
    ensures start { StartDecides }
    // An entry that does not access the word changes nothing.
    ensures other { OtherDecides }
    // A load behind the last store is the last load of its processor.
    ensures load { LoadDecides }
    // A store behind the last store and the loads is the last store, and no load is since then.
    ensures store { StoreDecides }
    // An access that is not behind the last store races.
    ensures last_store_races { LastStoreRaces }
    // A store that is not behind some load since the last store races.
    ensures load_races { LoadRaces }
    // A word of which no access races is ordered.
    ensures all { AllDecided }
{}
