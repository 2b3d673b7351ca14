// Laws of runs, which hold over every list of events.
ghost use Rattle.dsm_runs.specs.Laws.{StartsByItems, EveryStateIsWhole, LeavesOtherProcessors, LeavesOtherWords, LeavesOtherMappings, KeepsLengths, EveryProcessorIsGiven, EveryProcessorIsReady, EventsAreLoose};
ghost use Rattle.dsm_runs.specs.Stopping.{EveryStopIsTold, EveryStoppedIsTold};
ghost use Rattle.dsm_runs.specs.Wanting.{EveryWantIsStarved};
ghost use Rattle.dsm_runs.specs.Legality.{EverySyncIsLegal};
ghost use Rattle.dsm_runs.specs.Turning.{MapsAreItsOwn, MapsAreStoredByTheirOwn, HoldsItsTurn, TriesHoldingNone, EachTurnIsHeld, NoCircle, MappedLoadIsOneOperation, MappedStoreIsOneOperation};
ghost use Rattle.dsm_runs.specs.Promises.{EveryRunKeepsThem, AloneIsOrdered};
ghost use Rattle.dsm_runs.specs.Examples.{Halts, StoresAndLoads, LoadsRemotely, Overwrites, MergesAndFlushes, GoesAsTold, IsBrokenByAVisit, KeepsTheWantedMapping, WithdrawsItsClaim, CoalescesAFlush, BreaksOnce, LocksInTurn, LockWordCounts, LooksAtALock, MeetTwice, PassesAtTheThirdLook, BothLook, StoppedByATrap, TrapsAtOnce, UnlocksOnce, StoppedByAStarved, SpendsTwo, NoneBehindTheEnd, NoneStarvedWithATurn, LoadsLoosely, IsWhatItWasGiven, Starts, HasItsMoments, NotesItsBreaks, NotesALateTelling, NotesWhoKeeps, NotesNoSend, NotesThreeGroups, GivesEachItsOwn};

/// What holds of every state, and what one event changes. It does nothing: its clauses are what it is for.
pub fn core_law()
    // The first words are what each item starts with.
    ensures start { StartsByItems }
    // No event adds a word or a processor.
    ensures whole { EveryStateIsWhole }
    // What holds over loose events holds over all.
    ensures loose { EventsAreLoose }
    // An event leaves every processor but its own alone,
    ensures processors { LeavesOtherProcessors }
    // and every word but that of its operation.
    ensures words { LeavesOtherWords }
    // There are as many of both as before.
    ensures lengths { KeepsLengths }
    // A processor is a function of what the events gave it, whatever the others did.
    ensures given { EveryProcessorIsGiven }
    // One that has not ended stands before an operation.
    ensures ready { EveryProcessorIsReady }
{}

/// Who stops whom, over every list of events. It does nothing: its clauses are what it is for.
pub fn stop_law()
    // The stop word is 0, or names a processor that ended and told all others to stop.
    ensures word { EveryStopIsTold }
    // Whoever is stopped is stopped by such a processor.
    ensures stopped { EveryStoppedIsTold }
{}

/// Who ends for want of memory, over every list of events. It does nothing: its clause is what it is for.
pub fn want_law()
    // Exactly those that were starved.
    ensures { EveryWantIsStarved }
{}

/// Synchronisation over every list of events, whatever the loads of frames and twins answer. It does nothing: its
/// clause is what it is for.
pub fn sync_law()
    // Nothing is before itself, a lock has one holder at a time, a barrier is passed behind all its arrivals, and a flag
    // behind as many sets as were asked.
    ensures { EverySyncIsLegal }
{}

/// Turns and mappings over every list of events, whatever the loads of frames and twins answer. It does nothing: its
/// clauses are what it is for.
pub fn turn_law()
    // The words of a processor's mappings are what it has of them.
    ensures maps { MapsAreItsOwn }
    // It alone stores them, and no event changes another processor's.
    ensures stored { MapsAreStoredByTheirOwn }
    ensures mappings { LeavesOtherMappings }
    // A load or a store that its mapping allows is one operation.
    ensures load { MappedLoadIsOneOperation }
    ensures store { MappedStoreIsOneOperation }
    // A turn has one holder, a processor holds one turn,
    ensures turns { HoldsItsTurn }
    // and one that tries a turn holds none.
    ensures tries { TriesHoldingNone }
    // A turn that is not free is held.
    ensures held { EachTurnIsHeld }
    // So nobody waits for turns in a circle.
    ensures goes { NoCircle }
{}

/// What is promised of every run of every cluster. It does nothing: its clauses are what it is for.
pub fn run_law()
    // Each processor did what its program says, and synchronisation was legal. It holds of what any list of events leaves,
    // and so at every step of every interleaving.
    ensures runs { EveryRunKeepsThem }
    // No event changes another processor's mapping.
    ensures mappings { LeavesOtherMappings }
    // And where a processor is alone, each word is ordered.
    ensures alone { AloneIsOrdered }
{}

/// Small runs, each with what it leaves. It does nothing: its clauses are what it is for.
pub fn core_examples()
    // A halt releases, arrives, looks, and closes.
    ensures halts { Halts }
    // A store that faults, a load and an output on one node.
    ensures whole { StoresAndLoads }
    // One of two nodes touches a page first, and is its home.
    ensures remote { LoadsRemotely }
    // A read fault gets the home's words.
    ensures overwrites { Overwrites }
    // A write fault makes a twin, which is merged and flushed.
    ensures merges { MergesAndFlushes }
    // Its words, part by part.
    ensures parts { GoesAsTold }
    // A node that entered is broken by another node's visit.
    ensures visit { IsBrokenByAVisit }
    // One that is starved before its visit keeps the mapping that it wanted.
    ensures wanted { KeepsTheWantedMapping }
    // A claim is withdrawn.
    ensures withdraws { WithdrawsItsClaim }
    // Two processors of a node flush a page once.
    ensures early { CoalescesAFlush }
    // Two nodes visit a third, and one breaks.
    ensures once { BreaksOnce }
    // Two processors take a lock, and each sees what the other stored.
    ensures locks { LocksInTurn }
    // The lock's word says how often it was given back, and whether it is held.
    ensures lock_word { LockWordCounts }
    // A lost exchange is an unready look.
    ensures lost { LooksAtALock }
    // Two processors meet at a barrier, twice.
    ensures barrier { MeetTwice }
    // A flag is looked at until it is set.
    ensures flag { PassesAtTheThirdLook }
    // Two that wait for nobody end at their last look.
    ensures looked { BothLook }
    // One that waits is stopped by one that trapped.
    ensures stopped { StoppedByATrap }
    // A trap is the exchange of the stop word.
    ensures trapped { TrapsAtOnce }
    // A lock is given back once.
    ensures unlocked { UnlocksOnce }
    // One without memory stops the others.
    ensures starved { StoppedByAStarved }
    // One that may do no further instruction ends.
    ensures spent { SpendsTwo }
    // No event comes behind the end.
    ensures over { NoneBehindTheEnd }
    // One that holds a turn is not starved.
    ensures holding { NoneStarvedWithATurn }
    // A loose load has any answer.
    ensures loose { LoadsLoosely }
    // A processor is what it was given.
    ensures alone { IsWhatItWasGiven }
    // The words start with the program's values at every node.
    ensures starts { Starts }
    // The history of a run with a merge and a flush has its moments, each in its event.
    ensures history { HasItsMoments }
    // So has that of one with a copy of an enter, a break by a visit, and one by the closing work,
    ensures breaking { NotesItsBreaks }
    // of one where a send is told late, and a copy is made between,
    ensures late { NotesALateTelling }
    // of one where an acquire drops a copy, and another one keeps it,
    ensures keeping { NotesWhoKeeps }
    // of one where two releases send nothing,
    ensures nothing { NotesNoSend }
    // and of one with notices in three groups of pages.
    ensures groups { NotesThreeGroups }
    // What each processor was given is read off the events.
    ensures given { GivesEachItsOwn }
{}
