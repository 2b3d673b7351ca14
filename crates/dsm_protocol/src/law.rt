ghost use Rattle.dsm_protocol.specs.Ends.{EveryEndHasItsCause, SpentEnds, TrapsEnd, LastLooksEnd, StoppedWaitsEnd, ClosingPassesEnd, StarvedEnds};
ghost use Rattle.dsm_protocol.specs.Examples.{Makes, Follows, who, code, at_first, locked, written, unlocked, locking, faulting, unlocking, locking_again};
ghost use Rattle.dsm_protocol.specs.Laws.{EveryTraceIsLocal};
ghost use Rattle.dsm_protocol.specs.Standing.{EveryEventIsARow, EveryProcessorStands};

/// Whatever a processor is given, its trace and end are what a plain sequential reader of the code does. It does nothing: its
/// clause is what it is for.
pub fn locality_law()
    ensures { EveryTraceIsLocal }
{}

/// Each end of a processor comes exactly where its cause is. It does nothing: its clauses are what it is for.
pub fn end_law()
    // A processor ends by an event alone that has the end's cause.
    ensures causes { EveryEndHasItsCause }
    // And each cause ends it: no further instruction,
    ensures spent { SpentEnds }
    // an instruction that can't be done,
    ensures trapped { TrapsEnd }
    // the last look,
    ensures looked { LastLooksEnd }
    // the stop word,
    ensures stopped { StoppedWaitsEnd }
    // the pass of the closing barrier, behind the closing work of processor 0,
    ensures halted { ClosingPassesEnd }
    // and want of memory.
    ensures starved { StarvedEnds }
{}

/// A processor always stands at a place of the protocol's table, and each of its events is a row of it. It does nothing: its
/// clauses are what it is for.
pub fn stage_law()
    // Whatever a processor is given, from some place on it does what it has to do by the table, and there it holds the turn
    // that it gives back next.
    ensures stands { EveryProcessorStands }
    // And each of its events moves it by the table: decisions, one row, then decisions and notes.
    ensures rows { EveryEventIsARow }
{}

/// One processor's way through the table, written out by hand: a lock that is passed, a store that faults, the unlock, and the
/// lock again. Each example begins where the one before it ends. It does nothing: its clauses are what it is for.
pub fn stage_examples()
    // A lock is passed with no notices: given these answers, the processor makes these operations,
    ensures locks { Makes who code at_first locking }
    // and each goes by the table, from the place that is named to the next.
    ensures locks_by_rows { Follows who locking }
    // A fault to write: its node registers and visits another, which has the page alone; the page is fetched, and a twin is made.
    ensures faults { Makes who code locked faulting }
    // It goes by the table too.
    ensures faults_by_rows { Follows who faulting }
    // A release: the twin is flushed, one node is told, the mapping is lowered, the twin dropped; then the lock is given back.
    ensures unlocks { Makes who code written unlocking }
    // It goes by the table too.
    ensures unlocks_by_rows { Follows who unlocking }
    // The lock again: a notice is drained, and the page, which is out of date, is unmapped.
    ensures locks_again { Makes who code unlocked locking_again }
    // It goes by the table too.
    ensures locks_again_by_rows { Follows who locking_again }
{}
