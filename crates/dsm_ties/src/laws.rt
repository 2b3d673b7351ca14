// Laws over the definitions alone.
ghost use Rattle.dsm_ties.specs.Always.{AlwaysLoosely};
ghost use Rattle.dsm_ties.specs.Clocks.{ClockBound, ClocksStand};
ghost use Rattle.dsm_ties.specs.Holders.{OneHolder, UnregisteredUnmapped, WritersTwinned, HomeBare, HomelessUntouched, HomelessUnwritten, HaltedIsShared};
ghost use Rattle.dsm_ties.specs.Places.{EachStands, EventsAreRows};
ghost use Rattle.dsm_ties.specs.Tied.{Tied};

/// Where the processors stand in the table of the protocol, and how far the clocks get, over every list of events, whatever the
/// loads of frames and twins answer. It does nothing: its clauses are what it is for.
pub fn rows_law()
    // Each processor stands at a place of the table, by which it does what it has to do.
    ensures stands { AlwaysLoosely EachStands }
    // Each event is a row of the table, a turn that is won or not, or an operation on a word of synchronisation or the stop word.
    ensures rows { AlwaysLoosely EventsAreRows }
    // A node's clock is at most 1 more than the draws that its processors' instructions may make.
    ensures clock_bound { AlwaysLoosely ClockBound }
    // So no clock is ever 0, and none comes round.
    ensures clocks { AlwaysLoosely ClocksStand }
{}

/// Who may use a page, over every list of events, whatever the loads of frames and twins answer. It does nothing: its clauses are
/// what it is for.
pub fn holders_law()
    // The words and the processors' places show, for each page, a state of its directory, to which events lead that keep all
    // premises of the directory's law: so all its clauses hold of the words.
    ensures tied { AlwaysLoosely Tied }
    // Where a node has a page alone, every other one has nothing of it that may be used.
    ensures one_holder { AlwaysLoosely OneHolder }
    // A node that does not use a page has no mapping and no twin of it.
    ensures unregistered { AlwaysLoosely UnregisteredUnmapped }
    // Who may store away from the home has a node with the page alone, or with a twin.
    ensures writers { AlwaysLoosely WritersTwinned }
    // The home has no twin.
    ensures home_bare { AlwaysLoosely HomeBare }
    // A page without a home is used by no node, and has the words with which it started.
    ensures untouched { AlwaysLoosely HomelessUntouched }
    ensures unwritten { AlwaysLoosely HomelessUnwritten }
    // Once all processors have halted, no node has a page alone.
    ensures halted_shared { AlwaysLoosely HaltedIsShared }
{}
