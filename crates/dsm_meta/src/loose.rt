// What holds of every state that a list of loose events leaves.
ghost use Rattle.dsm_ties.specs.Always.{AlwaysLoosely};
ghost use Rattle.dsm_ties.specs.Clocks.{ClockBound, ClocksStand};
ghost use Rattle.dsm_ties.specs.Holders.{OneHolder, UnregisteredUnmapped, WritersTwinned, HomeBare, HomelessUntouched, HomelessUnwritten};
ghost use Rattle.dsm_freshness.specs.Past.{FreshCopies};
ghost use Rattle.dsm_meta.specs.Facts.{SyncIsLegal, OwnMaps, TurnHolders, SomeGoesOn, SparesMappings, HomeFixed};

/// What holds of every state, over every list of events, whatever the loads of frames and twins answer. It does nothing:
/// its clauses are what it is for.
pub fn every_loose()
    // Nothing is before itself, a lock has one holder at a time, a barrier is passed behind all its arrivals, and a flag
    // behind as many sets as were asked.
    ensures sync_legal { AlwaysLoosely SyncIsLegal }
    // The words of a processor's mappings are the mappings that it has.
    ensures own_maps { AlwaysLoosely OwnMaps }
    // A turn has at most one holder, a processor holds at most one turn, and one that has ended holds none.
    ensures turn_holders { AlwaysLoosely TurnHolders }
    // So nobody waits for turns in a circle.
    ensures no_circle { AlwaysLoosely SomeGoesOn }
    // No event changes another processor's mapping.
    ensures other_maps { AlwaysLoosely SparesMappings }
    // A page that has a home keeps it, and one that has none is in no node's directory.
    ensures home_fixed { AlwaysLoosely HomeFixed }
    // A node's clock is at most 1 more than the draws that its processors' instructions may make.
    ensures clock_bound { AlwaysLoosely ClockBound }
    // So no clock is ever 0, and none comes round.
    ensures clocks { AlwaysLoosely ClocksStand }
    // Where a node has a page alone, every other one has nothing of it that may be used.
    ensures one_holder { AlwaysLoosely OneHolder }
    // A node that does not use a page has no mapping and no twin of it.
    ensures unregistered { AlwaysLoosely UnregisteredUnmapped }
    // Who may store away from the home has a node with the page alone, or with a twin.
    ensures writers { AlwaysLoosely WritersTwinned }
    // The home has no twin.
    ensures home_bare { AlwaysLoosely HomeBare }
    // A page without a home is used by no node, and has the words with which it started.
    ensures untouched { AlwaysLoosely HomelessUntouched }
    ensures unwritten { AlwaysLoosely HomelessUnwritten }
    // Where a processor at rest maps a page away from its home, its node has fetched it since the end of each send by another
    // node that was told before one of its passes; and at rest or not, it has fetched it at all.
    ensures fresh { AlwaysLoosely FreshCopies }
{}
