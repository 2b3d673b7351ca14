// Laws over the definitions alone.
ghost use Rattle.dsm_ties.specs.Always.{AlwaysLoosely};
ghost use Rattle.dsm_releases.specs.Tied.{Tied};

/// What a processor owes for its last store of a word, over every list of events, whatever the loads of frames and twins answer. It
/// does nothing: its clauses are what it is for.
pub fn releases_law()
    // For each node, page and word the words and the processors' places show a state of what is owed there, to which events lead that
    // keep all premises of the law of debts.
    ensures tied { AlwaysLoosely Tied }
{}
