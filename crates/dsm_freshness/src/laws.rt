// Laws over the definitions alone.
ghost use Rattle.dsm_ties.specs.Always.{AlwaysLoosely};
ghost use Rattle.dsm_freshness.specs.Past.{FreshCopies};
ghost use Rattle.dsm_freshness.specs.Tied.{Tied};

/// What a mapped copy of a page is, over every list of events, whatever the loads of frames and twins answer. It does nothing: its
/// clauses are what it is for.
pub fn freshness_law()
    // For each sender, node and page the words and the processors' places show a state of the copy, to which events lead that
    // keep all premises of the law of one page at one node.
    ensures tied { AlwaysLoosely Tied }
    // So where a processor at rest maps a page away from its home, its node has fetched it since the end of each send by another
    // node that was told before one of its passes; and at rest or not, it has fetched it at all.
    ensures fresh { AlwaysLoosely FreshCopies }
{}
