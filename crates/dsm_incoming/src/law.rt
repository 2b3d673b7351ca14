// The law of what is got, which holds at every layout.
ghost use Rattle.dsm_incoming.specs.Laws.{MergeGets, MergeCanBeMade, MergeLeavesTheUnnamed, OverwriteGets, OverwriteCanBeMade, OverwriteLeavesTheUnnamed};

/// What a merge and an overwrite leave whose answers are those of the words as they stand, with no operation of others
/// between. It does nothing: its clauses are what it is for.
pub fn incoming_law()
    // A merge makes the frame's and the twin's word the master's where master and twin differed, and leaves every other.
    ensures merge { MergeGets }
    // It leaves the word of every item that none of its operations is on.
    ensures merge_unnamed { MergeLeavesTheUnnamed }
    // From any words on there is such a list.
    ensures merge_made { MergeCanBeMade }
    // An overwrite makes each word of the frame the master's, and leaves every other.
    ensures overwrite { OverwriteGets }
    // It leaves the word of every item that none of its operations is on.
    ensures overwrite_unnamed { OverwriteLeavesTheUnnamed }
    // From any words on there is such a list.
    ensures overwrite_made { OverwriteCanBeMade }
{}
