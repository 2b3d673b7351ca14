// The law of what is sent, which holds at every layout.
ghost use Rattle.dsm_outgoing.specs.Laws.{FlushSends, FlushCanBeMade, FlushLeavesTheUnnamed};

/// What a flush leaves whose answers are those of the words as they stand, with no operation of others between. It does
/// nothing: its clauses are what it is for.
pub fn flush_law()
    // The frame is left, each twin word becomes the frame's, the master becomes the frame's where frame and twin
    // differed, and every other word is left.
    ensures sends { FlushSends }
    // It leaves the word of every item that none of its operations is on.
    ensures unnamed { FlushLeavesTheUnnamed }
    // From any words on there is such a list.
    ensures made { FlushCanBeMade }
{}
