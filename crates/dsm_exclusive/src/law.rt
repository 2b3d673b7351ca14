// The laws of exclusive mode, which hold at every layout.
ghost use Rattle.dsm_exclusive.specs.Laws.{BreakSends, BreakCanBeMade, BreakLeavesTheUnnamed, EnterGets, EnterCanBeMade, EnterLeavesTheUnnamed, CopyComesFirst};

/// What a break leaves whose answers are those of the words as they stand, with no operation of others between. It does
/// nothing: its clauses are what it is for.
pub fn break_law()
    // It leaves the frame. Where the node is not the home it makes each word of the twin and of the master the frame's.
    ensures sends { BreakSends }
    // It leaves the word of every item that none of its operations is on.
    ensures unnamed { BreakLeavesTheUnnamed }
    // From any words on there is such a list.
    ensures made { BreakCanBeMade }
{}

/// What an enter leaves, likewise, and what it is made of. It does nothing: its clauses are what it is for.
pub fn enter_law()
    // It makes each word of the frame the master's, also at home, where they are the same.
    ensures gets { EnterGets }
    // It leaves the word of every item that none of its operations is on.
    ensures unnamed { EnterLeavesTheUnnamed }
    // From any words on there is such a list.
    ensures made { EnterCanBeMade }
    // As long as its copy is not over, and right behind it, what is left is the copy and then the stamp and the last store.
    ensures copy { CopyComesFirst }
{}
