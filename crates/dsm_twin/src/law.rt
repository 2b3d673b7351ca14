ghost use Rattle.dsm_twin.specs.Laws.{DropsUnwritten, DropsInTheStore, LeavesUnmapped};

/// What dropping a twin depends on, by any list that it makes. It does nothing: its clauses are what it is for.
pub fn twin_law()
    // It drops the twin exactly where no mapping that it loaded was for writing,
    ensures unwritten { DropsUnwritten }
    // which is where it stored that there is no twin.
    ensures dropped { DropsInTheStore }
    // It takes the node out of the directory exactly where each of these mappings was none.
    ensures left { LeavesUnmapped }
{}
