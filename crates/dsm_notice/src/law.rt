ghost use Rattle.dsm_notice.specs.Laws.{CountsTheTold, TellsTheOthers};

/// What posting depends on, by any list that it makes. It does nothing: its clauses are what it is for.
pub fn post_law()
    // Its result is how many nodes it told.
    ensures count { CountsTheTold }
    // It tells exactly the other nodes whose directory word was not 0, but for the home.
    ensures told { TellsTheOthers }
{}
