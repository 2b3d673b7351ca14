ghost use Rattle.dsm_directory.specs.Laws.{TellsItsOwn, TellsOfOthers, TellsTheBusy, FindsNone, FindsTheHolder, LeavesUnused, LeavesInTheStore};

/// What the results of the directory's lists depend on. It does nothing: its clauses are what it is for.
pub fn directory_law()
    // Sharers: the own word is that of its node,
    ensures own { TellsItsOwn }
    // there are others exactly where the word of another node was not 0,
    ensures others { TellsOfOthers }
    // and a node is busy exactly where it is another one and its word was 2 or 3.
    ensures busy { TellsTheBusy }
    // Holder: there is none exactly where no word that it loaded was 2,
    ensures none { FindsNone }
    // and else it is the node whose word was 2.
    ensures holder { FindsTheHolder }
    // Leave: the node leaves exactly where all words that it loaded were 0,
    ensures unused { LeavesUnused }
    // which is where it stored so.
    ensures left { LeavesInTheStore }
{}
