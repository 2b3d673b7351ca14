// Laws over the definitions alone.
ghost use Rattle.std.specs.Prelude.{◌≡◌, true, false};
ghost use Rattle.dsm_copies.specs.Modes.{owed, told};
ghost use Rattle.dsm_copies.specs.Premises.{Order, Every, But};
ghost use Rattle.dsm_debts.specs.Laws.{Signals, Drops, Exclusive, Owed, Standing, Untold};
ghost use Rattle.dsm_debts.specs.Joining.{DebtsAreKept, Together};
ghost use Rattle.dsm_debts.specs.Examples.{Meets, debt_after, shared, alone, home, early, flushed, MovesMeet, copies_of_moves};
ghost use Rattle.dsm_copies.specs.Examples.{handed_on};
ghost use Rattle.std.specs.Prelude.{reverse};

/// What a processor of a node owes for its last store of a word, from the store on until it signals. It does nothing: its clauses
/// are what it is for.
pub fn debts_law()
    // A store is exclusive, owed, covered, ended or told.
    ensures standing { Standing }
    // Who signals owes nothing, or its node is exclusive and the store is not owed.
    ensures signals { Signals }
    // A twin that is dropped hides no store that is owed.
    ensures drops { Drops }
    // Where a store may be exclusive,
    ensures exclusive { Exclusive }
    // and where it may be owed.
    ensures owed { Owed }
    // While a store is not told, its node is exclusive or a release of the page is due.
    ensures untold { Untold }
    // With the law at every node and the home, the list of what happened to the copies meets the premises on signals and dropped
    // twins,
    ensures kept { DebtsAreKept }
    // so that of the law for one word only the other premises need be shown,
    ensures together { Together Every }
    // and so it is for a word that need not be ordered.
    ensures unordered { Together (But Order) }
{}

/// Lists that meet every premise, and what is owed in the first of them. It does nothing: its clauses are what it is for.
pub fn debts_examples()
    // A flush, an early release beside it, a store behind its load, and a twin that is dropped meet every premise,
    ensures shared { Meets false shared }
    // and so do exclusive use and its break,
    ensures alone { Meets false alone }
    // and the home.
    ensures home { Meets true home }
    // When a flush has loaded the word, the stores of 0 and 1 are owed as well as the later one of 2;
    ensures loaded_first { debt_after false early 0 ≡ owed }
    ensures loaded_sibling { debt_after false early 1 ≡ owed }
    ensures loaded_later { debt_after false early 2 ≡ owed }
    // when it is over, those of 0 and 1 are told, and the later one is still owed.
    ensures flushed_first { debt_after false flushed 0 ≡ told }
    ensures flushed_sibling { debt_after false flushed 1 ≡ told }
    ensures flushed_later { debt_after false flushed 2 ≡ owed }
    // Moves at all places meet every premise, and to the copies they are a list that meets every premise of the law for one word.
    ensures moves { MovesMeet }
    ensures handed_on { copies_of_moves ≡ reverse handed_on }
{}
