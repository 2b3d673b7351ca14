// Laws over the definitions alone.
ghost use Rattle.dsm_copies.specs.Laws.{LoadsHaveTheLatest, HomeHasTheLatest, LoadsHaveASource, SendsAndDebtsAreEnough, LastStoreIsOwed};
ghost use Rattle.dsm_copies.specs.Joining.{OrderIsKnown, JoinedIsRight, JoinedBySends};
ghost use Rattle.dsm_copies.specs.Examples.{handed_on, silent, home_alone, MeetsAll, MeetsAllBySends, Misses, Invents, without_values, without_order, without_apart, without_fetched, without_told, without_broken, without_rights, without_released, without_flushes, without_merges, without_overwrites, without_makes, without_breaks, without_drops, without_kept, without_home_sends, without_enters, without_home_tells};

/// The law for one word, of the list of what happened to its copies. It does nothing: its clauses are what it is for.
pub fn copies_law()
    // Under all premises each load has the latest store of the list.
    ensures latest { LoadsHaveTheLatest }
    // Where the last store is released and no place is exclusive, the home has it.
    ensures home { HomeHasTheLatest }
    // Under five of them, none of which speaks of order, each load has the initial value or one that was stored before it.
    ensures source { LoadsHaveASource }
    // The premises on fetches follow from numbers of sends, those on signals and dropped twins from debts.
    ensures enough { SendsAndDebtsAreEnough }
    // How far the last store has come is what its processor owes.
    ensures owed { LastStoreIsOwed }
    // In the traces of an ordered word, who makes an access knows the last store.
    ensures known { OrderIsKnown }
    // Where the list says of the processors what the traces say, every load of the traces has a source, and an ordered word is flat
    // and ends with what the home has.
    ensures joined { JoinedIsRight }
    // The same, by numbers of sends and by debts.
    ensures joined_by_sends { JoinedBySends }
{}

/// Lists that meet every premise, and for each premise one that breaks the law without it: its last load is not of the latest
/// store, or not even of a stored value. It does nothing: its clauses are what it is for.
pub fn copies_examples()
    // Stores that are flushed, fetched, made in exclusive use and broken meet every premise,
    ensures handed_on { MeetsAll handed_on }
    // and so do a silent store, a merge that finds nothing, and a store beside a flush,
    ensures silent { MeetsAll silent }
    // and a store of the exclusive home.
    ensures home_alone { MeetsAll home_alone }
    // So they do by numbers of sends and by debts.
    ensures handed_on_by_sends { MeetsAllBySends handed_on }
    ensures silent_by_sends { MeetsAllBySends silent }
    ensures home_alone_by_sends { MeetsAllBySends home_alone }
    // Each of these lacks one premise, and its load is wrong.
    ensures values { Invents without_values }
    ensures order { Misses without_order }
    ensures apart { Misses without_apart }
    ensures fetched { Invents without_fetched }
    ensures told { Misses without_told }
    ensures broken { Misses without_broken }
    ensures rights { Misses without_rights }
    ensures released { Misses without_released }
    ensures flushes { Invents without_flushes }
    ensures merges { Invents without_merges }
    ensures overwrites { Misses without_overwrites }
    ensures makes { Misses without_makes }
    ensures breaks { Invents without_breaks }
    ensures drops { Misses without_drops }
    ensures kept { Misses without_kept }
    ensures home_sends { Misses without_home_sends }
    ensures enters { Misses without_enters }
    ensures home_tells { Misses without_home_tells }
{}
