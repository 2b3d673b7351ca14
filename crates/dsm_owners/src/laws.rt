// Laws over the definitions alone.
ghost use Rattle.std.specs.Prelude.{◌≡◌};
ghost use Rattle.dsm_owners.specs.Laws.{Always, OneHolder, SoleIsAlone, EnteringIsAlone, BrokenIsAlone, EnteringIsClaimed, BrokenIsSole, SoleTwin, UnregisteredUnmapped, WritersTwinned, MappedFetched, HomeBare, HomelessUnregistered, HomeIsNode, HomeStays, TurnHolders, LeavingIsEmpty, DroppingIsUnwritten, UsersShare, MappersShare, SendersShare};
ghost use Rattle.dsm_owners.specs.Examples.{MeetsAll, ended, Breaks, touched, withdrawn, left, entered, visited, starved, taken_twice, misread, homeless, unseen, unread, unvisited, unwanted, looked_once, uncopied, unfetched, unstamped, untwinned, claimed_with_twin, home_told, dropped_blind, broken_bare};

/// The law for one page on all nodes, of the list of what happened to it. It does nothing: its clauses are what it is for.
pub fn owners_law()
    // One node at most has the page alone.
    ensures one_holder { Always OneHolder }
    // Where one has, every other node is bare: nothing of the page can be used there before it is fetched anew.
    ensures sole { Always SoleIsAlone }
    // So it is where a node is entering, and at the last store of a break.
    ensures entering { Always EnteringIsAlone }
    ensures breaking { Always BrokenIsAlone }
    // What the words are there.
    ensures claimer { Always EnteringIsClaimed }
    ensures breaker { Always BrokenIsSole }
    ensures sole_twin { Always SoleTwin }
    // Unregistered nodes, writers, fetched copies.
    ensures unregistered { Always UnregisteredUnmapped }
    ensures writer { Always WritersTwinned }
    ensures fetched { Always MappedFetched }
    // The home, and a page that has none.
    ensures home_bare { Always HomeBare }
    ensures homeless { Always HomelessUnregistered }
    ensures home_node { Always HomeIsNode }
    ensures home_stays { HomeStays }
    // Turns, in both directions.
    ensures turns { Always TurnHolders }
    // What one who leaves, or drops a twin, has seen still holds.
    ensures leaving { Always LeavingIsEmpty }
    ensures dropping { Always DroppingIsUnwritten }
    // Where one fetches, makes a twin, maps, may load or store, or sends, no other node is alone or about to be.
    ensures users { Always UsersShare }
    ensures mappers { Always MappersShare }
    ensures senders { Always SendersShare }
{}

/// Lists that meet every premise, and lists in which one act does not meet its own, and behind which a fact is broken. It does nothing:
/// its clauses are what it is for.
pub fn owners_examples()
    // The first touch, which makes a home and has the page alone.
    ensures touched { MeetsAll touched }
    ensures touched_alone { ((ended touched).nodes 0).dir ≡ 2 }
    // A claim that is withdrawn.
    ensures withdrawn { MeetsAll withdrawn }
    ensures withdrawn_shared { ((ended withdrawn).nodes 1).dir ≡ 1 }
    // A notice, and a node that leaves.
    ensures left { MeetsAll left }
    ensures left_unregistered { ((ended left).nodes 2).dir ≡ 0 }
    // An enter away from the home.
    ensures entered { MeetsAll entered }
    ensures entered_alone { ((ended entered).nodes 1).dir ≡ 2 }
    // A visit that breaks a node, and one that finds it broken.
    ensures visited { MeetsAll visited }
    ensures visited_shared { ((ended visited).nodes 1).dir ≡ 1 }
    // A processor that is starved in its visits, whose wanted mapping keeps its node registered.
    ensures starved { MeetsAll starved }
    ensures starved_wants { ((ended starved).processors 1).map ≡ 3 }
    ensures starved_registered { ((ended starved).nodes 1).dir ≡ 1 }
    // Each of these has one act that does not meet its premise.
    ensures taken_twice { Breaks TurnHolders taken_twice }
    ensures misread { Breaks UnregisteredUnmapped misread }
    ensures homeless { Breaks HomelessUnregistered homeless }
    ensures unseen { Breaks OneHolder unseen }
    ensures unread { Breaks OneHolder unread }
    ensures unvisited { Breaks OneHolder unvisited }
    ensures unwanted { Breaks UnregisteredUnmapped unwanted }
    ensures looked_once { Breaks OneHolder looked_once }
    ensures uncopied { Breaks MappedFetched uncopied }
    ensures unfetched { Breaks MappedFetched unfetched }
    ensures unstamped { Breaks MappedFetched unstamped }
    ensures untwinned { Breaks WritersTwinned untwinned }
    ensures claimed_with_twin { Breaks SoleTwin claimed_with_twin }
    ensures home_told { Breaks HomeBare home_told }
    ensures dropped_blind { Breaks UnregisteredUnmapped dropped_blind }
    ensures broken_bare { Breaks WritersTwinned broken_bare }
{}
