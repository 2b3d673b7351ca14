use dsm_words::item::Item;
use dsm_words::layout::Layout;
use dsm_words::op::{Op, apply};
use dsm_words::topology::{TopoFault, Topology};
use std::test::Fail;

#[test]
fn topologies_have_limits(rt: HostRuntime) -> Result<(), Fail> {
    for (nodes, procs, fault) in [
        (0, 9, Some(TopoFault::Nodes)),
        (9, 1, Some(TopoFault::Nodes)),
        (8, 0, Some(TopoFault::Procs)),
        (1, 9, Some(TopoFault::Procs)),
        (5, 7, Some(TopoFault::Product)),
        (8, 4, None),
        (4, 8, None),
    ] {
        assert_eq!(rt; Topology::new(nodes, procs).err(), fault, "{nodes}x{procs}");
    }
    let t = Topology::new(3, 2)?;
    assert_eq!(rt; (t.all(), t.node_of(0), t.node_of(5)), (6, 0, 2));
    let told = format!(in rt.alloc();
        "{}, {}, {}",
        TopoFault::Nodes,
        TopoFault::Procs,
        TopoFault::Product
    )?;
    assert_eq!(rt;
        told.as_str(),
        "the nodes are not 1 to 8, the processors of a node are not 1 to 8, there are more than 32 processors"
    );
    Ok(())
}

// One node, one processor, one page of one word, no objects.
#[test]
fn smallest_places(rt: HostRuntime) -> Result<(), Fail> {
    let lay = Layout::new(Topology::new(1, 1)?, 1, 1, 0, 0, 0);
    let places = [
        lay.place(Item::Stop),
        lay.place(Item::Frame { n: 0, g: 0, i: 0 }),
        lay.place(Item::Twin { n: 0, g: 0, i: 0 }),
        lay.place(Item::Twined { n: 0, g: 0 }),
        lay.place(Item::Map { p: 0, g: 0 }),
        lay.place(Item::Dir { n: 0, g: 0 }),
        lay.place(Item::Update { n: 0, g: 0 }),
        lay.place(Item::Flush { n: 0, g: 0 }),
        lay.place(Item::Notice { n: 0, g: 0 }),
        lay.place(Item::Clock { n: 0 }),
        lay.place(Item::Turn { n: 0, g: 0 }),
        lay.place(Item::NoticeTurn { n: 0 }),
        lay.place(Item::Global { n: 0, m: 0, k: 0 }),
        lay.place(Item::Own { p: 0, k: 0 }),
        lay.place(Item::Nle { p: 0, k: 0 }),
        lay.place(Item::Close),
        lay.place(Item::Home { g: 0 }),
    ];
    assert_eq!(rt;
        places,
        [0, 1, 2, 3, 4, 5, 6, 7, 8, 9, 10, 11, 12, 13, 14, 15, 16]
    );
    assert_eq!(rt; lay.len(), 17);
    Ok(())
}

// The greatest layout, at the last word of each block.
#[test]
fn greatest_places(rt: HostRuntime) -> Result<(), Fail> {
    let lay = Layout::new(Topology::new(8, 4)?, 256, 256, 64, 16, 64);
    let (n, m, p, g, i, k) = (7, 7, 31, 255, 255, 3);
    let places = [
        lay.place(Item::Frame { n, g, i }),
        lay.place(Item::Twin { n, g, i }),
        lay.place(Item::Twined { n, g }),
        lay.place(Item::Map { p, g }),
        lay.place(Item::Dir { n, g }),
        lay.place(Item::Update { n, g }),
        lay.place(Item::Flush { n, g }),
        lay.place(Item::Notice { n, g }),
        lay.place(Item::Clock { n }),
        lay.place(Item::Turn { n, g }),
        lay.place(Item::NoticeTurn { n }),
        lay.place(Item::Global { n, m, k }),
        lay.place(Item::Own { p, k }),
        lay.place(Item::Nle { p, k }),
        lay.place(Item::Lock { l: 63 }),
        lay.place(Item::Barrier { b: 15 }),
        lay.place(Item::Flag { f: 63 }),
        lay.place(Item::Close),
        lay.place(Item::Home { g }),
    ];
    assert_eq!(rt;
        places,
        [
            524_288, 1_048_576, 1_050_624, 1_058_816, 1_060_864, 1_062_912, 1_064_960, 1_067_008,
            1_067_016, 1_069_064, 1_069_072, 1_069_328, 1_069_456, 1_069_584, 1_069_648, 1_069_664,
            1_069_728, 1_069_729, 1_069_985,
        ]
    );
    assert_eq!(rt; lay.len(), 1_069_986);
    Ok(())
}

// The last number runs fastest.
#[test]
fn rows_of_places(rt: HostRuntime) -> Result<(), Fail> {
    let lay = Layout::new(Topology::new(2, 3)?, 100, 10, 1, 1, 1);
    let places = [
        lay.place(Item::Frame { n: 1, g: 2, i: 3 }),
        lay.place(Item::Twined { n: 1, g: 2 }),
        lay.place(Item::Global { n: 0, m: 1, k: 1 }),
    ];
    assert_eq!(rt; places, [1024, 4103, 5808]);
    Ok(())
}

#[test]
fn operations(rt: HostRuntime) -> Result<(), Fail> {
    let at = 1;
    for (op, was, answer, word) in [
        (Op::Load { at }, 5, 5, 5),
        (Op::Store { at, v: 7 }, 5, 0, 7),
        (Op::Swap { at, v: 7 }, 5, 5, 7),
        (Op::Exchange { at, old: 5, new: 7 }, 5, 5, 7),
        (Op::Exchange { at, old: 6, new: 7 }, 5, 5, 5),
        (Op::Add { at, k: 7 }, 5, 5, 12),
        (Op::Add { at, k: 7 }, u64::MAX, u64::MAX, 6),
        (Op::Or { at, bits: 6 }, 5, 5, 7),
    ] {
        let mut words = [1, was, 3];
        assert_eq!(rt; done(&mut words, op), Some(answer), "{op:?}");
        assert_eq!(rt; words, [1, word, 3], "{op:?}");
    }
    Ok(())
}

/// `apply` where the operation has its place among the words.
fn done(words: &mut [u64], op: Op) -> Option<u64> {
    let place = match op {
        Op::Load { at } => at,
        Op::Store { at, v: _ } => at,
        Op::Swap { at, v: _ } => at,
        Op::Exchange { at, old: _, new: _ } => at,
        Op::Add { at, k: _ } => at,
        Op::Or { at, bits: _ } => at,
    };
    if place < words.len() as u64 {
        Some(apply(words, op))
    } else {
        None
    }
}
