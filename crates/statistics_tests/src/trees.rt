//! What is shown of a tree of cubes: how many wait at most, and how much of it is closed.
use statistics::CubeCounts;
use std::alloc::Global;
use std::test::Fail;

/// How many cubes of the depths 0 to 4 are solved, how many lie in the deques at most, and the part
/// of the tree that is closed at least.
static TREES: [([usize; 5], u64, u64); 6] = [
    ([0, 0, 0, 0, 0], 0, 0),
    ([1, 0, 0, 0, 0], 2, 0),
    ([1, 2, 0, 0, 0], 4, 0),
    ([1, 2, 2, 0, 0], 6, 0),
    ([1, 2, 2, 2, 0], 6, 5_000),
    ([1, 2, 4, 2, 1], 5, 7_500),
];

/// Whether what waits and what is closed follow from the depths of solved cubes.
fn follows(solved: &[usize], waiting: u64, closed: u64) -> bool {
    let mut cubes = CubeCounts::none();
    let mut depth = 0usize;
    for count in solved {
        for _ in 0..*count {
            cubes.begin(0, depth, Some(true));
            cubes.end(0, depth);
        }
        depth = depth.saturating_add(1);
    }
    cubes.waiting() == waiting && cubes.closed() == closed
}

/// How many cubes of a depth were begun before a hand went on to the next depth, and what is shown:
/// 7 of 8 parts of the tree may be open, or 243 of 256, which is a little less than 94.93 per cent.
static SHARES: [(usize, usize, &str); 2] = [
    (
        7,
        3,
        "0 cubes solved, at most 0 waiting, depth 4, at least 12.50 % of the tree closed",
    ),
    (
        243,
        8,
        "0 cubes solved, at most 0 waiting, depth 9, at least 5.07 % of the tree closed",
    ),
];

/// Whether hundredths of a per cent have two digits.
fn shows(alloc: Global, count: usize, depth: usize, wanted: &str) -> Result<bool, Fail> {
    let mut cubes = CubeCounts::none();
    for _ in 0..count {
        cubes.begin(0, depth, Some(true));
    }
    cubes.begin(0, depth.saturating_add(1), Some(true));
    let text = format!(in alloc; "{cubes}")?;
    Ok(text.as_str() == wanted)
}

#[test]
fn what_is_closed_of_a_tree(rt: HostRuntime) -> Result<(), Fail> {
    for (solved, waiting, closed) in &TREES {
        assert!(rt; follows(solved, *waiting, *closed), "{solved:?}");
    }
    for (count, depth, wanted) in &SHARES {
        assert!(rt; shows(rt.alloc(), *count, *depth, wanted)?, "{wanted}");
    }
    Ok(())
}
