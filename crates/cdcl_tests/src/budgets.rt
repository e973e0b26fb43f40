//! Worked budgets of cubes.
use cdcl::{Plan, budget_of};

/// How many literals a cube has, and its budget by the ordered search where the root's is 1, and
/// where it is 100,000.
static ROWS: [(usize, u32, u32); 11] = [
    (0, 1, 100_000),
    (1, 2, 200_000),
    (9, 10, 1_000_000),
    (10, 11, 1_000_000),
    (31, 32, 1_000_000),
    (32, 33, 1_000_000),
    (33, 34, 1_000_000),
    (999_998, 999_999, 1_000_000),
    (999_999, 1_000_000, 1_000_000),
    (1_000_000, 1_000_000, 1_000_000),
    (usize::MAX, 1_000_000, 1_000_000),
];

/// The same by the focused search, where the root's is 1, 100,000,000 and 1,000,000,000.
static FOCUSED_ROWS: [(usize, u32, u32, u32); 7] = [
    (0, 1, 100_000_000, 1_000_000_000),
    (1, 2, 200_000_000, 1_000_000_000),
    (8, 9, 900_000_000, 1_000_000_000),
    (9, 10, 1_000_000_000, 1_000_000_000),
    (10, 11, 1_000_000_000, 1_000_000_000),
    (999_999_998, 999_999_999, 1_000_000_000, 1_000_000_000),
    (usize::MAX, 1_000_000_000, 1_000_000_000, 1_000_000_000),
];

#[test]
fn budgets_grow_with_literals(rt: HostRuntime) {
    let (least, greatest) = (Plan::ordered(1), Plan::ordered(100_000));
    for (literals, one, most) in &ROWS {
        let found = (
            budget_of(&least, *literals),
            budget_of(&greatest, *literals),
        );
        assert!(rt; found == (*one, *most), "{literals}");
    }
    assert!(rt; budget_of(&Plan::ordered(99_999), 9) == 999_990);
    assert!(rt; budget_of(&Plan::ordered(3), 333_332) == 999_999);
    assert!(rt; budget_of(&Plan::ordered(3), 333_333) == 1_000_000);
}

#[test]
fn budgets_of_the_focused_search_grow_further(rt: HostRuntime) {
    let (least, usual) = (Plan::focused(1), Plan::focused(100_000_000));
    let greatest = Plan::focused(1_000_000_000);
    for (literals, one, many, most) in &FOCUSED_ROWS {
        assert!(rt; budget_of(&least, *literals) == *one, "{literals}");
        assert!(rt; budget_of(&usual, *literals) == *many, "{literals}");
        assert!(rt; budget_of(&greatest, *literals) == *most, "{literals}");
    }
}
