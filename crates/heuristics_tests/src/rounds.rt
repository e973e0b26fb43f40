//! Worked ends of rounds, and in which mode the search is behind each.
use crate::numbers::small;
use heuristics::Change::{AllFalse, AllOther, AllTrue};
use heuristics::Mode::{Restarting, Stable};
use heuristics::{Change, Mode, ModeSchedule, Round};

/// The conflict with which a round ends, how saved values change, and the mode from then on. The
/// first mode has four conflicts and gives way with the sixth, the second one eight from there on.
static ROWS: [(u32, Change, Mode); 5] = [
    (2, AllTrue, Restarting),
    (6, AllOther, Stable),
    (12, AllFalse, Stable),
    (20, AllTrue, Restarting),
    (30, AllOther, Restarting),
];

/// The conflict with which the next round ends, where this one is over with none before it.
fn next_end(turn: &Round, from: u32) -> u32 {
    for conflicts in from..100 {
        if turn.is_over(conflicts) {
            return conflicts;
        }
    }
    100
}

/// The first row that a cube's rounds don't go by.
fn first_failed(rows: &[(u32, Change, Mode)]) -> Option<usize> {
    let numbers = small();
    let mut turn = Round::first(numbers);
    let mut pace = ModeSchedule::first(numbers);
    let mut last = 0;
    for place in 0..rows.len() {
        let (end, change, mode) = rows[place];
        let conflicts = next_end(&turn, last);
        if conflicts != end || !turn.is_over(conflicts) || turn.change() != change {
            return Some(place);
        }
        turn.advance(numbers, conflicts);
        pace.end_round(conflicts);
        if pace.mode() != mode {
            return Some(place);
        }
        last = conflicts;
    }
    None
}

#[test]
fn rounds_end_further_apart(rt: HostRuntime) {
    assert!(rt; small().mode_length == 4 && ModeSchedule::first(small()).mode() == Restarting);
    assert_eq!(rt; first_failed(&ROWS), None);
}
