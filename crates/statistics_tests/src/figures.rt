//! Figures of a run, as tests begin with them.
use cdcl::{Counts, Search};
use statistics::{CubeCounts, Figures, FirstCounts, SearchCounts, Stage, TextSize};
use strategies::LoweringCounts;

/// Cubes of a root that was split, with both halves split again, and one half of these. Hand 0 has
/// solved the root and both halves, and is at the depth 2; hand 1 has solved a half of a half, and
/// is at the depth 3.
static BEGUN: [(usize, usize, Option<bool>, bool); 6] = [
    (0, 0, None, true),
    (0, 1, Some(false), true),
    (0, 1, Some(true), true),
    (1, 2, Some(false), true),
    (0, 2, Some(true), false),
    (1, 3, Some(true), false),
];

/// The counts of these cubes.
fn some_cubes() -> CubeCounts {
    let mut cubes = CubeCounts::none();
    for (hand, depth, last, is_solved) in &BEGUN {
        cubes.begin(*hand, *depth, *last);
        if *is_solved {
            cubes.end(*hand, *depth);
        }
    }
    cubes
}

/// What the first two and the last two of sixteen hands have done; the first is told twice.
fn some_counts() -> SearchCounts {
    let mut counts = SearchCounts::none();
    let told = [
        (0, 1000, 7, 900),
        (1, 2000, 20, 1500),
        (14, 3000, 30, 2500),
        (15, 45_000, 100, 44_000),
        (0, 300_000, 600, 290_000),
    ];
    for (hand, conflicts, restarts, learnt) in told {
        counts.set(
            hand,
            Counts {
                conflicts,
                decisions: 400_000,
                propagations: 5_000_000,
                restarts,
                learnt,
                forgotten: 20_000,
                minimised: 100_000,
                units: 50,
                rounds: 9,
                switches: 3,
                looks: 10,
                failed_literals: 2,
            },
        );
    }
    counts
}

/// Figures of a run at this stage.
pub fn some_figures(stage: Stage, search: Search) -> Figures {
    let mut figures = Figures::none(stage);
    figures.search = search;
    figures.cubes = some_cubes();
    figures.counts = some_counts();
    figures.add_proof(TextSize::of(b"ab\nc"));
    figures.add_proof(TextSize::of(b"d\ne"));
    figures
}

/// What another search has done, with so many conflicts.
fn some_search(conflicts: u64) -> Counts {
    Counts {
        conflicts,
        decisions: 3000,
        propagations: 40_000,
        learnt: 800,
        ..Counts::none()
    }
}

/// A search was made first, which has ended if this is said, and decided the formula or not.
pub fn put_first(figures: &mut Figures, is_decided: Option<bool>) {
    let mut first = FirstCounts::none();
    first.count(some_search(1000));
    if let Some(is_decided) = is_decided {
        first.end(is_decided);
    }
    figures.first = Some(first);
}

/// A lowering is at its fourth question.
pub fn put_lowering(figures: &mut Figures) {
    figures.lowering = Some(LoweringCounts {
        variable: 2,
        questions: 3,
        models: 1,
        refuted: 2,
        search: some_search(500),
    });
}
