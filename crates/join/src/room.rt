//! How much memory the lines of a proof need at most, by the tree alone.
ghost use Rattle.join.specs.Rooms.{IsEnough};

use cubes::TreeSize;

/// The most that a line takes up, and the longest way from the root.
#[derive(Clone, Copy)]
pub(crate) struct Need {
    /// Literals of a line, with its cube.
    pub(crate) literals: usize,
    /// Hints, or numbers of clauses to be deleted.
    pub(crate) numbers: usize,
    /// Lines of a leaf.
    pub(crate) lines: usize,
    /// Splits on the way from the root.
    pub(crate) splits: usize,
}

impl Need {
    /// What the lines need of a tree over so many variables: each of them is split on but once on a
    /// way. A pure literal's line has one literal, and a split's line two hints. Behind a half's
    /// last line its others are deleted; of the root's lines none is.
    pub(crate) fn of(size: TreeSize, vars: usize) -> Need
        ensures { IsEnough size vars result }
    {
        let splits = size.splits.min(vars as u64) as usize;
        let deleted = if splits > 0 { size.most_lines } else { 0 };
        Need {
            literals: size.most_literals.saturating_add(splits).max(1),
            numbers: size.most_numbers.max(deleted).max(2),
            lines: size.most_lines,
            splits,
        }
    }

    /// What no lines need.
    pub(crate) fn none() -> Need {
        Need {
            literals: 0,
            numbers: 0,
            lines: 0,
            splits: 0,
        }
    }
}
