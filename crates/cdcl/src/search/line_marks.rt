//! The marks of learnt clauses (CaDiCaL's `glue` and `used`): the glue of each, and whether it was used of late.
ghost use Rattle.std.specs.Prelude.{◌≡◌, ◌+◌, ◌∷◌, []};
ghost use Rattle.theory.specs.Forgetting.{fresh_mark, not_used, with_used, unused};

use std::marker::Model;

/// The mark of a learnt clause.
#[derive(Clone, Copy)]
pub(crate) struct Mark {
    /// In how many levels above 0 the clause had literals, when it was learnt.
    pub(crate) glue: u32,
    /// Whether a conflict was resolved with it since the last round, or it was learnt since.
    pub(crate) used: bool,
}

impl Model for Mark {
    ghost use Rattle.theory.specs.Forgetting as forgetting;

    ghost Value = { forgetting.Mark };

    ghost view = { λ m. record { glue = m.glue; used = m.used } };

    ghost inverse = { λ m. record { glue = m.glue; used = m.used } };
}

impl Mark {
    /// The mark of a clause of this glue that is learnt now.
    pub(crate) fn fresh(glue: u32) -> Mark
        ensures { result ≡ fresh_mark glue }
    {
        Mark { glue, used: true }
    }

    /// The same mark at the end of a round.
    fn not_used(self) -> Mark
        ensures { result ≡ not_used self }
    {
        Mark {
            glue: self.glue,
            used: false,
        }
    }
}

/// Marks the clause of a number as used, if it is one of those that stand behind so many others, and
/// whose marks these are.
fn mark_used(marks: &mut [Mark], others: u64, number: u64)
    ensures { marks.new ≡ with_used (number ∷ []) (others + 1) marks.old }
{
    if number > others && ((number - others - 1) as usize) < marks.len() {
        let at = (number - others - 1) as usize;
        let mark = marks[at];
        marks[at] = Mark::fresh(mark.glue);
    }
}

/// Marks as used those of the clauses of these numbers that stand behind so many others. It takes
/// time by how many numbers there are.
pub(crate) fn mark_all_used(marks: &mut [Mark], others: u64, numbers: &[u64])
    ensures { marks.new ≡ with_used numbers.now (others + 1) marks.old }
{
    for number in numbers {
        mark_used(marks, others, *number);
    }
}

/// Marks none as used.
pub(crate) fn mark_none_used(marks: &mut [Mark])
    ensures { marks.new ≡ unused marks.old }
{
    for at in 0..marks.len() {
        let mark = marks[at];
        marks[at] = mark.not_used();
    }
}
