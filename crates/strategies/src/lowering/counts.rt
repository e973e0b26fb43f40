//! How far a lowering is, and who stops it.

ghost use Rattle.std.specs.Prelude.{true};

use crate::lowering::question::Reply;
use cdcl::Counts;
use cubes::Gate;
use session::Interrupt;

/// How far a lowering is.
#[derive(Clone, Copy, Debug, PartialEq, Eq)]
pub struct LoweringCounts {
    /// The variable that it is at, from 1 on; all before it are settled.
    pub variable: u32,
    /// The questions so far that had an answer.
    pub questions: u64,
    /// How many of them had a model.
    pub models: u64,
    /// How many of them had none.
    pub refuted: u64,
    /// What the searches of the questions have done, in all.
    pub search: Counts,
}

impl LoweringCounts {
    /// Nothing was asked, and no variable is settled.
    pub fn none() -> LoweringCounts {
        LoweringCounts {
            variable: 1,
            questions: 0,
            models: 0,
            refuted: 0,
            search: Counts::none(),
        }
    }

    /// How many variables are settled.
    pub fn settled(&self) -> u32 {
        self.variable.saturating_sub(1)
    }

    /// After one question more, which may have been stopped; in all so much was searched.
    pub(crate) fn after(self, reply: &Reply, search: Counts) -> LoweringCounts {
        let (model, refuted) = match reply {
            Reply::Model(_) => (1, 0),
            Reply::NoModel => (0, 1),
            Reply::Stopped => (0, 0),
        };
        LoweringCounts {
            variable: self.variable,
            questions: self.questions.saturating_add(model + refuted),
            models: self.models.saturating_add(model),
            refuted: self.refuted.saturating_add(refuted),
            // each conflict teaches a clause; the kernel also counts those that were added
            search: Counts {
                learnt: search.conflicts,
                ..search
            },
        }
    }
}

/// Interrupts a question where the gate stops the lowering.
#[derive(Drop)]
pub(crate) struct Stopper<'a, G> {
    pub(crate) gate: &'a G,
}

impl<G: Gate> Interrupt for Stopper<'_, G> {
    ghost may_interrupt = { λ s. true };

    fn interrupts(&self) -> bool {
        self.gate.stops()
    }
}
