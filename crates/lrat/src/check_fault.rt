//! Why a proof is refused.
ghost use Rattle.std.specs.Prelude.{◌≡◌};
ghost use Rattle.lrat.specs.CheckFaults.{check_fault_number, check_fault_step, fault_at, named_in};

use thiserror::Error;

/// Why the steps are no proof. A step is counted from 1 over all steps, deletions too.
#[derive(Clone, Copy, Debug, PartialEq, Eq, Error)]
pub enum CheckFault {
    /// The addition's number isn't above those given away before.
    #[error("step {0}: the clause's number doesn't rise")]
    IdNotRising(u64),

    /// A variable of the added clause stands in both signs.
    #[error("step {0}: a variable in both signs")]
    BothSigns(u64),

    /// A hint or a candidate names a clause that isn't there.
    #[error("step {0}: no such clause")]
    NoSuchClause(u64),

    /// A hinted clause is neither false nor unit.
    #[error("step {0}: a hint that isn't unit")]
    HintNotUnit(u64),

    /// A hint or a group follows the conflict.
    #[error("step {0}: a hint after the conflict")]
    HintAfterConflict(u64),

    /// The hints of an empty clause, or of a candidate, end without a conflict.
    #[error("step {0}: no conflict")]
    NoConflict(u64),

    /// A candidate that isn't closed has no group.
    #[error("step {0}: a candidate without hints")]
    MissingCandidate(u64),

    /// A group names a clause without the negated pivot, one for the second time, or a closed one
    /// with hints.
    #[error("step {0}: a bad candidate")]
    BadCandidate(u64),

    /// A clause that is to be taken away isn't there.
    #[error("step {0}: nothing to take away")]
    NoSuchDeletion(u64),

    /// No step adds the empty clause.
    #[error("no empty clause")]
    NoEmptyClause,

    /// A variable of the added clause isn't the formula's.
    #[error("step {0}: a variable out of range")]
    LiteralOutOfRange(u64),

    /// A growth was refused.
    #[error("out of memory")]
    NoMemory,
}

/// Why a step is refused, with the number of the clause that it names wrongly.
#[derive(Clone, Copy)]
pub(crate) enum Fault {
    IdNotRising,
    BothSigns,
    NoSuchClause(u64),
    HintNotUnit(u64),
    HintAfterConflict,
    NoConflict,
    MissingCandidate,
    BadCandidate,
    NoSuchDeletion,
    LiteralOutOfRange,
}

impl Fault {
    /// The number of the clause that the step names wrongly, where it is that: there is none of
    /// this number, or it is neither false nor unit.
    pub(crate) fn named(self) -> Option<u64>
        ensures { result ≡ named_in self }
    {
        match self {
            Fault::NoSuchClause(id) | Fault::HintNotUnit(id) => Some(id),
            _ => None,
        }
    }
}

impl CheckFault {
    /// The fault of a step.
    pub(crate) fn at(fault: Fault, step: u64) -> CheckFault
        ensures { result ≡ fault_at fault step }
    {
        match fault {
            Fault::IdNotRising => CheckFault::IdNotRising(step),
            Fault::BothSigns => CheckFault::BothSigns(step),
            Fault::NoSuchClause(_) => CheckFault::NoSuchClause(step),
            Fault::HintNotUnit(_) => CheckFault::HintNotUnit(step),
            Fault::HintAfterConflict => CheckFault::HintAfterConflict(step),
            Fault::NoConflict => CheckFault::NoConflict(step),
            Fault::MissingCandidate => CheckFault::MissingCandidate(step),
            Fault::BadCandidate => CheckFault::BadCandidate(step),
            Fault::NoSuchDeletion => CheckFault::NoSuchDeletion(step),
            Fault::LiteralOutOfRange => CheckFault::LiteralOutOfRange(step),
        }
    }

    /// The fault's number: 21 to 32, in the order of the variants.
    pub fn number(&self) -> u32
        ensures { result ≡ check_fault_number self.now }
    {
        match self {
            CheckFault::IdNotRising(_) => 21,
            CheckFault::BothSigns(_) => 22,
            CheckFault::NoSuchClause(_) => 23,
            CheckFault::HintNotUnit(_) => 24,
            CheckFault::HintAfterConflict(_) => 25,
            CheckFault::NoConflict(_) => 26,
            CheckFault::MissingCandidate(_) => 27,
            CheckFault::BadCandidate(_) => 28,
            CheckFault::NoSuchDeletion(_) => 29,
            CheckFault::NoEmptyClause => 30,
            CheckFault::LiteralOutOfRange(_) => 31,
            CheckFault::NoMemory => 32,
        }
    }

    /// The step at fault, from 1 on, where it is one step's.
    pub fn step(&self) -> Option<u64>
        ensures { result ≡ check_fault_step self.now }
    {
        match self {
            CheckFault::IdNotRising(step)
            | CheckFault::BothSigns(step)
            | CheckFault::NoSuchClause(step)
            | CheckFault::HintNotUnit(step)
            | CheckFault::HintAfterConflict(step)
            | CheckFault::NoConflict(step)
            | CheckFault::MissingCandidate(step)
            | CheckFault::BadCandidate(step)
            | CheckFault::NoSuchDeletion(step)
            | CheckFault::LiteralOutOfRange(step) => Some(*step),
            CheckFault::NoEmptyClause | CheckFault::NoMemory => None,
        }
    }
}
