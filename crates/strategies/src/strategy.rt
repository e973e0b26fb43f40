//! How a formula is decided.
ghost use Rattle.std.specs.Prelude.{◌≡◌, ◌≤◌, true, false, Some, None, IfSome};
ghost use Rattle.strategies.specs.Choosing.{first_within};
ghost use Rattle.strategies.specs.Strategies.{by_plan};

use cdcl::Plan;
use cnf::Formula;
use std::marker::Model;

/// The first search has so many conflicts at most, divided by the formula's literals.
const SHORT: u64 = 100_000_000;

/// How a formula is decided, and which of its models is the answer. Formula and strategy fix the
/// answer and the proof, byte for byte.
#[derive(Clone, Copy, Debug)]
pub struct Strategy {
    // how many conflicts the ordered search of the whole formula has at most, if there is one before
    // the plan
    first: Option<u32>,
    // what decides it where that search doesn't
    plan: Plan,
    // whether the answer is the first model, and not the one that the plan finds
    lowers: bool,
}

impl Model for Strategy {
    ghost use Rattle.std.specs.Prelude.{◌≤◌, IfSome};
    ghost use Rattle.strategies.specs.Strategies as strategies;

    ghost Value = { strategies.Strategy };

    ghost view = { λ s. record { first = s.first; plan = s.plan; lowers = s.lowers } };

    ghost invariant = { λ s. IfSome s.first (λ budget. (1 ≤ budget) × (budget ≤ 100000)) };

    ghost inverse = { λ s. record { first = s.first; plan = s.plan; lowers = s.lowers } };
}

impl Strategy {
    /// The plan alone, with the model that it finds.
    pub fn of(plan: Plan) -> Strategy
        ensures { result ≡ by_plan plan }
    {
        Strategy {
            first: None,
            plan,
            lowers: false,
        }
    }

    /// The ordered search of the whole formula, with 1 to 100,000 conflicts; where they are used up
    /// the plan. The answer is the formula's first model.
    pub fn automatic(first: u32, plan: Plan) -> Strategy
        requires { (1 ≤ first) × (first ≤ 100000) }
        ensures { result ≡ record { first = Some first; plan = plan; lowers = true } }
    {
        Strategy {
            first: Some(first),
            plan,
            lowers: true,
        }
    }

    /// The same, by another plan that is known to decide the formula.
    pub fn chosen(self, plan: Plan) -> Strategy
        ensures { result ≡ record self { first = None; plan = plan } }
    {
        Strategy {
            first: None,
            plan,
            ..self
        }
    }

    /// The same, whose answer is the model that is found.
    pub fn with_any_model(self) -> Strategy
        ensures { result ≡ record self { lowers = false } }
    {
        Strategy {
            lowers: false,
            ..self
        }
    }

    /// The same, whose answer is the first model.
    pub fn with_first_model(self) -> Strategy
        ensures { result ≡ record self { lowers = true } }
    {
        Strategy {
            lowers: true,
            ..self
        }
    }

    /// How many conflicts the ordered search has at most that is made first, if there is one.
    pub fn first(&self) -> Option<u32>
        ensures { result ≡ self.now.first }
    {
        self.first
    }

    /// How many conflicts the ordered search of a formula has that is made first, if there is one. In a
    /// large formula they are fewer, since each takes longer there.
    pub fn first_within(&self, formula: &Formula) -> Option<u32>
        ensures same { result ≡ first_within formula.now self.now }
        ensures within { IfSome result (λ budget. (1 ≤ budget) × (budget ≤ 100000)) }
    {
        let budget = self.first?;
        let few = SHORT / (formula.literal_count() as u64 + 1);
        let conflicts = few.min(u64::from(budget)).max(1);
        Some(conflicts as u32)
    }

    /// The plan.
    pub fn plan(&self) -> Plan
        ensures { result ≡ self.now.plan }
    {
        self.plan
    }

    /// Whether the answer is the first model.
    pub fn lowers(&self) -> bool
        ensures { result ≡ self.now.lowers }
    {
        self.lowers
    }
}
