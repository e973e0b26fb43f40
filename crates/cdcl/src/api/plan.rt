//! How a formula is searched.
ghost use Rattle.std.specs.Prelude.{◌≡◌, ◌≤◌, ◌↔◌, IsTrue, true};
ghost use Rattle.theory.specs.Plans.{ordered_within, focused, default_constants};
ghost use Rattle.theory.specs.Search.{max_focused};
ghost use Rattle.heuristics.specs.Ranges.{AreInRange};
ghost use Rattle.cdcl.specs.Plans.{search_of, constants_from};

use heuristics::Constants;
use std::marker::Model;

/// Which search is made in a cube.
#[derive(Clone, Copy, Debug, PartialEq, Eq)]
pub enum Search {
    /// It decides the least free variable to be false, and forgets nothing: the model that it finds
    /// is the first one.
    Ordered,
    /// It decides the variables that gained most in conflicts, restarts and forgets, so that hard
    /// formulas are solved: the model that it finds is one of several.
    Focused,
}

/// A search, the budget of the root, which is 1 to 1,000,000,000 conflicts, into how many cubes a
/// formula is divided by lookahead before they are searched, and whether a formula that isn't solved
/// soon is simplified first. Formula and plan fix the answer and the proof, byte for byte.
#[derive(Clone, Copy, Debug, PartialEq, Eq)]
pub struct Plan {
    search: Search,
    budget: u32,
    // the numbers of the focused search; the usual ones where the search is ordered
    constants: Constants,
    // into how many cubes a formula is divided before they are searched
    divide: u32,
    // whether a formula that isn't solved soon is simplified; no search of a cube looks at it
    simplify: bool,
}

impl Model for Plan {
    ghost use Rattle.std.specs.Prelude.{◌≡◌, ◌≤◌};
    ghost use Rattle.theory.specs.Plans as plans;
    ghost use Rattle.theory.specs.Search.{max_focused};
    ghost use Rattle.heuristics.specs.Ranges.{AreInRange};
    ghost use Rattle.cdcl.specs.Plans.{search_of, search_from, constants_from};

    ghost Value = { plans.Plan };

    ghost view = { λ p. record { search = search_of p.search p.constants; budget = p.budget; divide = p.divide; simplify = p.simplify } };

    ghost invariant = { λ p. (1 ≤ p.budget) × (p.budget ≤ max_focused) × (p.divide ≤ 65536) × AreInRange p.constants
        × (constants_from (search_of p.search p.constants) ≡ p.constants) };

    ghost inverse = { λ p. record { search = search_from p.search; budget = p.budget; constants = constants_from p.search; divide = p.divide; simplify = p.simplify } };
}

impl Plan {
    /// The ordered search, with a budget of 1 to 100,000 conflicts for the root.
    pub fn ordered(budget: u32) -> Plan
        requires { (1 ≤ budget) × (budget ≤ 100000) }
        ensures { result ≡ ordered_within budget }
    {
        let constants = Constants::default();
        constants.are_in_range();
        Plan {
            search: Search::Ordered,
            budget,
            constants,
            divide: 0,
            simplify: false,
        }
    }

    /// The focused search with the usual numbers, and a budget of 1 to 1,000,000,000 conflicts for
    /// the root. A formula that isn't solved soon is simplified.
    pub fn focused(budget: u32) -> Plan
        requires { (1 ≤ budget) × (budget ≤ max_focused) }
        ensures { result ≡ record { search = focused default_constants; budget = budget; divide = 0; simplify = true } }
    {
        Plan::focused_by(budget, Constants::default())
    }

    /// The focused search with other numbers.
    pub fn focused_by(budget: u32, constants: Constants) -> Plan
        requires { (1 ≤ budget) × (budget ≤ max_focused) }
        ensures { result ≡ record { search = focused constants; budget = budget; divide = 0; simplify = true } }
    {
        constants.are_in_range();
        Plan {
            search: Search::Focused,
            budget,
            constants,
            divide: 0,
            simplify: true,
        }
    }

    /// The same plan, which wants a formula to be divided into so many cubes by lookahead, before
    /// they are searched: 0 to 65,536, where 0 and 1 divide none. The ordered search divides none.
    pub fn divided(self, cubes: u32) -> Plan
        requires { cubes ≤ 65536 }
        ensures { result ≡ record self { divide = cubes } }
    {
        Plan {
            divide: cubes,
            ..self
        }
    }

    /// The same plan, which simplifies a formula that isn't solved soon, or doesn't. The ordered
    /// search simplifies none.
    pub fn simplifying(self, simplify: bool) -> Plan
        ensures { result ≡ record self { simplify = simplify } }
    {
        Plan { simplify, ..self }
    }

    /// Whether it simplifies some formulas.
    pub fn may_simplify(&self) -> bool
        ensures { IsTrue result ↔ (self.now.simplify ≡ true) × (self.now.search ≡ focused (constants_from self.now.search)) }
    {
        self.search == Search::Focused && self.simplify
    }

    /// Whether it was made to simplify formulas.
    pub fn simplify(&self) -> bool
        ensures { result ≡ self.now.simplify }
    {
        self.simplify
    }

    /// Into how many cubes it wants a formula to be divided.
    pub fn divide(&self) -> u32
        ensures same { result ≡ self.now.divide }
        ensures within { result ≤ 65536 }
    {
        self.divide
    }

    /// Whether it divides some formulas.
    pub fn may_divide(&self) -> bool {
        self.search == Search::Focused && self.divide >= 2
    }

    /// The search.
    pub fn search(&self) -> Search
        ensures { search_of result (constants_from self.now.search) ≡ self.now.search }
    {
        self.search
    }

    /// The numbers of the focused search, or where the search is ordered the usual ones.
    pub fn constants(&self) -> Constants
        ensures same { result ≡ constants_from self.now.search }
        ensures within { AreInRange result }
    {
        self.constants
    }

    /// The budget of the root, in conflicts.
    pub fn budget(&self) -> u32
        ensures same { result ≡ self.now.budget }
        ensures within { (1 ≤ result) × (result ≤ max_focused) }
    {
        self.budget
    }
}
