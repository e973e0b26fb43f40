//! The plans of rows.
use cdcl::{Plan, Search};
use test_samples::soon_stable;

/// The plan of a search that wants so many cubes, with this budget for the root; where more than one
/// is wanted, by numbers that divide small formulas. A number outside its range is taken for the
/// nearest one inside.
pub fn plan_of(search: Search, budget: u32, divide: u32) -> Plan {
    let budget = budget.max(1).min(100_000);
    match search {
        Search::Ordered => Plan::ordered(budget),
        Search::Focused if divide < 2 => Plan::focused(budget).divided(divide),
        Search::Focused => Plan::focused_by(budget, soon_stable()).divided(divide.min(65_536)),
    }
}
