//! How a formula is to be solved: as the command line says, and as a run takes it.
ghost use Rattle.std.specs.Prelude.{◌≡◌, ◌≤◌, IfSome};
ghost use Rattle.std.proofs.Props.{props};
ghost use Rattle.command_line.specs.Arguments.{most_asked, plan_asked, strategy_asked};
ghost use Rattle.cdcl.specs.declared.api.plan.Search.TheVariants as search;

use cdcl::Plan;
use cnf::Limits;
use cubes::HandCount;
use strategies::Strategy;

/// The budget of the focused search, where none is asked for: so much that a formula which isn't
/// divided is one cube. It loses by a split, since both halves begin from nothing.
pub(crate) const FOCUSED_BUDGET: u32 = 100_000_000;

/// That of a run that is spread over machines: a cube that takes longer than a part of a round may
/// is split in the end, and so doesn't hold up the run.
pub const SPREAD_BUDGET: u32 = 100_000;

/// Into how many cubes the focused search divides a formula, where no number is asked for.
const FOCUSED_DIVIDE: u32 = 64;

/// By which search a formula is to be decided.
#[derive(Clone, Copy, Debug, PartialEq, Eq)]
pub enum Choice {
    /// The ordered one is tried first, then the focused one; the answer is the first model.
    Automatic,
    Ordered,
    Focused,
}

/// What the command line says.
#[derive(Clone, Copy)]
pub struct Asked {
    pub choice: Choice,
    /// The budget of the root, in conflicts: 1 to `greatest_budget`; with the automatic choice that of
    /// the ordered search which is tried first.
    pub budget: u32,
    /// Into how many cubes the formula is to be divided, 0 to 65,536, if that is asked for.
    pub divide: Option<u32>,
    /// Whether the focused search simplifies a formula that isn't solved soon, if that is asked for.
    pub simplify: Option<bool>,
    /// Whether any model will do where the automatic choice would give the first one.
    pub any_model: bool,
    /// How many hands solve it, 1 to 16.
    pub hands: usize,
    /// After how many seconds a run ends without a verdict, if it isn't solved by then.
    pub seconds: Option<u32>,
    pub limits: Limits,
    ghost fit: { (1 ≤ budget) × (budget ≤ most_asked choice) × IfSome divide (λ cubes. cubes ≤ 65536) × (1 ≤ hands) × (hands ≤ 16) } by { Prim.hlevel props },
}

/// What a run takes.
#[derive(Clone, Copy)]
pub struct Effort {
    pub limits: Limits,
    pub strategy: Strategy,
    /// How many hands solve it.
    pub hands: HandCount,
    /// After how many seconds a run ends without a verdict, if it isn't solved by then.
    pub seconds: Option<u32>,
}

/// The greatest budget that may be asked for.
pub fn greatest_budget(choice: Choice) -> u32
    ensures { result ≡ most_asked choice }
{
    match choice {
        Choice::Automatic | Choice::Ordered => 100_000,
        Choice::Focused => 1_000_000_000,
    }
}

/// The focused search with this budget for the root, into how many cubes a formula is divided, if a
/// number is given, and whether it simplifies, if that is said.
fn focused(budget: u32, divide: Option<u32>, simplify: Option<bool>) -> Plan
    requires { (1 ≤ budget) × (budget ≤ 1000000000) × IfSome divide (λ cubes. cubes ≤ 65536) }
    ensures { result ≡ plan_asked search.Focused budget divide simplify }
{
    let plan = Plan::focused(budget).divided(divide.unwrap_or(FOCUSED_DIVIDE));
    plan.simplifying(simplify.unwrap_or(true))
}

/// The ordered search with this budget, and behind it the focused one with another.
fn automatic(
    budget: u32,
    behind: u32,
    divide: Option<u32>,
    simplify: Option<bool>,
    any_model: bool,
) -> Strategy
    requires asked { (1 ≤ budget) × (budget ≤ 100000) × IfSome divide (λ cubes. cubes ≤ 65536) }
    requires behind { (1 ≤ behind) × (behind ≤ 1000000000) }
    ensures { result ≡ strategy_asked Choice.Automatic budget behind divide simplify any_model }
{
    let strategy = Strategy::automatic(budget, focused(behind, divide, simplify));
    if any_model {
        strategy.with_any_model()
    } else {
        strategy
    }
}

/// The strategy that is asked for; with the automatic choice the focused search has the budget
/// `behind`, 1 to 1,000,000,000.
pub fn strategy_of(
    choice: Choice,
    budget: u32,
    behind: u32,
    divide: Option<u32>,
    simplify: Option<bool>,
    any_model: bool,
) -> Strategy
    requires asked { (1 ≤ budget) × (budget ≤ most_asked choice) × IfSome divide (λ cubes. cubes ≤ 65536) }
    requires behind { (1 ≤ behind) × (behind ≤ 1000000000) }
    ensures { result ≡ strategy_asked choice budget behind divide simplify any_model }
{
    match choice {
        Choice::Automatic => automatic(budget, behind, divide, simplify, any_model),
        Choice::Ordered => Strategy::of(Plan::ordered(budget)),
        Choice::Focused => Strategy::of(focused(budget, divide, simplify)),
    }
}

impl Asked {
    /// What a run takes that does what is asked for.
    pub fn effort(self) -> Effort
        ensures strategy { result.strategy ≡ strategy_asked self.choice self.budget 100000000 self.divide self.simplify self.any_model }
        ensures hands { result.hands ≡ self.hands }
        ensures seconds { result.seconds ≡ self.seconds }
        ensures limits { result.limits ≡ self.limits }
    {
        Effort {
            limits: self.limits,
            strategy: strategy_of(
                self.choice,
                self.budget,
                FOCUSED_BUDGET,
                self.divide,
                self.simplify,
                self.any_model,
            ),
            hands: HandCount::of(self.hands),
            seconds: self.seconds,
        }
    }
}
