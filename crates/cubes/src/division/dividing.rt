//! The focused search of a formula's cubes, by a plan that may divide the formula before they are
//! searched.
ghost use Rattle.std.specs.Prelude.{◌≡◌, ◌≢◌, ◌≤◌, ◌<◌, ℕ, ◌^◌, ◌*◌, true, false, nat_lt, [], List, length, take, IfOk, OnOk};
ghost use Rattle.theory.specs.Truth.{Formula, IsOver};
ghost use Rattle.theory.specs.Plans as plans;
ghost use Rattle.theory.specs.Search.{exhausted, max_focused};
ghost use Rattle.theory.specs.Runs.{RunsBy, cube_budget, Runs};
ghost use Rattle.kernel.specs.declared.order.Order.TheVariants.{ByPlace};
ghost use Rattle.lookahead.specs.declared.ranking.Ranked.{Ranked};
ghost use Rattle.lookahead.specs.Rankings.{IsRanking};
ghost use Rattle.cdcl.specs.Outcome.{outcome_of};
ghost use Rattle.cdcl.specs.Plans.{constants_from};
ghost use Rattle.cdcl.specs.Searching.{IsReady};
ghost use Rattle.cdcl.specs.Focusing.{IsEquipped, IsKept, IsSpent, stable_at};
ghost use Rattle.cubes.specs.declared.division.dividing.Division.TheVariants.{Whole, Divided};
ghost use Rattle.cubes.specs.declared.division.dividing.First.TheVariants.{FewDecisions, ManyDecisions};
ghost use Rattle.cubes.specs.Division.{IsKnown, IsDivisionOf, IsRootOf, FirstSays, IsDividing};

use crate::division::first_search::{DivisionWatcher, FirstAnswer, FirstSearch};
use crate::division::looking::{look, rank};
use crate::division::root::Root;
use cdcl::{FocusedSearch, LineLog, Outcome, Plan, Stop, Watcher};
use cnf::Formula;
use kernel::Cube;
use lookahead::Ranking;
use std::alloc::{AllocError, Global};

/// After so many conflicts the first search is asked whether the formula is divided.
const FIRST_CONFLICTS: u32 = 20_000;

/// Whether the formula is divided before its cubes are searched.
#[derive(Drop)]
pub(crate) enum Division {
    /// It isn't known yet.
    Unasked,
    /// It isn't, and each cube is searched.
    Whole,
    /// It is; these are its variables by rank.
    Divided(Ranking),
}

/// What the first search has come to, up to the conflict at which it is asked.
#[derive(Drop)]
pub(crate) enum First {
    /// An outcome before it.
    Ended(Outcome<LineLog>),
    /// The conflict, with so few decisions in stable mode that the formula is divided.
    FewDecisions,
    /// The conflict, with more decisions.
    ManyDecisions,
}

/// The focused search, with what it knows of the formula's division.
pub struct DividingSearch {
    pub(crate) search: FocusedSearch,
    /// How many cubes are wanted.
    pub(crate) divide: u32,
    /// With so many conflicts the first search is asked.
    pub(crate) asked: u32,
    pub(crate) division: Division,
    /// What was known of the cube without literals from the beginning.
    pub(crate) root: Root,
}

// written out, so that proofs of its owners stay short (docs/PROVING.md)
impl Drop for DividingSearch {
    fn drop(self) {
        let DividingSearch {
            search: _,
            divide: _,
            asked: _,
            division: _,
            root: _,
        } = self;
    }
}

/// Whether there are fewer cubes of so many literals than are wanted.
fn is_upper(literals: usize, divide: u32) -> bool
    requires { divide ≤ 65536 }
    ensures { result ≡ nat_lt (2 ^ literals) divide }
{
    literals < 17 && 2_u32.pow(literals as u32) < divide
}

/// Whether so many decisions are fewer than five for four conflicts.
fn are_few(decided: u64, conflicts: u32) -> bool
    requires { decided < 2 ^ 60 }
    ensures few { result ≡ true → 4 * decided < 5 * conflicts }
    ensures many { result ≡ false → ¬ (4 * decided < 5 * conflicts) }
{
    4 * decided < 5 * u64::from(conflicts)
}

/// Whether a search that stands at a conflict decided few literals in stable mode.
fn has_few_decisions(search: &FocusedSearch) -> bool
    requires { (search.now.decided < 2 ^ 60) × (search.now.stable_conflicts < 2 ^ 31) }
    ensures few { result ≡ true → 4 * search.now.decided < 5 * stable_at search.now }
    ensures many { result ≡ false → ¬ (4 * search.now.decided < 5 * stable_at search.now) }
{
    are_few(search.decided(), search.stable_at_stop())
}

/// The search of the cube without literals, up to a conflict of this number.
fn search_first<W: Watcher>(
    search: &mut FocusedSearch,
    conflicts: u32,
    watcher: &W,
) -> Result<First, AllocError>
    requires equipped { IsEquipped search.old }
    requires ready { (F : Formula) × IsReady ByPlace F search.old.kernel }
    requires conflicts { (1 ≤ conflicts) × (conflicts ≤ max_focused) }
    ensures says { IfOk result (λ first. (F : Formula) → IsReady ByPlace F search.old.kernel → FirstSays search.old.constants F conflicts first search.new) }
    ensures spent { IfOk result (λ first. first ≡ ManyDecisions → IsSpent conflicts search.new) }
    ensures kept { OnOk result (IsKept search.old search.new) }
{
    let root = Cube::root(search.allocator());
    search.begin(&root)?;
    match search.run_to(conflicts, watcher)? {
        Stop::Ended(outcome) => Ok(First::Ended(outcome)),
        Stop::Spent => {
            if has_few_decisions(search) {
                Ok(First::FewDecisions)
            } else {
                Ok(First::ManyDecisions)
            }
        }
    }
}

/// Whether the formula is divided, by what the first search has come to.
fn division_by(search: &FocusedSearch, first: &First) -> Result<Division, AllocError>
    requires { search.now.kernel.vars < 2 ^ 31 }
    ensures divided { IfOk result (λ d. first.now ≡ FewDecisions → (ranking : List Ranked) × (d ≡ Divided ranking) × IsRanking search.now.kernel.vars (take search.now.kernel.first search.now.kernel.clauses) ranking) }
    ensures whole { IfOk result (λ d. first.now ≢ FewDecisions → d ≡ Whole) }
{
    match first {
        First::FewDecisions => Ok(Division::Divided(rank(search)?)),
        _ => Ok(Division::Whole),
    }
}

/// What is known of the division from the beginning.
fn division_of(search: &FocusedSearch, root: Root) -> Result<Division, AllocError>
    requires { search.now.kernel.vars < 2 ^ 31 }
    ensures { IfOk result (λ d. (F : Formula) (plan : plans.Plan) → IsReady ByPlace F search.now.kernel → IsRootOf F plan root → IsDivisionOf F plan d) }
{
    match root {
        Root::Unknown => Ok(Division::Unasked),
        Root::Searched(_) => Ok(Division::Whole),
        Root::LookedAt(_) => Ok(Division::Divided(rank(search)?)),
    }
}

impl DividingSearch {
    /// The plan's search of a formula, before its first cube, with what is known of the cube
    /// without literals. It keeps the lines of a cube, or doesn't.
    pub(crate) fn open(
        alloc: Global,
        formula: &Formula,
        plan: Plan,
        root: Root,
        keeps: bool,
    ) -> Result<DividingSearch, AllocError>
        requires search { plan.search ≡ plans.focused (constants_from plan.search) }
        requires root { IsRootOf formula.now plan root }
        ensures { IfOk result (IsDividing plan formula.now) }
    {
        let search = FocusedSearch::open(alloc, formula, plan.constants(), keeps)?;
        let division = division_of(&search, root)?;
        Ok(DividingSearch {
            search,
            divide: plan.divide(),
            asked: FIRST_CONFLICTS.min(plan.budget()),
            division,
            root,
        })
    }

    /// What is known of the cube without literals, once it was found to be split on this variable.
    pub(crate) fn root_split_on(&self, var: u32) -> Root
        ensures { (F : Formula) (plan : plans.Plan) → IsDividing plan F self.now → Runs F plan [] (exhausted var) → IsRootOf F plan result }
    {
        match self.division {
            Division::Unasked => Root::Unknown,
            Division::Whole => Root::Searched(var),
            Division::Divided(_) => Root::LookedAt(var),
        }
    }

    /// What a watcher is told of the first search, which has come to this, where so many conflicts
    /// were met before it.
    fn figures_of_first(&self, first: &First, before: u64) -> FirstSearch {
        let search = &self.search;
        // the conflict at which it is asked isn't counted yet
        let (answer, stable) = match first {
            First::Ended(_) => (FirstAnswer::Ended, search.stable_conflicts()),
            First::FewDecisions => (FirstAnswer::Divided(self.divide), search.stable_at_stop()),
            First::ManyDecisions => (FirstAnswer::Whole, search.stable_at_stop()),
        };
        FirstSearch {
            decisions: search.decided(),
            conflicts: search.counts().conflicts.saturating_sub(before),
            stable_conflicts: u64::from(stable),
            answer,
        }
    }

    /// Asks the first search whether the formula is divided, and ranks the variables if it is.
    fn ask<W: DivisionWatcher>(&mut self, watcher: &W) -> Result<First, AllocError>
        requires { (F : Formula) × (plan : plans.Plan) × IsDividing plan F self.old × (2 ≤ plan.divide) }
        ensures division { OnOk result ((F : Formula) (plan : plans.Plan) → IsDividing plan F self.old → 2 ≤ plan.divide → IsKnown F plan self.new.division) }
        ensures says { IfOk result (λ first. (F : Formula) → IsReady ByPlace F self.old.search.kernel → FirstSays self.old.search.constants F self.old.asked first self.new.search) }
        ensures spent { IfOk result (λ first. first ≡ ManyDecisions → IsSpent self.old.asked self.new.search) }
        ensures kept { OnOk result ((F : Formula) (plan : plans.Plan) → IsDividing plan F self.old → IsDividing plan F self.new) }
    {
        let before = self.search.counts().conflicts;
        let first = search_first(&mut self.search, self.asked, watcher)?;
        watcher.asked(self.figures_of_first(&first, before));
        self.division = division_by(&self.search, &first)?;
        Ok(first)
    }

    /// As `ask`, unless the division is known.
    fn ask_once<W: DivisionWatcher>(&mut self, watcher: &W) -> Result<(), AllocError>
        requires { (F : Formula) × (plan : plans.Plan) × IsDividing plan F self.old × (2 ≤ plan.divide) }
        ensures known { OnOk result ((F : Formula) (plan : plans.Plan) → IsDividing plan F self.old → 2 ≤ plan.divide → IsKnown F plan self.new.division) }
        ensures kept { OnOk result ((F : Formula) (plan : plans.Plan) → IsDividing plan F self.old → IsDividing plan F self.new) }
    {
        if let Division::Unasked = self.division {
            let _first = self.ask(watcher)?;
        }
        Ok(())
    }

    /// The outcome of a cube by the search.
    fn search<W: Watcher>(
        &mut self,
        cube: &Cube,
        budget: u32,
        watcher: &W,
    ) -> Result<Outcome<LineLog>, AllocError>
        requires ready { (F : Formula) × (plan : plans.Plan) × IsDividing plan F self.old × IsOver F.vars cube.now }
        requires budget { (1 ≤ budget) × (budget ≤ max_focused) }
        ensures runs { IfOk result (λ o. (F : Formula) (plan : plans.Plan) → IsDividing plan F self.old → budget ≡ cube_budget plan cube.now →
            RunsBy plan.search F plan.budget cube.now (outcome_of o)) }
        ensures kept { OnOk result ((F : Formula) (plan : plans.Plan) → IsDividing plan F self.old → IsDividing plan F self.new) }
    {
        self.search.solve(cube, budget, watcher)
    }

    /// The outcome of a cube that is looked at where the formula is divided, once that is known.
    fn solve_upper<W: Watcher>(
        &mut self,
        cube: &Cube,
        budget: u32,
        watcher: &W,
    ) -> Result<Outcome<LineLog>, AllocError>
        requires ready { (F : Formula) × (plan : plans.Plan) × IsDividing plan F self.old × IsKnown F plan self.old.division × IsOver F.vars cube.now }
        requires budget { (1 ≤ budget) × (budget ≤ max_focused) }
        ensures runs { IfOk result (λ o. (F : Formula) (plan : plans.Plan) → IsDividing plan F self.old → IsKnown F plan self.old.division → 2 ^ length cube.now < plan.divide → budget ≡ cube_budget plan cube.now →
            Runs F plan cube.now (outcome_of o)) }
        ensures kept { OnOk result ((F : Formula) (plan : plans.Plan) → IsDividing plan F self.old → IsDividing plan F self.new) }
    {
        if let Division::Divided(ranking) = &self.division {
            return look(&mut self.search, cube, ranking);
        }
        self.search(cube, budget, watcher)
    }

    /// The outcome of the cube without literals, where it isn't known whether the formula is
    /// divided: the first search is asked, and goes on where it isn't. So nothing is searched twice
    /// unless the formula is divided.
    fn solve_first<W: DivisionWatcher>(
        &mut self,
        root: &Cube,
        budget: u32,
        watcher: &W,
    ) -> Result<Outcome<LineLog>, AllocError>
        requires root { root.now ≡ [] }
        requires ready { (F : Formula) × (plan : plans.Plan) × IsDividing plan F self.old × (2 ≤ plan.divide) × (budget ≡ cube_budget plan []) }
        ensures runs { IfOk result (λ o. (F : Formula) (plan : plans.Plan) → IsDividing plan F self.old → 2 ≤ plan.divide → budget ≡ cube_budget plan [] →
            Runs F plan [] (outcome_of o)) }
        ensures kept { OnOk result ((F : Formula) (plan : plans.Plan) → IsDividing plan F self.old → IsDividing plan F self.new) }
    {
        match self.ask(watcher)? {
            First::Ended(outcome) => Ok(outcome),
            First::FewDecisions => self.solve_upper(root, budget, watcher),
            First::ManyDecisions => self.search.resume(budget, watcher),
        }
    }

    /// The outcome of a cube, with this budget of conflicts if it is searched.
    pub(crate) fn solve<W: DivisionWatcher>(
        &mut self,
        cube: &Cube,
        budget: u32,
        watcher: &W,
    ) -> Result<Outcome<LineLog>, AllocError>
        requires ready { (F : Formula) × (plan : plans.Plan) × IsDividing plan F self.old × IsOver F.vars cube.now × (budget ≡ cube_budget plan cube.now) }
        requires budget { (1 ≤ budget) × (budget ≤ max_focused) }
        ensures runs { IfOk result (λ o. (F : Formula) (plan : plans.Plan) → IsDividing plan F self.old → budget ≡ cube_budget plan cube.now →
            Runs F plan cube.now (outcome_of o)) }
        ensures kept { OnOk result ((F : Formula) (plan : plans.Plan) → IsDividing plan F self.old → IsDividing plan F self.new) }
    {
        if let Some(var) = self.root.split_of(cube) {
            return Ok(Outcome::Exhausted(var));
        }
        if !is_upper(cube.lits().len(), self.divide) {
            return self.search(cube, budget, watcher);
        }
        if let Division::Unasked = self.division {
            if cube.lits().is_empty() {
                return self.solve_first(cube, budget, watcher);
            }
        }
        self.ask_once(watcher)?;
        self.solve_upper(cube, budget, watcher)
    }
}
