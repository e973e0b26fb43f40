//! What a run is: the plan, the limits and the formula, in the file `run` of its folder.
ghost use Rattle.std.specs.Prelude.{◌≡◌, ◌≤◌, ◌↔◌, IfOk, IfSome, IsSome, string_bytes};
ghost use Rattle.theory.specs.Reading.{ReadsWithin, formula};
ghost use Rattle.cnf.specs.Limits.{limits_of};
ghost use Rattle.spread.specs.Sums.{sum_of};
ghost use Rattle.spread.specs.RunFiles.{most_at_root, plan_by, written_by, IsFormulaOf};

use crate::folder::{Folder, read_file, sum_of};
use crate::said::{Said, say, say_error, say_no_memory};
use cdcl::{Plan, Search};
use cnf::{Formula, Limits, read_formula_within};
use std::alloc::{AllocError, Global};
use std::fs::Files;
use std::io::{ErrorKind, Write};
use std::str::Lines;
use std::{fs, io, str};
use strategies::Strategy;

/// The greatest budget of a root by each search.
fn greatest_budget(search: Search) -> u32
    ensures { result ≡ most_at_root search }
{
    match search {
        Search::Ordered => 100_000,
        Search::Focused => 1_000_000_000,
    }
}

/// The most cubes that a formula may be divided into.
const MAX_DIVIDE: u32 = 65_536;

/// The plan of these numbers, if they are in their ranges.
fn plan_of(search: Search, budget: u32, divide: u32, simplify: bool) -> Option<Plan>
    ensures plan { IfSome result (λ plan. plan ≡ plan_by search budget divide simplify) }
    ensures some { IsSome result ↔ ((1 ≤ budget) × (budget ≤ most_at_root search) × (divide ≤ 65536)) }
{
    if budget < 1 || budget > greatest_budget(search) || divide > MAX_DIVIDE {
        return None;
    }
    Some(match search {
        Search::Ordered => Plan::ordered(budget),
        Search::Focused => Plan::focused(budget).divided(divide).simplifying(simplify),
    })
}

/// What a run is.
pub struct RunFile {
    pub plan: Plan,
    /// Whether the answer is the first model, and not the one that the plan finds.
    pub lowers: bool,
    /// How large the formula may be.
    pub limits: Limits,
    /// The SHA-256 of the formula's bytes.
    pub formula_sum: String,
    /// That of the file's own bytes, by which packs name the run.
    pub sum: String,
}

// written out, so that proofs of its owners stay short (docs/PROVING.md)
impl Drop for RunFile {
    fn drop(self) {
        let RunFile {
            plan: _,
            lowers: _,
            limits: _,
            formula_sum: _,
            sum: _,
        } = self;
    }
}

impl RunFile {
    /// By what its proof and its answer are written.
    pub fn strategy(&self) -> Strategy
        ensures { result ≡ written_by self.now }
    {
        let strategy = Strategy::of(self.plan);
        if self.lowers {
            strategy.with_first_model()
        } else {
            strategy
        }
    }
}

fn name_of(search: Search) -> &'static str {
    match search {
        Search::Ordered => "ordered",
        Search::Focused => "focused",
    }
}

fn search_named(name: &str) -> Option<Search> {
    match name {
        "ordered" => Some(Search::Ordered),
        "focused" => Some(Search::Focused),
        _ => None,
    }
}

fn yes_or_no(yes: bool) -> &'static str {
    if yes { "yes" } else { "no" }
}

fn yes_named(name: &str) -> Option<bool> {
    match name {
        "yes" => Some(true),
        "no" => Some(false),
        _ => None,
    }
}

fn limits_named(name: &str) -> Option<Limits> {
    match name {
        "standard" => Some(Limits::Standard),
        "large" => Some(Limits::Large),
        _ => None,
    }
}

fn limits_name(limits: Limits) -> &'static str {
    match limits {
        Limits::Standard => "standard",
        Limits::Large => "large",
    }
}

/// The line that says that the answer is the first model. Where it isn't there, the answer is the
/// model that the plan finds.
const FIRST_MODEL: &str = "model first";

/// The text of the file for a formula with this sum.
pub(crate) fn run_text(
    alloc: Global,
    plan: &Plan,
    lowers: bool,
    limits: Limits,
    formula_sum: &str,
) -> Result<String, AllocError> {
    let search = name_of(plan.search());
    let (budget, divide) = (plan.budget(), plan.divide());
    let simplify = yes_or_no(plan.simplify());
    let (model, end) = if lowers {
        (FIRST_MODEL, "\n")
    } else {
        ("", "")
    };
    let limits = limits_name(limits);
    format!(in alloc;
        "cubesat run 3\nsearch {search}\nbudget {budget}\ndivide {divide}\nsimplify {simplify}\n{model}{end}limits {limits}\nformula {formula_sum}\n"
    )
}

/// What stands behind a name in the next line.
fn value_of<'a>(lines: &mut Lines<'a>, name: &str) -> Option<&'a str> {
    lines.next()?.strip_prefix(name)
}

/// The plan that the next lines say.
fn plan_in(lines: &mut Lines<'_>) -> Option<Plan> {
    let search = search_named(value_of(lines, "search ")?)?;
    let budget = value_of(lines, "budget ")?.parse::<u32>().ok()?;
    let divide = value_of(lines, "divide ")?.parse::<u32>().ok()?;
    let simplify = yes_named(value_of(lines, "simplify ")?)?;
    plan_of(search, budget, divide, simplify)
}

/// Whether the next lines say that the answer is the first model, and the limits behind that.
fn limits_in(lines: &mut Lines<'_>) -> Option<(bool, Limits)> {
    let line = lines.next()?;
    if line == FIRST_MODEL {
        return Some((true, limits_named(value_of(lines, "limits ")?)?));
    }
    Some((false, limits_named(line.strip_prefix("limits ")?)?))
}

/// What the lines of the file say.
#[derive(Clone, Copy)]
struct Parts<'a> {
    plan: Plan,
    lowers: bool,
    limits: Limits,
    formula_sum: &'a str,
}

/// What they say, if they are those of a run.
fn parts_of<'a>(lines: &mut Lines<'a>) -> Option<Parts<'a>> {
    if lines.next() != Some("cubesat run 3") {
        return None;
    }
    let plan = plan_in(lines)?;
    let (lowers, limits) = limits_in(lines)?;
    let formula_sum = value_of(lines, "formula ")?;
    Some(Parts {
        plan,
        lowers,
        limits,
        formula_sum,
    })
}

/// What the bytes of the file say, if they are those of a run.
pub(crate) fn run_of(alloc: Global, bytes: &[u8]) -> Result<Option<RunFile>, AllocError>
    ensures { IfOk result (λ o. IfSome o (λ run. string_bytes run.sum ≡ sum_of bytes.now)) }
{
    let Ok(text) = str::from_utf8(bytes) else {
        return Ok(None);
    };
    let Some(parts) = parts_of(&mut text.lines()) else {
        return Ok(None);
    };
    Ok(Some(RunFile {
        plan: parts.plan,
        lowers: parts.lowers,
        limits: parts.limits,
        formula_sum: String::from_str(alloc, parts.formula_sum)?,
        sum: sum_of(alloc, bytes)?,
    }))
}

/// Whether a run was begun in a folder: its formula is there.
fn is_begun<R: Files>(rt: &R, alloc: Global, folder: Folder) -> io::Result<bool> {
    fs::exists(rt, folder.formula(alloc)?.as_str())
}

/// Says why the file of a run can't be read.
fn say_no_run<R: Files, E: Write>(
    rt: &R,
    alloc: Global,
    folder: Folder,
    path: &str,
    error: io::Error,
    faults: &mut E,
) -> Said {
    let is_missing = error.kind() == ErrorKind::NotFound;
    if is_missing && is_begun(rt, alloc, folder).unwrap_or(false) {
        return say(
            faults,
            folder.path,
            "`divide` hasn't ended here: run it again",
        );
    }
    say_error(faults, path, error)
}

/// The run of a folder, or why there is none, which is said.
pub fn run_in<R: Files, E: Write>(
    rt: &R,
    alloc: Global,
    folder: Folder,
    faults: &mut E,
) -> Result<RunFile, Said> {
    let Ok(path) = folder.run(alloc) else {
        return Err(say_no_memory(faults, folder.path));
    };
    let path = path.as_str();
    let bytes = match read_file(rt, alloc, path) {
        Ok(bytes) => bytes,
        Err(error) => return Err(say_no_run(rt, alloc, folder, path, error, faults)),
    };
    match run_of(alloc, &bytes) {
        Ok(Some(run)) => Ok(run),
        Ok(None) => Err(say(
            faults,
            path,
            "not a run that this version makes; make one by `cubesat divide --into`",
        )),
        Err(_) => Err(say_no_memory(faults, path)),
    }
}

/// The formula of these bytes, or why there is none, which is said.
pub(crate) fn formula_of<E: Write>(
    alloc: Global,
    path: &str,
    bytes: &[u8],
    limits: Limits,
    faults: &mut E,
) -> Result<Formula, Said>
    ensures { IfOk result (λ f. ReadsWithin (limits_of limits) bytes.now (formula f)) }
{
    let fault = match read_formula_within(alloc, bytes, limits) {
        Ok(formula) => return Ok(formula),
        Err(fault) => fault,
    };
    let number = fault.number();
    let _ = match fault.place() {
        Some(place) => writeln!(
            faults,
            "cubesat: {path}: refusal {number} at {place}; `cubesat solve` shows the place"
        ),
        None => writeln!(faults, "cubesat: {path}: refusal {number}"),
    };
    Err(Said)
}

/// The bytes of a run's formula, or why they can't be read or are another one's, which is said.
pub fn formula_bytes_in<R: Files, E: Write>(
    rt: &R,
    alloc: Global,
    folder: Folder,
    run: &RunFile,
    faults: &mut E,
) -> Result<Vec<u8>, Said>
    ensures { IfOk result (λ bytes. sum_of bytes.items ≡ string_bytes run.now.formula_sum) }
{
    let Ok(path) = folder.formula(alloc) else {
        return Err(say_no_memory(faults, folder.path));
    };
    let path = path.as_str();
    let bytes = match read_file(rt, alloc, path) {
        Ok(bytes) => bytes,
        Err(error) => return Err(say_error(faults, path, error)),
    };
    let Ok(sum) = sum_of(alloc, &bytes) else {
        return Err(say_no_memory(faults, path));
    };
    if sum.as_str() != run.formula_sum.as_str() {
        return Err(say(
            faults,
            path,
            "it has changed since the run began; put the formula of the run back",
        ));
    }
    Ok(bytes)
}

/// The formula of a run, or why it can't be read, which is said.
pub(crate) fn formula_in<R: Files, E: Write>(
    rt: &R,
    alloc: Global,
    folder: Folder,
    run: &RunFile,
    faults: &mut E,
) -> Result<Formula, Said>
    ensures { IfOk result (IsFormulaOf run.now) }
{
    let bytes = formula_bytes_in(rt, alloc, folder, run, faults)?;
    let Ok(path) = folder.formula(alloc) else {
        return Err(say_no_memory(faults, folder.path));
    };
    formula_of(alloc, path.as_str(), &bytes, run.limits, faults)
}
