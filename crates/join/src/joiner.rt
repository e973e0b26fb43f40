//! The lines of a refuted tree's proof, where the tree's nodes come one after the other: its leaves
//! from left to right, and each split behind its right half.
ghost use Rattle.std.specs.Prelude.{◌≡◌, ◌↔◌, ◌+◌, ◌<◌, ◌≤◌, [], length, All, IsTrue, IfOk, OnOk};
ghost use Rattle.std.specs.Bool.{OnFalse};
ghost use Rattle.std.specs.Vec.{vec_capacity};
ghost use Rattle.std.specs.Vec.Iter.{into_iter_items};
ghost use Rattle.theory.specs.Reading.{large, max_vars, max_clauses};
ghost use Rattle.theory.specs.ProofReading.{IsStep, max_number};
ghost use Rattle.cubes.specs.Result.{node_of};
ghost use Rattle.join.specs.Joining.{bare, climb, on_node, before_nodes};
ghost use Rattle.join.specs.Numbered.{IsNode, IsHalf};
ghost use Rattle.join.specs.Rooms.{longest_text};
ghost use Rattle.join.specs.Walking.{joined, line_of, IsJoining, IsStanding, IsNextLine, Makes, OnMore};

use crate::deleted::{mark, put_unmarked};
use crate::line::{ProofLine, renumber};
use crate::room::Need;
use cnf::Lit;
use cubes::{Node, Turn, Walk};
use lines::{Reader, Row};
use lrat::MAX_NUMBER;
use std::alloc::{AllocError, Global};
use std::vec::IntoIter;

/// Where a joiner stands between two lines.
#[derive(Clone, Copy)]
pub(crate) enum Stage {
    /// Between two nodes: the lines of those that came are given.
    Between,

    /// Behind a leaf that came. What is due is deleted first; then come the lines that are left of
    /// the leaf, and behind its last one those of the splits above whose halves are both done.
    Within,
}

/// The lines of a tree's proof, where its nodes come one after the other. It keeps one leaf, and
/// makes each line as it is asked for, in the memory of the one before.
pub struct Joiner {
    /// How many clauses the search of a cube begins with: the numbers up to it are theirs.
    clauses: u64,

    /// The pure literals whose lines are still to come.
    units: IntoIter<Lit>,

    /// The number of the next one's line.
    unit: u64,

    /// The number of the tree's next line.
    next: u64,

    /// The splits on the way from the root; a left half comes to the number of its last line.
    place: Walk<u64>,

    /// The number of the first line of the leaf that came last.
    first: u64,

    /// That leaf's lines that are still to come.
    leaf: Reader,

    /// Which of its lines are deleted.
    deleted: Vec<bool>,

    stage: Stage,

    /// The numbers of the clauses that are deleted next.
    due: Vec<u64>,

    /// The line that was given last.
    line: ProofLine,
}

// written out, so that proofs of its owners stay short (docs/PROVING.md)
impl Drop for Joiner {
    fn drop(self) {
        let Joiner {
            clauses: _,
            units: _,
            unit: _,
            next: _,
            place: _,
            first: _,
            leaf: _,
            deleted: _,
            stage: _,
            due: _,
            line: _,
        } = self;
    }
}

/// Goes up from a cube that is done, past the splits above whose halves are both done: the line of
/// each has the next number, of which `next` is the first. It answers the number behind theirs. It
/// fails where that would be above its limit, or a request for memory is refused.
fn climb(place: &mut Walk<u64>, next: u64) -> Result<u64, AllocError>
    requires next { 2 ≤ next }
    requires splits { All (IsHalf next) place.old }
    ensures climbed { IfOk result (λ n. bare (climb place.old next []) ≡ record { halves = place.new; next = n; steps = [] }) }
    ensures splits { IfOk result (λ n. All (IsHalf n) place.new) }
    ensures fits { IfOk result (λ n. (next ≤ n) × (n ≤ max_number)) }
{
    let mut next = next;
    'splits: loop {
        if next > MAX_NUMBER {
            return Err(AllocError);
        }
        match place.leave(next - 1)? {
            Turn::Both { .. } => next += 1,
            Turn::Right(_) => return Ok(next),
            Turn::End(_) => return Ok(next),
        }
    }
}

impl Joiner {
    /// Before the first node of a tree, for a formula of so many clauses: the lines of these pure
    /// literals come first. It takes memory as lines and ways from the root need more.
    pub fn start(alloc: Global, clauses: u64, units: Vec<Lit>) -> Result<Joiner, AllocError>
        requires clauses { clauses ≤ max_clauses large }
        requires units { length units.items ≤ max_vars large }
        ensures joined { IfOk result (λ j. joined j ≡ before_nodes clauses units.items) }
        ensures clauses { IfOk result (λ j. j.clauses ≡ clauses + length units.items) }
        ensures lawful { IfOk result IsJoining }
    {
        let joiner = Joiner::with_room(alloc, clauses, units, Need::none())?;
        Ok(joiner)
    }

    /// The same with room: it takes no more memory while lines and ways from the root need no more.
    pub(crate) fn with_room(
        alloc: Global,
        clauses: u64,
        units: Vec<Lit>,
        need: Need,
    ) -> Result<Joiner, AllocError>
        requires clauses { clauses ≤ max_clauses large }
        requires units { length units.items ≤ max_vars large }
        ensures joined { IfOk result (λ j. joined j ≡ before_nodes clauses units.items) }
        ensures clauses { IfOk result (λ j. j.clauses ≡ clauses + length units.items) }
        ensures lawful { IfOk result IsJoining }
        ensures between { IfOk result (λ j. j.stage ≡ Stage.Between) }
        ensures literals { IfOk result (λ j. vec_capacity j.line.clause ≡ need.literals) }
        ensures numbers { IfOk result (λ j. (vec_capacity j.line.numbers ≡ need.numbers) × (vec_capacity j.due ≡ need.numbers)) }
        ensures marks { IfOk result (λ j. vec_capacity j.deleted ≡ need.lines) }
    {
        let first_clauses = clauses + units.len() as u64;
        Ok(Joiner {
            clauses: first_clauses,
            units: units.into_iter(),
            unit: clauses + 1,
            next: first_clauses + 1,
            place: Walk::with_room(alloc, need.splits)?,
            first: first_clauses + 1,
            leaf: Reader::of(Row::new(alloc)),
            deleted: Vec::with_capacity(alloc, need.lines)?,
            stage: Stage::Between,
            due: Vec::with_capacity(alloc, need.numbers)?,
            line: ProofLine::with_room(alloc, need.literals, need.numbers)?,
        })
    }

    /// The line that was given last.
    pub fn line(&self) -> &ProofLine
        ensures { result.now ≡ self.now.line }
    {
        &self.line
    }

    /// The most bytes that the text of a line has while none takes more memory: 12 a literal, 21 a
    /// hint or a number to be deleted, 25 for the line's own number and the marks. A size stops at
    /// the greatest one.
    pub fn line_size(&self) -> usize
        ensures { result ≡ longest_text self.now.line }
    {
        self.line.size()
    }

    /// Takes the tree's next node, once there are no more lines of those before. It fails only as
    /// `next_line` does.
    pub fn take(&mut self, node: Node<Row>) -> Result<(), AllocError>
        requires lawful { IsJoining self.old }
        requires given { (joined self.old).steps ≡ [] }
        requires node { IsNode self.old.clauses (node_of node) }
        ensures joined { OnOk result (joined self.new ≡ on_node self.old.clauses (joined self.old) (node_of node)) }
        ensures clauses { OnOk result (self.new.clauses ≡ self.old.clauses) }
        ensures lawful { OnOk result (IsJoining self.new) }
    {
        // There is none, but it goes on to between the nodes.
        let _more = self.next_line()?;
        match node {
            Node::Split(var) => self.place.enter(var)?,
            Node::Leaf(row) => {
                self.first = self.next;
                self.deleted.clear();
                self.deleted.resize(row.len(), false)?;
                self.leaf = Reader::of(row);
                self.stage = Stage::Within;
                self.due.clear();
            }
        }
        Ok(())
    }

    /// Comes to between the two nodes where another one stands, and leaves the pure literals' lines to
    /// that. It takes no memory while there is room for the other's way from the root.
    pub(crate) fn stand_at(&mut self, other: &Joiner) -> Result<(), AllocError>
        requires other { IsJoining other.now }
        requires between { other.now.stage ≡ Stage.Between }
        ensures joined { OnOk result (joined self.new ≡ bare (joined other.now)) }
        ensures clauses { OnOk result (self.new.clauses ≡ other.now.clauses) }
        ensures standing { OnOk result (IsStanding self.new) }
    {
        let alloc = *self.line.clause.allocator();
        self.clauses = other.clauses;
        self.units = Vec::new(alloc).into_iter();
        self.unit = 1;
        self.next = other.next;
        self.place.stand_at(&other.place)?;
        self.leaf = Reader::of(Row::new(alloc));
        self.stage = Stage::Between;
        Ok(())
    }

    /// Goes past the tree's next node, as if it were taken and all its lines were made. It fails only
    /// as `next_line` does.
    pub(crate) fn pass(&mut self, node: &Node<Row>) -> Result<(), AllocError>
        requires standing { IsStanding self.old }
        requires node { IsNode self.old.clauses (node_of node.now) }
        ensures joined { OnOk result (joined self.new ≡ bare (on_node self.old.clauses (joined self.old) (node_of node.now))) }
        ensures clauses { OnOk result (self.new.clauses ≡ self.old.clauses) }
        ensures standing { OnOk result (IsStanding self.new) }
    {
        match node {
            Node::Split(var) => self.place.enter(*var)?,
            Node::Leaf(row) => {
                let behind = self.next.saturating_add(row.len() as u64);
                self.next = climb(&mut self.place, behind)?;
            }
        }
        Ok(())
    }

    /// Makes the next pure literal's line, if there is one.
    fn next_unit(&mut self) -> Result<bool, AllocError>
        requires { IsJoining self.old }
        ensures made { IfOk result (λ more. Makes self.old self.new more) }
        ensures none { IfOk result (λ more. OnFalse more (into_iter_items self.new.units ≡ [])) }
    {
        let Some(literal) = self.units.next() else {
            return Ok(false);
        };
        self.line.unit(self.unit, literal)?;
        self.unit += 1;
        Ok(true)
    }

    /// Makes the deletion that is due, if there is one.
    fn next_deletion(&mut self) -> bool
        requires lawful { IsJoining self.old }
        requires units { into_iter_items self.old.units ≡ [] }
        requires stage { self.old.stage ≡ Stage.Within }
        ensures made { Makes self.old self.new result }
        ensures none { OnFalse result ((into_iter_items self.new.units ≡ []) × (self.new.stage ≡ Stage.Within) × (self.new.due.items ≡ [])) }
    {
        if self.due.is_empty() {
            return false;
        }
        self.line.delete(self.next - 1, &mut self.due);
        true
    }

    /// Whether there is a split above. Behind the root's last line nothing is deleted: that is the
    /// empty clause, with which a proof ends.
    fn is_half(&self) -> bool
        ensures { IsTrue result ↔ 0 < length self.now.place }
    {
        !self.place.splits().is_empty()
    }

    /// Makes the leaf's next line, if there is one: it is read into the proof's, by the numbers of
    /// its cube.
    fn next_learnt(&mut self) -> Result<bool, AllocError>
        requires lawful { IsJoining self.old }
        requires units { into_iter_items self.old.units ≡ [] }
        requires stage { self.old.stage ≡ Stage.Within }
        requires due { self.old.due.items ≡ [] }
        requires fits { self.old.next ≤ max_number }
        ensures made { IfOk result (λ more. Makes self.old self.new more) }
        ensures none { IfOk result (λ more. OnFalse more ((into_iter_items self.new.units ≡ []) × (self.new.stage ≡ Stage.Within) × (self.new.due.items ≡ []) × (self.new.leaf ≡ []) × (self.new.next ≤ max_number))) }
    {
        let line = &mut self.line;
        if !self
            .leaf
            .next(&mut line.clause, &mut line.numbers, &mut self.due)?
        {
            // All its lines are given: its memory is let go before the next leaf comes.
            let alloc = *self.line.clause.allocator();
            self.leaf = Reader::of(Row::new(alloc));
            self.due.clear();
            return Ok(false);
        }
        let id = self.next;
        self.line.learn(id, &self.place, self.clauses, self.first)?;
        renumber(&mut self.due, self.clauses, self.first);
        mark(&self.due, self.first, &mut self.deleted);
        if self.leaf.len() == 0 && self.is_half() {
            put_unmarked(self.first, id, &self.deleted, &mut self.due)?;
        }
        self.next += 1;
        Ok(true)
    }

    /// Behind the last line of a cube, makes that of the split above if its halves are both done;
    /// or else the next node is that of the half beside the cube.
    fn next_split(&mut self) -> Result<bool, AllocError>
        requires lawful { IsJoining self.old }
        requires units { into_iter_items self.old.units ≡ [] }
        requires stage { self.old.stage ≡ Stage.Within }
        requires due { self.old.due.items ≡ [] }
        requires leaf { self.old.leaf ≡ [] }
        requires fits { self.old.next ≤ max_number }
        ensures made { IfOk result (λ more. Makes self.old self.new more) }
        ensures none { IfOk result (λ more. OnFalse more ((into_iter_items self.new.units ≡ []) × (self.new.stage ≡ Stage.Between))) }
    {
        match self.place.leave(self.next - 1)? {
            Turn::Both { left, .. } => {
                self.line.split(self.next, left, &self.place)?;
                if self.is_half() {
                    self.due.push(left)?;
                    self.due.push(self.next - 1)?;
                }
                self.next += 1;
                Ok(true)
            }
            Turn::Right(_) => {
                self.stage = Stage::Between;
                Ok(false)
            }
            Turn::End(_) => {
                self.stage = Stage::Between;
                Ok(false)
            }
        }
    }

    /// Makes the next line that adds a clause of the tree, if there is one.
    fn next_addition(&mut self) -> Result<bool, AllocError>
        requires lawful { IsJoining self.old }
        requires units { into_iter_items self.old.units ≡ [] }
        requires stage { self.old.stage ≡ Stage.Within }
        requires due { self.old.due.items ≡ [] }
        ensures made { IfOk result (λ more. Makes self.old self.new more) }
        ensures none { IfOk result (λ more. OnFalse more ((into_iter_items self.new.units ≡ []) × (self.new.stage ≡ Stage.Between))) }
    {
        if self.next > MAX_NUMBER {
            return Err(AllocError);
        }
        if self.next_learnt()? {
            return Ok(true);
        }
        let more = self.next_split()?;
        Ok(more)
    }

    /// Makes the next line of the nodes that came, which `line` shows then; it answers whether there
    /// was one more. It fails only where a request for memory is refused, or where a number would be
    /// above its limit; then no line can be asked for any more.
    pub fn next_line(&mut self) -> Result<bool, AllocError>
        requires { IsJoining self.old }
        ensures next { IfOk result (λ more. IsNextLine (joined self.old) (joined self.new) (line_of self.new.line) more) }
        ensures within { IfOk result (λ more. OnMore (IsStep (line_of self.new.line)) more) }
        ensures clauses { OnOk result (self.new.clauses ≡ self.old.clauses) }
        ensures between { IfOk result (λ more. OnFalse more (self.new.stage ≡ Stage.Between)) }
        ensures lawful { OnOk result (IsJoining self.new) }
    {
        if self.next_unit()? {
            return Ok(true);
        }
        let Stage::Within = self.stage else {
            return Ok(false);
        };
        if self.next_deletion() {
            return Ok(true);
        }
        let more = self.next_addition()?;
        Ok(more)
    }
}
