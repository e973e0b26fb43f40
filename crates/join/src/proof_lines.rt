//! The lines of a refuted tree's proof, one after the other: those of the units that the search
//! begins with, and then, subtree by subtree, the left half's lines, the right half's, and that of
//! the split, with what each leaves to be deleted.
ghost use Rattle.std.specs.Prelude.{◌≡◌, ℕ, ◌-◌, ◌≤◌, [], ◌++◌, map, length, IfOk, OnOk};
ghost use Rattle.std.specs.Bool.{OnFalse};
ghost use Rattle.std.specs.Vec.{vec_capacity};
ghost use Rattle.cdcl.specs.Plans.{beginning_of};
ghost use Rattle.theory.specs.ProofReading.{IsStep};
ghost use Rattle.cubes.specs.Result.{node_of};
ghost use Rattle.join.specs.Joining.{bare, on_nodes};
ghost use Rattle.join.specs.Numbered.{AreChecked, AreNodes, AreNodesOf, AreUnitsOf, AreStepsOf, AreAccepted, AreWithin};
ghost use Rattle.join.specs.Rooms.{HasRoom, longest_text};
ghost use Rattle.join.specs.Walking.{joined, line_of, lines_left, HasNextLine, IsAtEnd, IsBetweenLines, IsBetweenNodes, IsStanding, OnMore};

use crate::joiner::Joiner;
use crate::line::ProofLine;
use crate::room::Need;
use cdcl::Search;
use cnf::{Formula, Lit};
use cubes::{Node, Tree, TreeSize};
use lines::Row;
use std::alloc::{AllocError, Global};
use std::collections::VecDeque;
use std::mem;

/// The lines of a tree's proof that are still to come. Each is made from the tree as it is asked
/// for, in the memory of the one before; the tree is let go on the way.
#[derive(Drop)]
pub struct Lines {
    /// The lines of the nodes so far.
    joiner: Joiner,

    /// The nodes behind them.
    nodes: VecDeque<Node<Row>>,

    /// What the joiner has room for.
    need: Need,
}

/// About so many bytes a node takes beside the lines that were learnt in it.
const NODE: usize = 64;

/// About so many bytes a node takes.
fn size_of(node: &Node<Row>) -> usize {
    match node {
        Node::Split(_) => NODE,
        Node::Leaf(row) => row.size().saturating_add(NODE),
    }
}

/// The literals whose unit clauses a result's proof begins with, where it is the result of this
/// search; that of a model has none.
fn units_of(
    alloc: Global,
    formula: &Formula,
    search: Search,
    tree: &Tree<Row>,
) -> Result<Vec<Lit>, AllocError>
    ensures { IfOk result (λ units. AreUnitsOf formula.now search tree.now units.items) }
{
    match tree {
        Tree::Model(_) => Ok(Vec::new(alloc)),
        Tree::Refuted(_) => {
            let units = search.units(alloc, formula)?;
            Ok(units)
        }
    }
}

/// The nodes of a result; a model has none.
fn nodes_of(alloc: Global, tree: Tree<Row>) -> Vec<Node<Row>>
    ensures { AreNodesOf tree result.items }
{
    match tree {
        Tree::Model(_) => Vec::new(alloc),
        Tree::Refuted(nodes) => nodes,
    }
}

impl Lines {
    /// The lines for a formula's result by this search, which may be one that nobody vouches for and
    /// that was checked: those of the units that the search begins with and of its tree, and none
    /// for a model. All memory that they need is asked for here; it fails only where that is
    /// refused.
    pub fn of(
        alloc: Global,
        formula: &Formula,
        search: Search,
        tree: Tree<Row>,
    ) -> Result<Lines, AllocError>
        requires { AreChecked formula.now search tree }
        ensures steps { IfOk result (λ l. AreStepsOf formula.now (beginning_of search) tree (lines_left l)) }
        ensures within { IfOk result (λ l. AreWithin (lines_left l)) }
        ensures accepted { IfOk result (λ l. AreAccepted formula.now tree (lines_left l)) }
        ensures lawful { IfOk result IsBetweenNodes }
        ensures room { IfOk result (λ l. HasRoom tree formula.now.vars l.joiner) }
    {
        let _vars = formula.vars(); // it ensures what the proof needs of the formula
        let clauses = formula.clause_count() as u64;
        let units = units_of(alloc, formula, search, &tree)?;
        let need = match TreeSize::of(&tree) {
            Some(size) => Need::of(size, formula.vars() as usize),
            None => Need::none(),
        };
        let joiner = Joiner::with_room(alloc, clauses, units, need)?;
        Ok(Lines {
            joiner,
            nodes: VecDeque::from(nodes_of(alloc, tree)),
            need,
        })
    }

    /// None, with as much room for lines as these have, and with room for what `hand_over` gives of
    /// so many bytes. It fails only where a request for memory is refused.
    pub fn none_beside(&self, alloc: Global, enough: usize) -> Result<Lines, AllocError>
        ensures end { IfOk result IsAtEnd }
        ensures literals { IfOk result (λ l. vec_capacity l.joiner.line.clause ≡ self.now.need.literals) }
        ensures numbers { IfOk result (λ l. (vec_capacity l.joiner.line.numbers ≡ self.now.need.numbers) × (vec_capacity l.joiner.due ≡ self.now.need.numbers)) }
        ensures marks { IfOk result (λ l. vec_capacity l.joiner.deleted ≡ self.now.need.lines) }
    {
        Ok(Lines {
            joiner: Joiner::with_room(alloc, 0, Vec::new(alloc), self.need)?,
            nodes: VecDeque::with_capacity(alloc, enough / NODE + 1)?,
            need: self.need,
        })
    }

    /// How many nodes there are whose lines are all still to come.
    pub fn nodes_left(&self) -> usize
        ensures { result ≡ length self.now.nodes.items }
    {
        self.nodes.len()
    }

    /// About so many bytes these nodes take, with their lines in rows.
    pub fn size(&self) -> usize {
        let mut bytes: usize = 0;
        for node in &self.nodes {
            bytes = bytes.saturating_add(size_of(node));
        }
        bytes
    }

    /// Goes past the next nodes, which come to `passed`: up to one with which they have so many
    /// bytes, and past one at least, where there is one.
    fn pass_nodes(
        &mut self,
        passed: &mut VecDeque<Node<Row>>,
        enough: usize,
    ) -> Result<(), AllocError>
        requires standing { IsStanding self.old.joiner }
        requires nodes { AreNodes self.old.joiner.clauses (map node_of self.old.nodes.items) }
        requires none { passed.old.items ≡ [] }
        ensures passed { OnOk result (self.old.nodes.items ≡ passed.new.items ++ self.new.nodes.items) }
        ensures joined { OnOk result (joined self.new.joiner ≡ bare (on_nodes self.old.joiner.clauses (joined self.old.joiner) (map node_of passed.new.items))) }
        ensures clauses { OnOk result (self.new.joiner.clauses ≡ self.old.joiner.clauses) }
        ensures standing { OnOk result (IsStanding self.new.joiner) }
        ensures fewer { OnOk result (length self.new.nodes.items ≤ length self.old.nodes.items - 1) }
    {
        let mut bytes: usize = 0;
        'nodes: loop {
            let Some(node) = self.nodes.pop_front() else {
                return Ok(());
            };
            bytes = bytes.saturating_add(size_of(&node));
            self.joiner.pass(&node)?;
            passed.push_back(node)?;
            if bytes >= enough {
                return Ok(());
            }
        }
    }

    /// Hands the next lines over to `part`, of which all are given: those of the next nodes, up to
    /// one with which these have about so many bytes, and of one node at least, where there is one.
    /// It takes no memory where `part` is a `none_beside` of these lines and as many bytes. It fails
    /// only as `next_line` does; then no line can be asked for any more.
    pub fn hand_over(&mut self, part: &mut Lines, enough: usize) -> Result<(), AllocError>
        requires lines { IsBetweenNodes self.old }
        requires part { part.old.nodes.items ≡ [] }
        ensures left { OnOk result (lines_left self.old ≡ lines_left part.new ++ lines_left self.new) }
        ensures lines { OnOk result (IsBetweenNodes self.new) }
        ensures part { OnOk result (IsBetweenNodes part.new) }
        ensures fewer { OnOk result (length self.new.nodes.items ≤ length self.old.nodes.items - 1) }
    {
        // what is left goes on with the part's joiner, from where the part will end
        mem::swap(&mut self.joiner, &mut part.joiner);
        self.joiner.stand_at(&part.joiner)?;
        self.pass_nodes(&mut part.nodes, enough)?;
        Ok(())
    }

    /// The line that was given last.
    pub fn line(&self) -> &ProofLine
        ensures { result.now ≡ self.now.joiner.line }
    {
        self.joiner.line()
    }

    /// The most bytes that a line's text has: 12 a literal, 21 a hint or a number to be deleted, 25
    /// for the line's own number and the marks. A size stops at the greatest one.
    pub fn line_size(&self) -> usize
        ensures { result ≡ longest_text self.now.joiner.line }
    {
        self.joiner.line_size()
    }

    /// Makes the next line, which `line` shows then; it answers whether there was one more. It
    /// fails only where a request for memory is refused, or where a number would be above its
    /// limit; then no line can be asked for any more.
    pub fn next_line(&mut self) -> Result<bool, AllocError>
        requires { IsBetweenLines self.old }
        ensures rest { IfOk result (λ more. HasNextLine (lines_left self.old) (lines_left self.new) (line_of self.new.joiner.line) more) }
        ensures within { IfOk result (λ more. OnMore (IsStep (line_of self.new.joiner.line)) more) }
        ensures lawful { OnOk result (IsBetweenLines self.new) }
        ensures end { IfOk result (λ more. OnFalse more (IsAtEnd self.new)) }
    {
        'nodes: loop {
            if self.joiner.next_line()? {
                return Ok(true);
            }
            let Some(node) = self.nodes.pop_front() else {
                return Ok(false);
            };
            self.joiner.take(node)?;
        }
    }
}
