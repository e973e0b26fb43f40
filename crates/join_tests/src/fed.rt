//! Worked rows: the lines that come before a tree's first node, and behind each of its nodes.
ghost use Rattle.std.specs.Prelude.{◌≡◌, ◌≤◌, [], map, OnOk};
ghost use Rattle.cubes.specs.Result.{node_of};
ghost use Rattle.join.specs.Numbered.{AreNodes};
ghost use Rattle.join.specs.Walking.{joined, IsJoining};

use cdcl::Plan;
use cnf::{Formula, read_formula};
use cubes::{Node, Tree, solve_one_by_plan};
use join::{Joiner, Kind, ProofLine};
use lines::Row;
use lrat::{write_clause, write_deletion};
use std::alloc::{AllocError, Global};
use std::test::Fail;
use test_samples::{EIGHT, FOUR, FOUR_UNUSED, SIXTEEN};

/// A formula, a budget, and the lines; a line `node` stands where one is taken.
type Case = (&'static str, u32, &'static [u8]);

static CASES: [Case; 6] = [
    // the root alone, and before it the line of a pure literal
    (FOUR, 2, b"node\n5 1 0 1 2 0\n6 0 5 3 4 0\n"),
    (
        FOUR_UNUSED,
        2,
        b"5 -3 0 0\nnode\n6 1 0 1 2 0\n7 0 6 3 4 0\n",
    ),
    // a split gives no line before its halves are done
    (
        FOUR_UNUSED,
        1,
        b"5 -3 0 0\nnode\nnode\n6 1 0 1 2 0\nnode\n7 -1 0 3 4 0\n8 0 6 7 0\n",
    ),
    // what a half leaves is deleted before the next node
    (
        EIGHT,
        2,
        b"node\nnode\n9 2 1 0 1 2 0\n10 1 0 9 3 4 0\n10 d 9 0\nnode\n11 2 -1 0 5 6 0\n12 -1 0 11 7 8 0\n12 d 11 0\n13 0 10 12 0\n",
    ),
    // each half is split once more: behind the last leaf come the lines of two splits
    (
        SIXTEEN,
        1,
        b"node\nnode\nnode\n17 3 1 2 0 1 2 0\n18 1 2 0 17 3 4 0\n18 d 17 0\nnode\n19 3 1 -2 0 5 6 0\n20 1 -2 0 19 7 8 0\n20 d 19 0\n21 1 0 18 20 0\n21 d 18 20 0\nnode\nnode\n22 3 -1 2 0 9 10 0\n23 -1 2 0 22 11 12 0\n23 d 22 0\nnode\n24 3 -1 -2 0 13 14 0\n25 -1 -2 0 24 15 16 0\n25 d 24 0\n26 -1 0 23 25 0\n26 d 23 25 0\n27 0 21 26 0\n",
    ),
    // a model has no nodes
    ("p cnf 2 1\n1 -2 0\n", 1, b""),
];

/// Puts the text of a line.
pub fn put_line(line: &ProofLine, text: &mut Vec<u8>) -> Result<(), AllocError> {
    match line.kind {
        Kind::Addition => write_clause(line.id, &line.clause, &line.numbers, text)?,
        Kind::Deletion => write_deletion(line.id, &line.numbers, text)?,
    }
    Ok(())
}

/// Puts the text of the lines that the nodes so far give yet.
fn put_lines(joiner: &mut Joiner, text: &mut Vec<u8>) -> Result<(), AllocError>
    requires { IsJoining joiner.old }
    ensures given { OnOk result ((joined joiner.new).steps ≡ []) }
    ensures clauses { OnOk result (joiner.new.clauses ≡ joiner.old.clauses) }
    ensures lawful { OnOk result (IsJoining joiner.new) }
{
    'lines: while joiner.next_line()? {
        put_line(joiner.line(), text)?;
    }
    Ok(())
}

/// Puts the text of the lines before the first of these nodes, and behind each.
fn put_nodes(
    joiner: &mut Joiner,
    nodes: Vec<Node<Row>>,
    text: &mut Vec<u8>,
) -> Result<(), AllocError>
    requires lawful { IsJoining joiner.old }
    requires nodes { AreNodes joiner.old.clauses (map node_of nodes.items) }
{
    let mut nodes = nodes.into_iter();
    put_lines(joiner, text)?;
    'nodes: while let Some(node) = nodes.next() {
        text.extend_from_slice(b"node\n")?;
        joiner.take(node)?;
        put_lines(joiner, text)?;
    }
    Ok(())
}

/// The text of the lines of a formula's tree, node by node.
fn fed(alloc: Global, formula: &Formula, budget: u32) -> Result<Vec<u8>, AllocError>
    requires { (1 ≤ budget) × (budget ≤ 100000) }
{
    let _vars = formula.vars(); // it ensures what the proof needs of the formula
    let mut text = Vec::new(alloc);
    let Tree::Refuted(nodes) = solve_one_by_plan(alloc, formula, Plan::ordered(budget))? else {
        return Ok(text);
    };
    let units = formula.pure(alloc)?;
    let mut joiner = Joiner::start(alloc, formula.clause_count() as u64, units)?;
    put_nodes(&mut joiner, nodes, &mut text)?;
    Ok(text)
}

/// Whether the nodes give just these lines.
fn gives(alloc: Global, case: &Case) -> Result<bool, Fail> {
    let (text, budget, wanted) = *case;
    let formula = read_formula(alloc, text.as_bytes())?;
    if budget < 1 || budget > 100_000 {
        return Err("budget".into());
    }
    Ok(fed(alloc, &formula, budget)?.as_slice() == wanted)
}

#[test]
fn lines_node_by_node(rt: HostRuntime) -> Result<(), Fail> {
    for case in &CASES {
        assert!(rt; gives(rt.alloc(), case)?, "{}", case.0);
    }
    Ok(())
}
