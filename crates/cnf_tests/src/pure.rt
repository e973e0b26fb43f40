//! The pure literals of formulas.
use cnf::{Lit, read_formula};
use std::alloc::Global;
use std::test::Fail;

/// Texts, and the numbers of the pure literals.
static ROWS: [(&[u8], &[i32]); 11] = [
    (b"p cnf 3 4\n1 2 0\n1 -2 0\n-1 2 0\n-1 -2 0\n", &[-3]),
    (
        b"p cnf 3 5\n1 -3 0\n1 2 0\n1 -2 0\n-1 2 0\n-1 -2 0\n",
        &[-3],
    ),
    (b"p cnf 2 1\n1 -2 0\n", &[-2]),
    (b"p cnf 2 4\n1 2 0\n1 -2 0\n-1 2 0\n-1 -2 0\n", &[]),
    (b"p cnf 4 2\n1 3 4 0\n1 3 -4 0\n", &[-2]),
    (b"p cnf 3 0\n", &[-1, -2, -3]),
    (b"p cnf 2 1\n1 -1 0\n", &[-2]),
    (b"p cnf 2 2\n-1 0\n-1 1 0\n", &[-2]),
    (b"p cnf 4 2\n-4 -2 -4 0\n1 0\n", &[-2, -3, -4]),
    (b"p cnf 0 0\n", &[]),
    (b"p cnf 0 1\n0\n", &[]),
];

fn pure_numbers(alloc: Global, text: &[u8]) -> Result<Vec<i32>, Fail> {
    let pure = read_formula(alloc, text)?.pure(alloc)?;
    let mut numbers = Vec::new(alloc);
    for lit in &pure {
        numbers.push(lit.number())?;
    }
    Ok(numbers)
}

#[test]
fn pure_literals(rt: HostRuntime) -> Result<(), Fail> {
    for (text, numbers) in &ROWS {
        let found = pure_numbers(rt.alloc(), text)?;
        assert_eq!(rt; (*text, found.as_slice()), (*text, *numbers));
    }
    Ok(())
}

#[test]
fn many_variables(rt: HostRuntime) -> Result<(), Fail> {
    let formula = read_formula(rt.alloc(), b"p cnf 262143 1\n262142 0\n")?;
    let pure = formula.pure(rt.alloc())?;
    assert!(rt; pure.len() == 262142);
    assert!(rt; pure.first().copied() == Some(Lit::of(1, false)));
    assert!(rt; pure.last().copied() == Some(Lit::of(262143, false)));
    Ok(())
}
