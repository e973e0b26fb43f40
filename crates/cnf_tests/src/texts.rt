//! Texts, the formulas that they are read as, and their refusals.
use cnf::{Formula, Limits, Lit, Place, ReadFault, read_formula, read_formula_within};
use std::alloc::{AllocError, Global};
use std::process::Abort;
use std::test::Fail;

/// The clauses, written one after the other with a 0 behind each.
fn numbers_of(alloc: Global, formula: &Formula) -> Result<Vec<i32>, AllocError> {
    let mut numbers = Vec::new(alloc);
    for clause in formula.clauses() {
        for lit in clause {
            numbers.push(lit.number())?;
        }
        numbers.push(0)?;
    }
    Ok(numbers)
}

/// The number and the place of the refusal of a text.
fn refusal(alloc: Global, text: &[u8]) -> Option<(u32, Option<Place>)> {
    let fault = read_formula(alloc, text).err()?;
    Some((fault.number(), fault.place()))
}

/// The text is refused with this number and place.
fn expect_refusal(
    rt: &impl Abort,
    alloc: Global,
    text: &[u8],
    number: u32,
    line: u64,
    column: u64,
) {
    let wanted = Some((number, Some(Place { line, column })));
    assert_eq!(rt; (text, refusal(alloc, text)), (text, wanted));
}

/// Texts, the numbers of variables, and the clauses, with a 0 behind each.
static FORMULAS: [(&[u8], u32, &[i32]); 12] = [
    (b"p cnf 0 0\n", 0, &[]),
    (b"p cnf 0 1\n0\n", 0, &[0]),
    (b"p cnf 21 0\n", 21, &[]),
    (b"p cnf 65536 0\n", 65536, &[]),
    (b"p cnf 2 1\n1 2 0\n", 2, &[1, 2, 0]),
    (b"p cnf 2 1\r\n1 2 0\r\n", 2, &[1, 2, 0]),
    (b"c x\np cnf 2 1\n1\nc mid\n2 0\n", 2, &[1, 2, 0]),
    (b"\n \t\n\tp cnf\t2  1 \n  1\t2\n\n0", 2, &[1, 2, 0]),
    (b"p cnf 1 1\n1 0\nc", 1, &[1, 0]),
    (b"p cnf 2 2\n1 -1 0\n2 2 0\n", 2, &[1, -1, 0, 2, 2, 0]),
    (
        b"p cnf 2 4\n1 2 0\n1 -2 0\n-1 2 0\n-1 -2 0",
        2,
        &[1, 2, 0, 1, -2, 0, -1, 2, 0, -1, -2, 0],
    ),
    (
        b"p cnf 262143 1\n-262143 262143 0\n",
        262143,
        &[-262143, 262143, 0],
    ),
];

/// The number of variables, and the clauses, one after the other.
fn vars_and_numbers(alloc: Global, text: &[u8]) -> Result<(u32, Vec<i32>), Fail> {
    let formula = read_formula(alloc, text)?;
    Ok((formula.vars(), numbers_of(alloc, &formula)?))
}

#[test]
fn reads_formulas(rt: HostRuntime) -> Result<(), Fail> {
    for (text, vars, wanted) in &FORMULAS {
        let (found, numbers) = vars_and_numbers(rt.alloc(), text)?;
        assert_eq!(rt; (*text, found, numbers.as_slice()), (*text, *vars, *wanted));
    }
    Ok(())
}

/// Texts, and the number, the line and the column of the refusal.
static REFUSALS: [(&[u8], u32, u64, u64); 36] = [
    (b"", 1, 1, 1),
    (b"1 0\n", 1, 1, 1),
    (b" c a\n", 1, 1, 2),
    (b"pcnf 1 1\n", 1, 1, 1),
    (b"c a\n\nc b\n", 1, 4, 1),
    (b"c a\n c", 1, 2, 2),
    (b"p cnf 2\n", 2, 1, 8),
    (b"p cnf 2 1 x\n", 2, 1, 11),
    (b"p dnf 2 1\n", 2, 1, 3),
    (b"p cnf -1 1\n", 2, 1, 7),
    (b"p cnf 1 01\n", 2, 1, 9),
    (b"c a\np\ncnf 1 1\n", 2, 2, 2),
    (b"p cnf 1 1\np cnf 1 1\n", 3, 2, 1),
    (b"p cnf 1 0\n\n p", 3, 3, 2),
    (b"p cnf 1 1\n01 0\n", 4, 2, 1),
    (b"p cnf 1 1\n-0 0\n", 4, 2, 1),
    (b"p cnf 1 1\n1 +1 0\n", 4, 2, 3),
    (b"p cnf 1 1\n1 c 0\n", 4, 2, 3),
    (b"p cnf 1 0\nx\n", 4, 2, 1),
    (b"p cnf 1 1\n1 0\n%\n0\n", 4, 3, 1),
    (b"p cnf 2 1\n1 3 0\n", 5, 2, 3),
    (b"p cnf 0 1\n\n-1 0\n", 5, 3, 1),
    (b"p cnf 1 1\n1 0 1 0\n", 6, 2, 5),
    (b"p cnf 1 0\n1 0\n", 6, 2, 1),
    (b"p cnf 1 1\n0\n0\n", 6, 3, 1),
    (b"p cnf 1 2\n1 0\n", 7, 3, 1),
    (b"p cnf 65535 1000000\n", 7, 2, 1),
    (b"p cnf 262143 1000000\n", 7, 2, 1),
    (b"p cnf 1 1\nc 1 0", 7, 2, 6),
    (b"p cnf 1 1\n1", 8, 2, 2),
    (b"p cnf 1 2\n1 0 1\n\n", 8, 4, 1),
    (b"p cnf 262144 0\n", 9, 1, 7),
    (b"p cnf 262144", 9, 1, 7),
    (b"p cnf 1 1000001\n", 9, 1, 9),
    (b"p cnf 4294967297 1\n", 9, 1, 7),
    (b"p cnf 1 18446744073709551617 1\n", 9, 1, 9),
];

#[test]
fn refuses(rt: HostRuntime) {
    for (text, number, line, column) in &REFUSALS {
        expect_refusal(&rt, rt.alloc(), text, *number, *line, *column);
    }
}

/// The refusals of the beginnings of a text, from the empty one on.
static FRONTS: [(u32, u64, u64); 37] = [
    (1, 1, 1),
    (2, 1, 2),
    (2, 1, 3),
    (2, 1, 3),
    (2, 1, 3),
    (2, 1, 6),
    (2, 1, 7),
    (2, 1, 8),
    (2, 1, 9),
    (7, 1, 10),
    (7, 2, 1),
    (8, 2, 2),
    (8, 2, 3),
    (8, 2, 4),
    (8, 2, 5),
    (7, 2, 6),
    (7, 3, 1),
    (8, 3, 2),
    (8, 3, 3),
    (4, 3, 3),
    (8, 3, 5),
    (8, 3, 6),
    (7, 3, 7),
    (7, 4, 1),
    (4, 4, 1),
    (8, 4, 3),
    (8, 4, 4),
    (8, 4, 5),
    (8, 4, 6),
    (7, 4, 7),
    (7, 5, 1),
    (4, 5, 1),
    (8, 5, 3),
    (8, 5, 4),
    (4, 5, 4),
    (8, 5, 6),
    (8, 5, 7),
];

#[test]
fn fronts(rt: HostRuntime) -> Result<(), Fail> {
    let text = b"p cnf 2 4\n1 2 0\n1 -2 0\n-1 2 0\n-1 -2 0\n";
    let mut length = 0;
    for (number, line, column) in &FRONTS {
        assert!(rt; length < text.len());
        expect_refusal(&rt, rt.alloc(), &text[..length], *number, *line, *column);
        length += 1;
    }
    for end in [37, 38] {
        let formula = read_formula(rt.alloc(), &text[..end])?;
        assert!(rt; formula.clause_count() == 4);
    }
    Ok(())
}

/// A text with so many of these behind it.
fn with_many(
    alloc: Global,
    text: &[u8],
    count: u32,
    repeated: &[u8],
) -> Result<Vec<u8>, AllocError> {
    let mut text = text.to_vec(alloc)?;
    for _ in 0..count {
        text.extend_from_slice(repeated)?;
    }
    Ok(text)
}

#[test]
fn long_numbers(rt: HostRuntime) -> Result<(), Fail> {
    let literal = with_many(rt.alloc(), b"p cnf 1 1\n1 ", 1000, b"9")?;
    expect_refusal(&rt, rt.alloc(), &literal, 5, 2, 3);
    let vars = with_many(rt.alloc(), b"p cnf ", 1000, b"9")?;
    expect_refusal(&rt, rt.alloc(), &vars, 9, 1, 7);
    Ok(())
}

/// How many literals the first clause has.
fn first_length(alloc: Global, text: &[u8]) -> Result<Option<usize>, ReadFault> {
    let formula = read_formula(alloc, text)?;
    Ok(formula.clauses().next().map(|clause| clause.len()))
}

#[test]
fn limits(rt: HostRuntime) -> Result<(), Fail> {
    let mut text = with_many(rt.alloc(), b"p cnf 1 1\n", 8_000_000, b"1 ")?;
    text.push(b'0')?;
    assert!(rt; first_length(rt.alloc(), &text)? == Some(8_000_000));
    let _ = text.pop();
    text.extend_from_slice(b"1 0")?;
    let place = Place {
        line: 2,
        column: 16_000_001,
    };
    assert_eq!(rt; refusal(rt.alloc(), &text), Some((9, Some(place))));
    Ok(())
}

#[test]
fn messages(rt: HostRuntime) -> Result<(), Fail> {
    assert!(rt; ReadFault::ReadFailed.number() == 10);
    assert!(rt; ReadFault::NoMemory.number() == 11 && ReadFault::NoMemory.place().is_none());
    let place = Place { line: 2, column: 3 };
    let text = format!(in rt.alloc();
        "{}; {}",
        ReadFault::BadNumber(place),
        ReadFault::ReadFailed
    )?;
    assert_eq!(rt;
        text.as_str(),
        "no number at line 2, column 3; the text could not be read"
    );
    Ok(())
}

/// Texts that the large limits let through, with the variables, clauses and literals that are read.
static LARGE: [(&[u8], u32, usize, usize); 3] = [
    (b"p cnf 262144 0\n", 262_144, 0, 0),
    (b"p cnf 100000000 2\n1 -100000000 0\n0\n", 100_000_000, 2, 2),
    (b"p cnf 2 1\n1 2 0\n", 2, 1, 2),
];

/// Texts that they refuse, with the refusal and its place.
static ABOVE_LARGE: [(&[u8], u32, u64, u64); 4] = [
    (b"p cnf 100000001 0\n", 9, 1, 7),
    (b"p cnf 0 1000000001\n", 9, 1, 9),
    (b"p cnf 100000000 1000000000\n", 7, 2, 1),
    (b"p cnf 1 1\n100000001 0\n", 5, 2, 1),
];

/// How many variables, clauses and literals are read within the large limits.
fn large_shape(alloc: Global, text: &[u8]) -> Result<(u32, usize, usize), ReadFault> {
    let formula = read_formula_within(alloc, text, Limits::Large)?;
    Ok((
        formula.vars(),
        formula.clause_count(),
        formula.literal_count(),
    ))
}

#[test]
fn large_limits(rt: HostRuntime) -> Result<(), Fail> {
    for (text, vars, clauses, literals) in &LARGE {
        let shape = large_shape(rt.alloc(), text)?;
        assert!(rt; shape == (*vars, *clauses, *literals));
    }
    for (text, number, line, column) in &ABOVE_LARGE {
        let place = Place {
            line: *line,
            column: *column,
        };
        let fault = large_shape(rt.alloc(), text).err();
        assert!(rt;
            fault.map(|fault| (fault.number(), fault.place())) == Some((*number, Some(place)))
        );
    }
    Ok(())
}

#[test]
fn a_clause_by_its_place(rt: HostRuntime) -> Result<(), Fail> {
    let formula = read_formula(rt.alloc(), b"p cnf 3 3\n1 0 0 -2 3\n0\n")?;
    assert!(rt; formula.clause_count() == 3 && formula.literal_count() == 3);
    let second = [Lit::of(2, false), Lit::of(3, true)];
    assert!(rt; formula.clause(0).len() == 1 && formula.clause(1).is_empty());
    assert!(rt; formula.clause(2) == second.as_slice());
    Ok(())
}
