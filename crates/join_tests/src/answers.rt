//! Worked rows: the bytes of answers.
use cnf::read_formula;
use join::answer_bytes;
use std::alloc::Global;
use std::test::Fail;

/// The text of the answer, where each variable has a value.
fn answer_of(alloc: Global, text: &[u8], values: Option<&[bool]>) -> Result<Vec<u8>, Fail> {
    let formula = read_formula(alloc, text)?;
    if let Some(values) = values {
        if values.len() != formula.vars() as usize {
            return Err("values".into());
        }
    }
    Ok(answer_bytes(alloc, &formula, values)?)
}

#[test]
fn short_answers(rt: HostRuntime) -> Result<(), Fail> {
    let rows: [(&[u8], Option<&[bool]>, &[u8]); 6] = [
        (b"p cnf 0 1\n0\n", None, b"s UNSATISFIABLE\n"),
        (b"p cnf 0 0\n", Some(&[]), b"s SATISFIABLE\nv 0\n"),
        (b"p cnf 1 0\n", Some(&[false]), b"s SATISFIABLE\nv -1 0\n"),
        (
            b"p cnf 1 1\n1 0\n",
            Some(&[true]),
            b"s SATISFIABLE\nv 1 0\n",
        ),
        (
            b"p cnf 2 1\n1 2 0\n",
            Some(&[false, true]),
            b"s SATISFIABLE\nv -1 2 0\n",
        ),
        (
            b"p cnf 2 1\n1 -2 0\n",
            Some(&[false, false]),
            b"s SATISFIABLE\nv -1 -2 0\n",
        ),
    ];
    for (text, values, wanted) in rows {
        let answer = answer_of(rt.alloc(), text, values)?;
        assert_eq!(rt; answer.as_slice(), wanted);
    }
    Ok(())
}

#[test]
fn answers_of_more_lines(rt: HostRuntime) -> Result<(), Fail> {
    let mut values = [false; 40];
    values[38] = true;
    let rows: [(&[u8], usize, &[u8]); 3] = [
        (
            b"p cnf 21 0\n",
            21,
            b"s SATISFIABLE\nv -1 -2 -3 -4 -5 -6 -7 -8 -9 -10 -11 -12 -13 -14 -15 -16 -17 -18 -19 -20 -21 0\n",
        ),
        (
            b"p cnf 22 0\n",
            22,
            b"s SATISFIABLE\nv -1 -2 -3 -4 -5 -6 -7 -8 -9 -10 -11 -12 -13 -14 -15 -16 -17 -18 -19 -20 -21\nv -22 0\n",
        ),
        (
            b"p cnf 40 0\n",
            40,
            b"s SATISFIABLE\nv -1 -2 -3 -4 -5 -6 -7 -8 -9 -10 -11 -12 -13 -14 -15 -16 -17 -18 -19 -20 -21\nv -22 -23 -24 -25 -26 -27 -28 -29 -30 -31 -32 -33 -34 -35 -36 -37 -38 39 -40 0\n",
        ),
    ];
    for (text, count, wanted) in rows {
        let answer = answer_of(rt.alloc(), text, Some(&values[..count]))?;
        assert_eq!(rt; answer.as_slice(), wanted);
    }
    Ok(())
}
