//! Searches that begin with the values of a model.

use crate::asked::{add, ask};
use session::{Answer, Never, Session};
use std::alloc::{AllocError, Global};
use std::test::Fail;

/// The models of the clauses 3 1 and -2 -3.
static MODELS: [[bool; 3]; 4] = [
    [false, false, true],
    [true, false, false],
    [true, false, true],
    [true, true, false],
];

/// Whether these are the same values.
fn is_same(values: &[bool], model: &[bool]) -> bool {
    if values.len() != model.len() {
        return false;
    }
    for (value, wanted) in values.iter().zip(model.iter()) {
        if *value != *wanted {
            return false;
        }
    }
    true
}

/// Whether a search that begins with a model finds it, without a conflict.
fn stays_at(alloc: Global, model: &[bool]) -> Result<bool, AllocError> {
    let mut session = Session::open(alloc)?;
    add(alloc, &mut session, &[3, 1])?;
    add(alloc, &mut session, &[-2, -3])?;
    session.prefer(model)?;
    match ask(alloc, &mut session, &[], &Never)? {
        Answer::Model(values) => { Ok(is_same(&values, model) && session.counts().conflicts == 0) }
        _ => Ok(false),
    }
}

#[test]
fn preferred_models(rt: HostRuntime) -> Result<(), Fail> {
    for model in &MODELS {
        assert!(rt; stays_at(rt.alloc(), model)?);
    }
    Ok(())
}
