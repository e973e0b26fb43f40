//! Numbers, clauses and formulas that look random, and are the same in each run.
ghost use Rattle.std.specs.Prelude.{◌≤◌, ◌<◌};

use std::alloc::{AllocError, Global};

/// A linear-congruential generator, with the constants of Knuth's MMIX.
#[derive(Drop)]
pub struct Dice {
    pub state: u64,
}

impl Dice {
    /// A number below the bound.
    pub fn below(&mut self, bound: u64) -> u64
        requires { 1 ≤ bound }
    {
        self.state = self
            .state
            .wrapping_mul(6364136223846793005)
            .wrapping_add(1442695040888963407);
        (self.state >> 33) % bound
    }

    /// The number of a literal over the variables 1 to `vars`.
    pub fn number(&mut self, vars: u32) -> i32 {
        let var = self.below((vars as u64).max(1)).wrapping_add(1).min(99) as i32;
        if self.below(2) == 0 {
            var
        } else {
            var.wrapping_neg()
        }
    }

    /// The number of a literal, or 0, which is that of none.
    pub fn number_or_0(&mut self, vars: u32) -> i32 {
        if self.below(2) == 0 {
            0
        } else {
            self.number(vars)
        }
    }

    /// How many literals a clause gets: mostly two to four.
    fn length(&mut self) -> u64 {
        match self.below(40) {
            0 => 0,
            1 | 2 | 3 => 1,
            _ => self.below(3).wrapping_add(2),
        }
    }
}

/// Puts a number below 100.
fn put_number(text: &mut Vec<u8>, number: u64) -> Result<(), AllocError> {
    if number >= 10 {
        text.push(b'0'.wrapping_add((number / 10).min(9) as u8))?;
    }
    text.push(b'0'.wrapping_add((number % 10) as u8))?;
    Ok(())
}

fn put_clause(text: &mut Vec<u8>, dice: &mut Dice, vars: u32) -> Result<(), AllocError> {
    for _ in 0..dice.length() {
        let number = dice.number(vars);
        if number < 0 {
            text.push(b'-')?;
        }
        put_number(text, number.unsigned_abs() as u64)?;
        text.push(b' ')?;
    }
    text.extend_from_slice(b"0\n")
}

/// The DIMACS text of a formula over 3 to 7 variables.
pub fn formula_text(alloc: Global, dice: &mut Dice) -> Result<Vec<u8>, AllocError> {
    let vars = dice.below(5).wrapping_add(3);
    let clauses = dice.below(20).wrapping_add(2);
    let mut text = Vec::new(alloc);
    text.extend_from_slice(b"p cnf ")?;
    put_number(&mut text, vars)?;
    text.push(b' ')?;
    put_number(&mut text, clauses)?;
    text.push(b'\n')?;
    for _ in 0..clauses {
        put_clause(&mut text, dice, vars.min(9) as u32)?;
    }
    Ok(text)
}
