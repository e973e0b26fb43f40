//! Clauses and assumptions by all assignments of few variables.

/// Whether a number's literal is true, where bit v - 1 of the assignment is the value of variable v.
fn is_true(assignment: u32, number: i32) -> bool {
    let bit = number.unsigned_abs().wrapping_sub(1) % 32;
    (assignment >> bit) & 1 == u32::from(number > 0)
}

/// Whether one of the numbers' literals is true.
fn is_true_clause(assignment: u32, clause: &[i32]) -> bool {
    for number in clause {
        if is_true(assignment, *number) {
            return true;
        }
    }
    false
}

/// Whether all of the numbers' literals are.
pub fn are_true(assignment: u32, numbers: &[i32]) -> bool {
    for number in numbers {
        if !is_true(assignment, *number) {
            return false;
        }
    }
    true
}

/// Whether each clause is true.
pub fn satisfies(assignment: u32, clauses: &[Vec<i32>]) -> bool {
    for clause in clauses {
        if !is_true_clause(assignment, clause) {
            return false;
        }
    }
    true
}

/// Whether an assignment of the variables 1 to `vars`, at most 16, satisfies the clauses and makes
/// the numbers' literals true.
pub fn has_model(vars: u32, clauses: &[Vec<i32>], numbers: &[i32]) -> bool {
    let count = 1u32 << vars.min(16);
    for assignment in 0..count {
        if satisfies(assignment, clauses) && are_true(assignment, numbers) {
            return true;
        }
    }
    false
}

/// The assignment of these values.
pub fn assignment_of(values: &[bool]) -> u32 {
    let mut assignment = 0;
    for (at, value) in values.iter().enumerate() {
        if *value && at < 32 {
            assignment |= 1 << at;
        }
    }
    assignment
}
