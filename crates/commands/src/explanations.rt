//! What each number that the program prints means, and what to change, in plain sentences.

/// What a refusal of a formula means.
fn of_formula(number: u32) -> Option<&'static str> {
    match number {
        1 => Some(
            "No header: the first word outside comment lines isn't `p`, or the file holds no word at all. A DIMACS CNF file begins with a line `p cnf VARIABLES CLAUSES`; comment lines begin with `c` in their first column.",
        ),
        2 => Some(
            "Bad header: a word of the line `p cnf VARIABLES CLAUSES` is wrong, missing, or one too many. Both numbers are written in digits, without sign or leading zero.",
        ),
        3 => Some(
            "Second header: the word `p` stands behind the header line. Perhaps two formulas were written into one file.",
        ),
        4 => Some(
            "Bad number: a word of a clause isn't a whole number in plain digits, with at most a `-` in front. Leading zeros, `+`, `-0` and words such as `%` are refused; some old benchmark files end in a `%` line. --lenient passes over these, but for other words.",
        ),
        5 => Some(
            "Variable out of range: a literal's variable is greater than the number of variables in the header. Correct the header or the literal; --lenient corrects the header.",
        ),
        6 => Some(
            "Too many clauses: a number stands behind the last of the clauses that the header counts. Correct the count in the header, as --lenient does.",
        ),
        7 => Some(
            "Too few clauses: the file ends before as many clauses as the header counts. Correct the count in the header, as --lenient does, or find what cut the file short.",
        ),
        8 => Some(
            "Clause not ended: the file ends inside a clause. Each clause, also the last one, ends with the word `0`.",
        ),
        9 => Some(
            "Over a limit: the header counts more variables or clauses than can be read, or there are more literals or bytes than that. The limits are 262,143 variables, 1,000,000 clauses, 8,000,000 literals and 67,108,864 bytes; with --large 100,000,000 variables, 1,000,000,000 clauses, 8,000,000,000 literals and 1,099,511,627,776 bytes.",
        ),
        10 => Some(
            "Read failed: the system answered an error while the formula was read. A folder in place of a file does that too.",
        ),
        11 => Some("Out of memory while the formula was read."),
        _ => None,
    }
}

/// What a fault of a proof's steps means.
fn of_steps(number: u32) -> Option<&'static str> {
    match number {
        21 => Some(
            "Number not rising: the number of an added clause is at most that of a clause of the formula or of an earlier addition. Each addition needs a greater number than all before it.",
        ),
        22 => Some(
            "Both signs: an added clause holds a variable in both signs. Such a clause is always true, and no proof needs it.",
        ),
        23 => Some(
            "No such clause: a hint, or the candidate of a group, names a clause that was never there, or was deleted before.",
        ),
        24 => Some(
            "Hint not unit: while the hints are gone through, a hinted clause is neither false nor unit: it is satisfied, or two or more of its literals are open. Hints stand in the order in which the clauses become unit.",
        ),
        25 => Some(
            "Hint after the conflict: a hint, or a group, stands behind the hint whose clause is false. Leave out what comes after it.",
        ),
        26 => Some(
            "No conflict: the hints of the empty clause, or of a group, end before a clause is false. A hint is missing.",
        ),
        27 => Some(
            "Missing candidate: the hints of an added clause end without a conflict, and some clause with the negation of its first literal is named by no group. Either a hint is missing, or that candidate needs a group of its own.",
        ),
        28 => Some(
            "Bad candidate: a group names a clause without the negation of the added clause's first literal, or one that an earlier group named, or it gives hints for a candidate that needs none.",
        ),
        29 => Some("No such deletion: a deletion names a clause that isn't there."),
        30 => Some(
            "No empty clause: each step is right, but none adds the empty clause, so nothing was refuted. The proof may have been cut off.",
        ),
        31 => Some(
            "Literal out of range: an added clause has a variable that is greater than the formula's number of variables. Proofs with extended resolution have such variables; with --extended they may go up to 262,143, and with --large too up to 100,000,000. Any other such proof is most likely that of another formula.",
        ),
        33 => Some(
            "Not implied: an added clause of a proof in DRAT follows neither by propagation from the clauses that are there, nor, for each clause with the negation of its first literal, by propagation from what the two resolve to. The step begins at the line, or in binary at the byte, that is told.",
        ),
        32 => Some(
            "Out of memory while the proof was checked. The program says fault 52 of it; free some memory and check again.",
        ),
        _ => None,
    }
}

/// What a fault of a proof's text means.
fn of_text(number: u32) -> Option<&'static str> {
    match number {
        41 => Some(
            "Bad number: a word of the proof isn't a whole number in plain digits, or is greater than its part of the line allows: 2,147,483,647 for a literal, 9,223,372,036,854,775,807 for all else. Or a step in binary begins with another byte than `a` or `d`.",
        ),
        42 => Some(
            "Line not ended: the proof's last line has no line feed at its end, or its last step in binary isn't whole. It was most likely cut off.",
        ),
        43 => Some(
            "Bad shape: a line is no addition `NUMBER LITERALS 0 HINTS 0` and no deletion `NUMBER d NUMBERS 0`: a number has the wrong sign, a `0` is missing or stands where none may, or something follows the last `0`.",
        ),
        44 => Some(
            "Out of memory while the proof was read. The program says fault 52 of it; free some memory and check again.",
        ),
        45 => Some(
            "Too long: the proof has more than 4,294,967,296 bytes, or with --large more than 4,611,686,018,427,387,904.",
        ),
        _ => None,
    }
}

/// What a fault of a run means.
fn of_run(number: u32) -> Option<&'static str> {
    match number {
        51 => Some(
            "The formula wasn't read; the refusal after it says why, with line and column, both counted from 1. Nothing was written: the proof's file is as it was. `cubesat explain 51 NUMBER` explains the refusal.",
        ),
        52 => Some(
            "Out of memory. Nothing was written: the proof's file is as it was. Free some memory, or use fewer hands: each has its own copy of the clauses.",
        ),
        53 => Some(
            "The proof couldn't be written, most likely because the disk is full. Its file is as it was before the run, and no answer was printed; `solve` has it in a line `c s ..` on standard error. A pipe or a device may have got a beginning of the proof, which proves nothing.",
        ),
        54 => Some(
            "The answer couldn't be written, though the proof was, if there was to be one: the program that reads it has ended, or the disk is full. What was printed is a beginning of the answer.",
        ),
        55 => Some(
            "The proof that is to be checked couldn't be read: the system answered an error. Nothing was printed of it.",
        ),
        56 => Some(
            "A file can't be opened or created, or another run is writing the proof. Check the names, and whether you may read the one and write the other. A proof is written beside its file first, in one with `.part` behind its name, so the folder has to be writable too.",
        ),
        57 => Some(
            "The proof would be written over the formula: its name, or this name with `.part` behind it, leads to the formula's file. Nothing was touched; give the proof another name.",
        ),
        _ => None,
    }
}

/// The explanation of a number, where there is one.
pub fn explanation(number: u32) -> Option<&'static str> {
    match number {
        0..=20 => of_formula(number),
        21..=40 => of_steps(number),
        41..=50 => of_text(number),
        _ => of_run(number),
    }
}
