//! What is said of proofs that are refused.

use cnf::{Limits, Place};
use lrat_forms::{Broken, BrokenBy, Form};
use messages::{Excerpt, ProofSource, Refused, say_proof_refused};
use std::alloc::Global;

/// A proof with steps on three lines.
const PROOF: &[u8] = b"5 1 0 1 2 0\n5 d 1 2 0\n12 0 5 3 4 0\n";

/// A refusal's number, line and clause that is named wrongly, with what is said of that proof.
type Row = (u32, Option<u64>, Option<u64>, &'static str);

static REFUSED: [Row; 17] = [
    (
        21,
        Some(1),
        None,
        "c p.lrat: the number of clause 5 isn't above all numbers before it (line 1)\nc does the proof belong to this formula?\n",
    ),
    (
        22,
        Some(1),
        None,
        "c p.lrat: clause 5 has a variable in both signs (line 1)\n",
    ),
    (
        23,
        Some(3),
        None,
        "c p.lrat: clause 12 names a clause that isn't there (line 3)\n",
    ),
    (
        23,
        Some(3),
        Some(17),
        "c p.lrat: clause 12 names clause 17, which isn't there (line 3)\n",
    ),
    (
        24,
        Some(3),
        None,
        "c p.lrat: a hint of clause 12 is neither false nor unit (line 3)\n",
    ),
    (
        24,
        Some(3),
        Some(17),
        "c p.lrat: hint 17 of clause 12 is neither false nor unit (line 3)\n",
    ),
    (
        25,
        Some(3),
        None,
        "c p.lrat: a hint of clause 12 stands behind the conflict (line 3)\n",
    ),
    (
        26,
        Some(3),
        None,
        "c p.lrat: the hints of clause 12 end without a conflict (line 3)\n",
    ),
    (
        27,
        Some(1),
        None,
        "c p.lrat: clause 5 has no hints for one of its candidates (line 1)\nc does the proof belong to this formula?\n",
    ),
    (
        28,
        Some(1),
        None,
        "c p.lrat: a group of clause 5 is for no candidate that needs one (line 1)\n",
    ),
    (
        29,
        Some(2),
        None,
        "c p.lrat: a deletion names a clause that isn't there (line 2)\n",
    ),
    (
        30,
        None,
        None,
        "c p.lrat: no step adds the empty clause; the proof may have been cut off\n",
    ),
    (
        31,
        Some(1),
        None,
        "c p.lrat: clause 5 has a variable that the formula doesn't have (line 1)\nc does the proof belong to this formula?\n",
    ),
    (
        41,
        Some(2),
        None,
        "c p.lrat: a word is no number in plain digits, or above its limit (line 2)\n",
    ),
    (
        42,
        Some(3),
        None,
        "c p.lrat: the last line isn't ended; the proof may have been cut off (line 3)\n",
    ),
    (
        43,
        Some(1),
        None,
        "c p.lrat: neither an addition `NUMBER LITERALS 0 HINTS 0` nor a deletion `NUMBER d NUMBERS 0` (line 1)\n",
    ),
    (
        45,
        None,
        None,
        "c p.lrat: longer than the limit, 4,294,967,296 bytes; --large has a higher one\n",
    ),
];

/// A text with these first bytes.
fn text(beginning: &[u8]) -> ProofSource<'_> {
    ProofSource {
        beginning,
        form: Form::Text,
        broken: None,
        is_extended: false,
    }
}

/// What is said of a proof that is refused.
fn said(alloc: Global, refused: Refused, source: ProofSource, is_read_again: bool) -> Vec<u8> {
    let mut out = Vec::new(alloc);
    let mut excerpt = Excerpt::around(Place {
        line: refused.line.unwrap_or(1),
        column: 1,
    });
    excerpt.add(PROOF);
    let again = if is_read_again { Some(&excerpt) } else { None };
    say_proof_refused(&mut out, "p.lrat", refused, Limits::Standard, source, again);
    out
}

#[test]
fn refusals_are_said(rt: HostRuntime) {
    for row in &REFUSED {
        let (number, line, named, wanted) = *row;
        let refused = Refused {
            number,
            line,
            named,
        };
        let said = said(rt.alloc(), refused, text(PROOF), true);
        assert!(rt; said.as_slice() == wanted.as_bytes(), "{wanted}");
    }
}

#[test]
fn a_refusal_of_what_is_read_once(rt: HostRuntime) {
    let wanted =
        b"c p.lrat: a hint of the clause of step 18446744073709551615 is neither false nor unit (line 18446744073709551615)\n";
    let refused = Refused {
        number: 24,
        line: Some(u64::MAX),
        named: None,
    };
    let said = said(rt.alloc(), refused, text(PROOF), false);
    assert!(rt; said.as_slice() == wanted.as_slice());
}

/// What is said of a proof's first line, and where it looks like DRAT.
const BAD_WORD: &str =
    "c p.lrat: a word is no number in plain digits, or above its limit (line 1)\n";

const DRAT: &str = "c p.lrat: a word is no number in plain digits, or above its limit (line 1)
c it begins as DRAT does, which has no hints; check --drat finds them
";

/// The first bytes of files, with what is said of them.
static BEGINNINGS: [(&[u8], &str); 17] = [
    // in binary, an addition and a deletion of DRAT, in which 16 is a blank and 24 a digit, and
    // numbers of several bytes, whose last may be that of `a`
    (b"a\x20\x30\x00a\x0c\x00", DRAT),
    (b"a\x80a\x00d\x80\x80\x01\x00a", DRAT),
    (b"d\x20\x30\x00", DRAT),
    (b"a\x00", DRAT),
    // steps of DRAT, of which one ends just with the 64 bytes that are looked at
    (
        b"a\x20\x30\x00a\x20\x31\x00a\x20\x33\x00a\x20\x35\x00a\x20\x37\x00a\x20\x39\x00a\x20\x3b\x00a\x20\x3d\x00\
          a\x22\x30\x00a\x22\x31\x00a\x22\x33\x00a\x22\x35\x00a\x22\x37\x00a\x22\x39\x00a\x22\x3b\x00a\x22\x3d\x00",
        DRAT,
    ),
    // one step that ends there: what stands behind it may be hints
    (
        b"a\x02\x04\x06\x08\x0a\x0c\x0e\x10\x12\x14\x16\x18\x1a\x1c\x1e\x20\x22\x24\x26\x28\x2a\x2c\x2e\x30\x32\x34\
          \x36\x38\x3a\x3c\x3e\x40\x42\x44\x46\x48\x4a\x4c\x4e\x50\x52\x54\x56\x58\x5a\x5c\x5e\x60\x62\x64\x66\
          \x68\x6a\x6c\x6e\x70\x72\x74\x76\x78\x7a\x7c\x00",
        BAD_WORD,
    ),
    // steps of LRAT: their hints don't begin as a step does
    (b"a\x20\x30\x00\x0c\x00", BAD_WORD),
    (b"a\x20\x30\x00\x00", BAD_WORD),
    (b"a\x81\x01", BAD_WORD),
    // texts of DRAT, of which the second begins by the empty clause
    (b"d 1 2 0\r\n\t1 0\n", DRAT),
    (b"0\n", DRAT),
    (b"-12 3 0\n1 0\n", DRAT),
    (b"1 d 0\n", BAD_WORD),
    (b"x 1 0\n", BAD_WORD),
    (b"1 2 0", BAD_WORD),
    (
        b"\x1f\x8b\x08\x00",
        "c p.lrat: compressed by gzip; unpack it on the way: gzip -dc p.lrat | cubesat check FORMULA -\n",
    ),
    (b"", BAD_WORD),
];

#[test]
fn files_that_are_no_lrat(rt: HostRuntime) {
    for (beginning, wanted) in &BEGINNINGS {
        let refused = Refused {
            number: 41,
            line: Some(1),
            named: None,
        };
        let said = said(rt.alloc(), refused, text(beginning), true);
        assert!(rt; said.as_slice() == wanted.as_bytes(), "{beginning:?}");
    }
}

/// What is said of a proof in binary that is refused so, or is broken.
static BINARY: [(u32, Option<Broken>, &str); 6] = [
    (
        24,
        None,
        "c p.lrat: a hint of clause 12 is neither false nor unit (step 3)\n",
    ),
    (
        41,
        None,
        "c p.lrat: a number is -0, or above its limit (step 3)\n",
    ),
    // it is broken behind the step that is refused
    (
        41,
        Some(Broken {
            by: BrokenBy::End,
            byte: 30,
            step: 4,
        }),
        "c p.lrat: a number is -0, or above its limit (step 3)\n",
    ),
    (
        41,
        Some(Broken {
            by: BrokenBy::StepByte,
            byte: 20,
            step: 3,
        }),
        "c p.lrat: byte 20 is neither `a` nor `d`, with which a step in binary begins (step 3)\n",
    ),
    (
        41,
        Some(Broken {
            by: BrokenBy::Number,
            byte: 21,
            step: 3,
        }),
        "c p.lrat: a number in binary is above its limit at byte 21 (step 3)\n",
    ),
    (
        42,
        Some(Broken {
            by: BrokenBy::End,
            byte: 22,
            step: 3,
        }),
        "c p.lrat: it ends inside a step in binary, behind byte 22; the proof may have been cut off (step 3)\n",
    ),
];

#[test]
fn proofs_in_binary(rt: HostRuntime) {
    for (number, broken, wanted) in &BINARY {
        let source = ProofSource {
            beginning: b"a\x05\x02\x00\x02\x04\x00",
            form: Form::Binary,
            broken: *broken,
            is_extended: false,
        };
        let refused = Refused {
            number: *number,
            line: Some(3),
            named: None,
        };
        let said = said(rt.alloc(), refused, source, true);
        assert!(rt; said.as_slice() == wanted.as_bytes(), "{wanted}");
    }
}

#[test]
fn a_proof_above_the_large_limit(rt: HostRuntime) {
    let mut out = Vec::new(rt.alloc());
    let refused = Refused {
        number: 45,
        line: None,
        named: None,
    };
    say_proof_refused(
        &mut out,
        "p.lrat",
        refused,
        Limits::Large,
        text(PROOF),
        None,
    );
    let wanted = b"c p.lrat: longer than the limit, 4,611,686,018,427,387,904 bytes\n";
    assert!(rt; out.as_slice() == wanted.as_slice());
}

/// Where a proof's clauses may have variables above the formula's, a limit is left.
static EXTENDED: [(Limits, &str); 2] = [
    (
        Limits::Standard,
        "c p.lrat: clause 5 has a variable above the limit, 262,143; --large has a higher one (line 1)\n",
    ),
    (
        Limits::Large,
        "c p.lrat: clause 5 has a variable above the limit, 100,000,000 (line 1)\n",
    ),
];

#[test]
fn variables_above_the_limit(rt: HostRuntime) {
    for (limits, wanted) in &EXTENDED {
        let mut out = Vec::new(rt.alloc());
        let mut excerpt = Excerpt::around(Place { line: 1, column: 1 });
        excerpt.add(PROOF);
        let refused = Refused {
            number: 31,
            line: Some(1),
            named: None,
        };
        let source = ProofSource {
            is_extended: true,
            ..text(PROOF)
        };
        say_proof_refused(&mut out, "p.lrat", refused, *limits, source, Some(&excerpt));
        assert!(rt; out.as_slice() == wanted.as_bytes(), "{wanted}");
    }
}
