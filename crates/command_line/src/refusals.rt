//! Command lines that are refused, though each of their words is right by itself.

use crate::effort::{Asked, Choice};
use crate::options::STANDARD_INPUT;
use crate::request::{DratFile, Request, Shown};
use crate::spread_arguments::Spread;

/// Why the proof in LRAT that is made of the one at `path` isn't kept at `kept`, if it isn't.
fn refusal_of_kept(path: &str, kept: &str) -> Option<&'static str> {
    if kept == STANDARD_INPUT {
        Some(
            "the proof in LRAT can't be written to standard output, where the answer goes; give --lrat a file",
        )
    } else if kept == path {
        Some("the proof in LRAT would replace the one in DRAT; give --lrat another file")
    } else {
        None
    }
}

/// Why a request is refused, if it is. `-` is the name of standard input, and of standard output.
pub(crate) fn refusal_of(request: &Request) -> Option<&'static str> {
    match request {
        Request::Solve {
            asked: Asked {
                choice: Choice::Ordered,
                divide: Some(_),
                ..
            },
            ..
        } => Some(
            "only the focused search divides formulas; give --search focused too, or leave --divide out",
        ),
        Request::Solve {
            asked: Asked {
                choice: Choice::Ordered,
                simplify: Some(_),
                ..
            },
            ..
        } => Some(
            "only the focused search simplifies formulas; give --search focused too, or leave --simplify out",
        ),
        Request::Spread(
            Spread::Begin {
                choice: Choice::Ordered,
                simplify: Some(_),
                ..
            },
        ) => Some(
            "only the focused search simplifies formulas; give --search focused too, or leave --simplify out",
        ),
        Request::Solve {
            proof: Some(path),
            ..
        } if *path == STANDARD_INPUT => Some(
            "the proof can't be written to standard output, where the answer goes; give --proof a file, or leave it out",
        ),
        Request::Check { formula, proof, .. }
            if formula.path == STANDARD_INPUT && *proof == STANDARD_INPUT => {
            Some("standard input can't be both the formula and the proof")
        }
        Request::CheckDrat { formula, proof, .. }
            if formula.path == STANDARD_INPUT && proof.path == STANDARD_INPUT => {
            Some("standard input can't be both the formula and the proof")
        }
        Request::CheckDrat {
            shown: Shown { stats: true, .. } | Shown { progress: true, .. },
            ..
        } => Some("--stats and --progress show nothing of a proof in DRAT; leave them out"),
        Request::CheckDrat {
            proof: DratFile {
                path,
                kept: Some(kept),
                ..
            },
            ..
        } => refusal_of_kept(path, kept),
        Request::Spread(Spread::Conquer { part: None, .. }) => {
            Some("a part is K/M, the K-th of M, as --part 3/16 is the third of sixteen")
        }
        Request::Spread(Spread::Begin { formula, .. }) if *formula == STANDARD_INPUT => {
            Some("a run keeps its formula, which can't be standard input; give a file")
        }
        Request::Spread(Spread::Gather { proof, .. }) if *proof == STANDARD_INPUT => Some(
            "the proof can't be written to standard output, where the answer goes; give --proof a file",
        ),
        _ => None,
    }
}
