//! The command lines of runs that are spread over machines.

use crate::arguments::{choice_in, limits_of, simplify_in};
use crate::effort::{Choice, SPREAD_BUDGET};
use clap::ArgMatches;
use cnf::Limits;

/// What is asked for of a run that is spread over machines.
#[derive(Clone, Copy)]
pub enum Spread<'a> {
    /// Make the run of a formula.
    Begin {
        into: &'a str,
        formula: &'a str,
        choice: Choice,
        /// The budget of the root, in conflicts; with the automatic choice that of the ordered search
        /// which is tried first.
        budget: u32,
        /// Whether the focused search simplifies a formula that isn't solved soon, if that is said.
        simplify: Option<bool>,
        /// Whether any model will do where the automatic choice would give the first one.
        any_model: bool,
        limits: Limits,
        /// How many cubes are to be open, at least: 1 to 65,536.
        wanted: u32,
        progress: bool,
    },
    /// Write the next round of a run.
    Next {
        into: &'a str,
    },
    /// Solve the cubes of a part of a round, for so many minutes.
    Conquer {
        run: &'a str,
        round: u32,
        part: Option<Part>,
        minutes: Option<u32>,
        /// From 1 to 16.
        hands: u32,
        progress: bool,
    },
    /// Put the result together, and write the proof and the answer.
    Gather {
        run: &'a str,
        proof: &'a str,
        /// From 1 to 16.
        hands: u32,
        /// Whether cubes that are missing are solved; without it they are counted, and none is.
        solves: bool,
        stats: bool,
        progress: bool,
    },
    /// Say how far the run is.
    Status {
        run: &'a str,
    },
}

pub(crate) fn divide_request<'a>(matches: &ArgMatches<'a>) -> Option<Spread<'a>> {
    let into = matches.get_str("into")?;
    let Some(formula) = matches.get_str("FORMULA") else {
        return Some(Spread::Next { into });
    };
    let (choice, budget) = choice_in(matches, SPREAD_BUDGET)?;
    Some(Spread::Begin {
        into,
        formula,
        choice,
        budget,
        simplify: simplify_in(matches),
        any_model: matches.get_flag("any-model"),
        limits: limits_of(matches),
        wanted: matches.get_one::<u32>("divide")?,
        progress: matches.get_flag("progress"),
    })
}

/// The numbers of `K/M`, with K from 1 to M. A request holds them as they are, as it does that of
/// the hands, since the borrow checker follows none that holds a type with an invariant.
#[derive(Clone, Copy)]
pub struct Part {
    pub number: u32,
    pub parts: u32,
}

/// The part of a round that `K/M` names, if there is one.
fn part_of(word: &str) -> Option<Part> {
    let (number, parts) = word.split_once('/')?;
    let number = number.parse::<u32>().ok()?;
    let parts = parts.parse::<u32>().ok()?;
    if number < 1 || number > parts {
        return None;
    }
    Some(Part { number, parts })
}

pub(crate) fn conquer_request<'a>(matches: &ArgMatches<'a>) -> Option<Spread<'a>> {
    Some(Spread::Conquer {
        run: matches.get_str("RUN")?,
        round: matches.get_one::<u32>("round")?,
        part: part_of(matches.get_str("part")?),
        minutes: matches.get_one::<u32>("minutes"),
        hands: matches.get_one::<u32>("hands")?,
        progress: matches.get_flag("progress"),
    })
}

pub(crate) fn gather_request<'a>(matches: &ArgMatches<'a>) -> Option<Spread<'a>> {
    Some(Spread::Gather {
        run: matches.get_str("RUN")?,
        proof: matches.get_str("proof")?,
        hands: matches.get_one::<u32>("hands")?,
        solves: matches.get_flag("solve"),
        stats: matches.get_flag("stats"),
        progress: matches.get_flag("progress"),
    })
}

pub(crate) fn status_request<'a>(matches: &ArgMatches<'a>) -> Option<Spread<'a>> {
    Some(Spread::Status {
        run: matches.get_str("RUN")?,
    })
}
