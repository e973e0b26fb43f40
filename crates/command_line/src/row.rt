//! A row of the command line's options and words, and the parser's argument of it.

use clap::{Arg, ArgAction};
use std::alloc::{AllocError, Global};

/// What is typed for an argument.
#[derive(Clone, Copy)]
pub(crate) enum Form {
    /// `--NAME`.
    Flag,
    /// `--NAME` and a value, which has this name in the help.
    Option(&'static str),
    /// A word without an option before it.
    Word,
}

/// Which values are taken.
#[derive(Clone, Copy)]
pub(crate) enum Value {
    Any,
    Search,
    YesOrNo,
    /// A number from the first to the second.
    Within(i64, i64),
}

/// Whether an argument has to be there, and what it is if it isn't.
#[derive(Clone, Copy)]
pub(crate) enum Presence {
    Optional,
    Required,
    Default(&'static str),
}

/// An option or a word.
#[derive(Clone, Copy)]
pub(crate) struct Row {
    pub(crate) name: &'static str,
    pub(crate) form: Form,
    pub(crate) value: Value,
    pub(crate) presence: Presence,
    /// An argument that can't be there too.
    pub(crate) rival: Option<&'static str>,
    pub(crate) help: &'static str,
}

/// An option without a value, which may be left out.
pub(crate) const FLAG: Row = Row {
    name: "",
    form: Form::Flag,
    value: Value::Any,
    presence: Presence::Optional,
    rival: None,
    help: "",
};

/// A word that has to be there.
pub(crate) const WORD: Row = Row {
    form: Form::Word,
    presence: Presence::Required,
    ..FLAG
};

static SEARCHES: [&str; 3] = ["automatic", "ordered", "focused"];

static YES_OR_NO: [&str; 2] = ["yes", "no"];

fn with_form<'a>(arg: Arg<'a>, name: &'a str, form: Form) -> Arg<'a> {
    match form {
        Form::Flag => arg.long(name).action(ArgAction::SetTrue),
        Form::Option(value) => arg.long(name).value_name(value),
        Form::Word => arg,
    }
}

fn with_value<'a>(arg: Arg<'a>, value: Value) -> Arg<'a> {
    match value {
        Value::Any => arg,
        Value::Search => arg.value_parser(SEARCHES.as_slice()),
        Value::YesOrNo => arg.value_parser(YES_OR_NO.as_slice()),
        Value::Within(least, most) => {
            arg.value_parser(clap::value_parser!(u32).range(least..=most))
        }
    }
}

fn with_presence<'a>(arg: Arg<'a>, presence: Presence) -> Arg<'a> {
    match presence {
        Presence::Optional => arg,
        Presence::Required => arg.required(true),
        Presence::Default(value) => arg.default_value(value),
    }
}

/// The parser's argument of a row.
pub(crate) fn arg_of<'a>(alloc: Global, row: &Row) -> Result<Arg<'a>, AllocError> {
    let arg = Arg::new(alloc, row.name).help(row.help);
    let arg = with_form(arg, row.name, row.form);
    let arg = with_value(arg, row.value);
    let arg = with_presence(arg, row.presence);
    match row.rival {
        Some(rival) => arg.conflicts_with(rival),
        None => Ok(arg),
    }
}
