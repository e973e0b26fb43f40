//! Options that other solvers have, and what there is in their place.

/// What there is here for an option of another solver.
fn ours(option: &str) -> Option<&'static str> {
    match option {
        "-q" | "--quiet" => {
            Some(
                "nothing but the answer is printed, unless --stats, --progress or --verbose is given",
            )
        }
        "-t" | "--time" | "--timeout" | "-cpu-lim" => Some("--seconds N is the limit of time"),
        "-v" => Some("--verbose, --stats and --progress print more"),
        "-j" | "-p" | "--threads" => Some("--hands N is the number of threads"),
        "--lrat" | "--binary" | "--no-binary" => Some("proofs are written in LRAT, as text"),
        _ => None,
    }
}

/// The first of these words that is an option of another solver, with what there is in its place.
pub(crate) fn option_elsewhere<'a>(words: &[&'a str]) -> Option<(&'a str, &'static str)> {
    for word in words {
        let option = match word.split_once('=') {
            Some((option, _)) => option,
            None => word,
        };
        if let Some(hint) = ours(option) {
            return Some((option, hint));
        }
    }
    None
}
