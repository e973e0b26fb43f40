//! Why a proof's text, or its steps, are refused.
use crate::check_fault::CheckFault;
use lrat_text::TextFault;
use thiserror::Error;

/// Why a proof is refused. A fault of the text goes before one of the steps, wherever it stands.
#[derive(Clone, Copy, Debug, PartialEq, Eq, Error)]
pub enum Refusal {
    /// The text isn't read as steps.
    #[error("{0}")]
    Text(TextFault),

    /// The steps are no proof.
    #[error("{0}")]
    Steps(CheckFault),
}
