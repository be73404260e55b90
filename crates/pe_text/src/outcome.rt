//! `Outcome` and `ToolError`: what an engine returns; and `status`, the exit status for it.

ghost use Rattle.std.specs.Prelude.{◌≡◌};
ghost use Rattle.pe_text.specs.Outcome.{status_of};

use pe_view::Fault;
use thiserror::Error;

/// What an engine found in a file.
#[derive(Clone, Copy, Debug, PartialEq, Eq)]
pub enum Outcome {
    /// The file has no fault, and the text says what it holds.
    Done,
    /// The file is refused for this fault, and the text says so: it is the fault's line, or the page or the line of JSON of a
    /// refused file.
    Refused(Fault),
}

/// Why an engine gave up.
#[derive(Clone, Copy, Debug, PartialEq, Eq, Error)]
pub enum ToolError {
    /// A read failed. Nothing was written.
    #[error("reading failed")]
    Read,
    /// A write failed, or took no byte. The beginning of the text was written.
    #[error("writing failed")]
    Write,
    /// Out of memory. Nothing was written, but `json` may have written the beginning of its line.
    #[error("out of memory")]
    Memory,
}

/// The exit status for an engine's result: 0 done, 1 refused, 3 reading or writing failed, 4 out of memory.
pub fn status(answer: &Result<Outcome, ToolError>) -> u8
    ensures { result ≡ status_of answer.now }
{
    match answer {
        Ok(Outcome::Done) => 0,
        Ok(Outcome::Refused(_)) => 1,
        Err(ToolError::Read | ToolError::Write) => 3,
        Err(ToolError::Memory) => 4,
    }
}
