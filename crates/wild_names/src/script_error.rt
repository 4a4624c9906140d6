//! Errors of scripts that have a text of their own.

use thiserror::Error;

/// What a script holds that is refused with a text of its own.
#[derive(Clone, Copy, Debug, Error, PartialEq, Eq)]
pub enum LinkerScriptError {
    #[error("Unclosed comment")]
    UnclosedComment,
    #[error("Nested sorting commands in linker scripts is not supported")]
    UnsupportedNestedSort,
}
