//! Why a run ends early.
use crate::expected::Expected;
use std::alloc::AllocError;
use std::io;
use thiserror::Error;

/// What ends a run.
#[derive(Debug, Drop, Error)]
pub(crate) enum Trouble {
    /// A journal line, by its number, that is not of a journal's forms.
    #[error("Line {0}: {1}.")]
    Malformed(usize, Expected),
    /// A command that the program does not have.
    #[error("Unknown command: expected settle, audit or meter and a file, or help.")]
    UnknownCommand,
    /// A book of this size finds no memory.
    #[error("Out of memory.")]
    Memory(#[from(alloc)] AllocError),
    /// A file or a stream fails.
    #[error("A file or a stream failed: {0}.")]
    Stream(#[from] io::Error),
}
