//! The arguments of the command line, as the host gives them.

use std::io::ErrorKind;
use std::rt::Env;
use std::{env, io};

/// Why the arguments of the command line were not read.
#[derive(Clone, Copy, Debug, PartialEq, Eq, Drop)]
pub enum WordsError {
    /// An argument is not valid UTF-8.
    NotText,
    /// The allocator refused memory.
    NoMemory,
}

/// The arguments of the command line, of which the first is the program's name.
///
/// # Errors
/// `NotText` if an argument is not valid UTF-8; `NoMemory` if the allocator refused memory.
pub fn host_words<R: Env + AllocGlobal>(runtime: &R) -> Result<Vec<String>, WordsError> {
    collected(runtime).map_err(|error| match error.kind() {
        ErrorKind::OutOfMemory => WordsError::NoMemory,
        _ => WordsError::NotText,
    })
}

fn collected<R: Env + AllocGlobal>(runtime: &R) -> io::Result<Vec<String>> {
    Ok(env::args(runtime)?.collect(runtime.alloc())?)
}
