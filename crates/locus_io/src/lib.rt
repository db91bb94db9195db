//! The outside as traits that count their faults, with objects in memory and of the host.
//!
//! A program that reads files through [`Files`] and writes through [`Sink`] can state in its contracts why a call
//! failed: a count of faults rose. A [`Stopper`] counts the stops that were asked for in the same way. Contracts see
//! the contents of objects in memory, so with them the bytes that were read and written are known too; of objects of
//! the host they see none.
#![tactic(auto)]

mod gate;
mod host;
mod memory;
mod outside;
mod put;
mod scripted;
mod sure;
mod words;

pub use gate::OpenGate;
pub use host::{HostErr, HostFiles, HostOut, HostSink, HostStopper};
pub use memory::{MemoryFiles, MemorySink};
pub use outside::{Failed, Files, LoadError, Sink, Stopper};
pub use put::put_all;
pub use scripted::ScriptedStopper;
pub use sure::{SureFiles, SureSink};
pub use words::{WordsError, host_words};

#[cfg(test)]
mod tests;
