//! The real outside: a few lines over the standard library. Nothing is said of what a file or a device holds.

ghost use Rattle.std.specs.Prelude.{◌≡◌, ◌≤◌, None, IfOk, vec_len, option_map, string_bytes};

use crate::outside::{Failed, Files, LoadError, Sink, Stopper};
use lists::NoMemory;
use std::alloc::Global;
use std::io::{ErrorKind, Read, Stderr, Stdout, Write};
use std::{fs, rt};

const PIECE: usize = 4096;

/// Files of the host, by their paths.
#[derive(Drop)]
pub struct HostFiles<R: rt::Files + Drop> {
    runtime: R,
    faults: u64,
    last_fault: Option<String>,
}

impl<R: rt::Files + Drop> HostFiles<R> {
    /// The files that `runtime` reaches.
    pub fn new(runtime: R) -> HostFiles<R>
        ensures faults { ⟦<HostFiles<R> as Files>⟧.faults result ≡ 0 }
        ensures last_fault { ⟦<HostFiles<R> as Files>⟧.last_fault result ≡ None }
    {
        HostFiles {
            runtime,
            faults: 0,
            last_fault: None,
        }
    }
}

// The first `most` bytes of a reader, for at most `most` turns that take a byte.
fn read_front<T: Read>(alloc: Global, reader: &mut T, most: u64) -> Result<Vec<u8>, LoadError>
    ensures { IfOk result (λ bytes. vec_len bytes ≤ most) }
{
    let mut bytes = Vec::new(alloc);
    let mut piece = [0u8; PIECE];
    let mut left = most;
    for _ in 0..most {
        let wanted = left.min(PIECE as u64) as usize;
        let count = match reader.read(&mut piece[..wanted]) {
            Ok(0) => break,
            Ok(count) => count,
            Err(_) => return Err(LoadError::Failed),
        };
        if bytes.extend_from_slice(&piece[..count]).is_err() {
            return Err(LoadError::NoMemory);
        }
        left = left.saturating_sub(count as u64);
        if left == 0 {
            break;
        }
    }
    Ok(bytes)
}

fn load_front<R: rt::Files>(
    alloc: Global,
    runtime: &R,
    name: &str,
    most: u64,
) -> Result<Vec<u8>, LoadError>
    ensures { IfOk result (λ bytes. vec_len bytes ≤ most) }
{
    match fs::File::open(runtime, name) {
        Ok(mut file) => read_front(alloc, &mut file, most),
        Err(error) if error.kind() == ErrorKind::OutOfMemory => Err(LoadError::NoMemory),
        Err(_) => Err(LoadError::Failed),
    }
}

impl<R: rt::Files + Drop> Files for HostFiles<R> {
    ghost content = { λ _. None };

    ghost faults = { λ files. files.faults };

    ghost last_fault = { λ files. option_map string_bytes files.last_fault };

    // The name is copied before the file is touched, so that a fault can be noted without memory.
    fn load(&mut self, alloc: Global, name: &str, most: u64) -> Result<Vec<u8>, LoadError> {
        let Ok(name_copy) = String::from_str(alloc, name) else {
            return Err(LoadError::NoMemory);
        };
        match load_front(alloc, &self.runtime, name, most) {
            Err(LoadError::Failed) => {
                self.faults = self.faults.saturating_add(1);
                self.last_fault = Some(name_copy);
                Err(LoadError::Failed)
            }
            other => other,
        }
    }
}

/// A writer of the standard library as a sink.
#[derive(Debug, Drop)]
pub struct HostSink<W: Write> {
    inner: W,
    is_flushed: bool,
    faults: u64,
}

/// The standard output of the host.
pub type HostOut = HostSink<Stdout>;

/// The standard error of the host.
pub type HostErr = HostSink<Stderr>;

impl<W: Write> HostSink<W> {
    /// The writer `inner`, to which nothing was written yet.
    pub fn new(inner: W) -> HostSink<W>
        ensures { ⟦<HostSink<W> as Sink>⟧.faults result ≡ 0 }
    {
        HostSink {
            inner,
            is_flushed: false,
            faults: 0,
        }
    }
}

impl<W: Write> Sink for HostSink<W> {
    ghost written = { λ _. None };

    ghost is_flushed = { λ sink. sink.is_flushed };

    ghost faults = { λ sink. sink.faults };

    fn write(&mut self, piece: &[u8]) -> Result<usize, Failed> {
        self.is_flushed = false;
        match self.inner.write(piece) {
            Ok(count) if count > 0 => Ok(count),
            _ => {
                self.faults = self.faults.saturating_add(1);
                Err(Failed)
            }
        }
    }

    fn flush(&mut self) -> Result<(), Failed> {
        match self.inner.flush() {
            Ok(()) => {
                self.is_flushed = true;
                Ok(())
            }
            Err(_) => {
                self.faults = self.faults.saturating_add(1);
                Err(Failed)
            }
        }
    }
}

/// A file of the host as the sign to stop.
#[derive(Drop)]
pub struct HostStopper<R: rt::Files + Drop> {
    runtime: R,
    stops: u64,
    last_stop: Option<String>,
}

impl<R: rt::Files + Drop> HostStopper<R> {
    /// A stopper that looks among the files that `runtime` reaches.
    pub fn new(runtime: R) -> HostStopper<R>
        ensures stops { ⟦<HostStopper<R> as Stopper>⟧.stops result ≡ 0 }
        ensures last_stop { ⟦<HostStopper<R> as Stopper>⟧.last_stop result ≡ None }
    {
        HostStopper {
            runtime,
            stops: 0,
            last_stop: None,
        }
    }
}

// Whether a file of this name is there. A look that fails for another cause than memory is a no.
fn is_there<R: rt::Files>(runtime: &R, name: &str) -> Result<bool, NoMemory> {
    match fs::exists(runtime, name) {
        Ok(found) => Ok(found),
        Err(error) if error.kind() == ErrorKind::OutOfMemory => Err(NoMemory),
        Err(_) => Ok(false),
    }
}

impl<R: rt::Files + Drop> Stopper for HostStopper<R> {
    ghost stops = { λ stopper. stopper.stops };

    ghost last_stop = { λ stopper. option_map string_bytes stopper.last_stop };

    // The name is copied before the file is touched, so that a stop can be noted without memory.
    fn ask(&mut self, alloc: Global, name: &str) -> Result<bool, NoMemory> {
        let name_copy = String::from_str(alloc, name)?;
        if !is_there(&self.runtime, name)? {
            return Ok(false);
        }
        self.stops = self.stops.saturating_add(1);
        self.last_stop = Some(name_copy);
        Ok(true)
    }
}
