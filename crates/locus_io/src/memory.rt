//! Objects of the outside in memory, whose contents contracts see, and which fail at the calls that a test chooses.

ghost use Rattle.std.specs.Prelude.{◌≡◌, ◌≢◌, ◌≤◌, ◌<◌, ◌↔◌, ◌⊎◌, ◌++◌, [], Some, None, true, false, Contains, IfOk, IsTrue, IsErr, OnOk, OnErr, length, take, vec_len, option_map, string_bytes};
ghost use Rattle.locus_io.specs.Content.{told_files, file_of};
ghost use Rattle.locus_io.specs.Memory.{counted, taken_of, IsFull};

use crate::outside::{Failed, Files, LoadError, Sink};
use lists::NoMemory;
use std::alloc::Global;
use std::marker::Model;

/// Files that are held in memory.
#[derive(Debug, Drop)]
pub struct MemoryFiles {
    files: Vec<(String, Vec<u8>)>,
    failing: Vec<u64>,
    calls: u64,
    faults: u64,
    last_fault: Option<String>,
}

impl Model for MemoryFiles {
    ghost use Rattle.std.specs.Prelude.{option_map, string_bytes};
    ghost use Rattle.locus_io.specs.Content.{told_files};
    ghost use Rattle.locus_io.specs.Memory.{FilesInMemory};

    ghost Value = { FilesInMemory };

    ghost view = { λ inside. record {
      files = told_files inside.files.items;
      failing = inside.failing.items;
      next_call = inside.calls;
      faults = inside.faults;
      last_fault = option_map string_bytes inside.last_fault;
    } };
}

impl MemoryFiles {
    /// These files, of which the first of a name counts. The loads whose numbers, from 0, stand in `failing` are to
    /// fail.
    pub fn new(files: Vec<(String, Vec<u8>)>, failing: Vec<u64>) -> MemoryFiles
        ensures { result ≡ record {
          files = told_files files.items;
          failing = failing.items;
          next_call = 0;
          faults = 0;
          last_fault = None;
        } }
    {
        MemoryFiles {
            files,
            failing,
            calls: 0,
            faults: 0,
            last_fault: None,
        }
    }

    /// How many loads were asked for, up to 2^64 - 1.
    pub fn loads(&self) -> u64
        ensures { result ≡ self.now.next_call }
    {
        self.calls
    }

    fn note_fault(&mut self, name: String)
        ensures noted { self.new ≡ record self.old {
          faults = counted self.old.faults;
          last_fault = Some (string_bytes name);
        } }
        ensures later { self.old.faults ≤ self.new.faults }
    {
        self.faults = self.faults.saturating_add(1);
        self.last_fault = Some(name);
    }
}

// The bytes of the first file of this name.
#[tactic(auto, using(std::proofs::lemmas::List::drop_more))]
fn find<'a>(files: &'a [(String, Vec<u8>)], name: &str) -> Option<&'a Vec<u8>>
    ensures { option_map (λ bytes. bytes.now.items) result ≡ file_of name.now (told_files files.now) }
{
    for (file_name, bytes) in files {
        if file_name.as_str() == name {
            return Some(bytes);
        }
    }
    None
}

impl Files for MemoryFiles {
    ghost content = { λ files. Some files.files };

    ghost faults = { λ files. files.faults };

    ghost last_fault = { λ files. files.last_fault };

    fn load(&mut self, alloc: Global, name: &str, most: u64) -> Result<Vec<u8>, LoadError>
        ensures found { IfOk result (λ bytes.
            option_map (take most) (file_of name.now self.old.files) ≡ Some bytes.items) }
        ensures limit { IfOk result (λ bytes. vec_len bytes ≤ most) }
        ensures spared { OnOk result (¬ Contains self.old.failing self.old.next_call) }
        ensures failed { result ≡ Err LoadError.Failed →
            Contains self.old.failing self.old.next_call ⊎ (file_of name.now self.old.files ≡ None) }
        ensures faulty { result ≡ Err LoadError.Failed → self.new ≡ record self.old {
          next_call = counted self.old.next_call;
          faults = counted self.old.faults;
          last_fault = Some name.now;
        } }
        ensures faultless { result ≢ Err LoadError.Failed →
            self.new ≡ record self.old { next_call = counted self.old.next_call } }
        ensures later { self.old.faults ≤ self.new.faults }
    {
        let call = self.calls;
        self.calls = call.saturating_add(1);
        let Ok(name_copy) = String::from_str(alloc, name) else {
            return Err(LoadError::NoMemory);
        };
        if self.failing.contains(&call) {
            self.note_fault(name_copy);
            return Err(LoadError::Failed);
        }
        let Some(bytes) = find(self.files.as_slice(), name) else {
            self.note_fault(name_copy);
            return Err(LoadError::Failed);
        };
        let length = bytes.len().min(most as usize);
        Vec::from_slice(alloc, &bytes[..length]).map_err(|_| LoadError::NoMemory)
    }
}

/// A sink with room for some bytes, which takes few bytes at a time and fails at some calls.
#[derive(Debug, Drop)]
pub struct MemorySink {
    bytes: Vec<u8>,
    room: usize,
    most: usize,
    failing: Vec<u64>,
    calls: u64,
    is_flushed: bool,
    faults: u64,
}

impl Model for MemorySink {
    ghost use Rattle.std.specs.Prelude.{◌≤◌, ◌<◌, vec_capacity};
    ghost use Rattle.locus_io.specs.Memory.{SinkInMemory};

    ghost Value = { SinkInMemory };

    ghost view = { λ inside. record {
      written = inside.bytes.items;
      room = inside.room;
      most = inside.most;
      failing = inside.failing.items;
      next_call = inside.calls;
      is_flushed = inside.is_flushed;
      faults = inside.faults;
    } };

    ghost invariant = { λ inside. (inside.room ≤ vec_capacity inside.bytes) × (0 < inside.most) };
}

impl MemorySink {
    /// An empty sink that takes `room` bytes in all and at most `most` in a call. The calls of `write` and `flush`
    /// whose numbers, from 0 over both, are in `failing` are to fail, and so is each write that finds the room used up.
    ///
    /// # Errors
    /// `NoMemory` if the allocator refuses memory for `room` bytes or for the copy of `failing`.
    pub fn new(
        alloc: Global,
        room: usize,
        most: usize,
        failing: &[u64],
    ) -> Result<MemorySink, NoMemory>
        requires { 0 < most }
        ensures { IfOk result (λ sink. sink ≡ record {
          written = [];
          room = room;
          most = most;
          failing = failing.now;
          next_call = 0;
          is_flushed = false;
          faults = 0;
        }) }
    {
        let bytes = Vec::with_capacity(alloc, room).map_err(|_| NoMemory)?;
        let failing = Vec::from_slice(alloc, failing).map_err(|_| NoMemory)?;
        Ok(MemorySink {
            bytes,
            room,
            most,
            failing,
            calls: 0,
            is_flushed: false,
            faults: 0,
        })
    }

    /// The bytes that were written.
    pub fn bytes(&self) -> &[u8]
        ensures { result.now ≡ self.now.written }
    {
        self.bytes.as_slice()
    }

    /// How many writes and flushes were asked for, up to 2^64 - 1.
    pub fn calls(&self) -> u64
        ensures { result ≡ self.now.next_call }
    {
        self.calls
    }

    // Counts the call, and says whether it is one that is to fail.
    fn is_failing(&mut self) -> bool
        ensures listed { IsTrue result ↔ Contains self.old.failing self.old.next_call }
        ensures counted { self.new ≡ record self.old { next_call = counted self.old.next_call } }
    {
        let call = self.calls;
        self.calls = call.saturating_add(1);
        self.failing.contains(&call)
    }
}

impl Sink for MemorySink {
    ghost written = { λ sink. Some sink.written };

    ghost is_flushed = { λ sink. sink.is_flushed };

    ghost faults = { λ sink. sink.faults };

    fn write(&mut self, piece: &[u8]) -> Result<usize, Failed>
        requires { 0 < length piece.now }
        ensures failed { IsErr result ↔ (Contains self.old.failing self.old.next_call ⊎ IsFull self.old) }
        ensures taken { IfOk result (λ count. (0 < count) × (count ≡ taken_of self.old (length piece.now))) }
        ensures ok { IfOk result (λ count. self.new ≡ record self.old {
          written = self.old.written ++ take count piece.now;
          next_call = counted self.old.next_call;
          is_flushed = false;
        }) }
        ensures err { OnErr result (self.new ≡ record self.old {
          next_call = counted self.old.next_call;
          faults = counted self.old.faults;
        }) }
        ensures later { self.old.faults ≤ self.new.faults }
    {
        let left = self.room.saturating_sub(self.bytes.len());
        let count = piece.len().min(self.most).min(left);
        if self.is_failing() || count == 0 {
            self.faults = self.faults.saturating_add(1);
            return Err(Failed);
        }
        self.is_flushed = false;
        self.bytes.extend_from_slice(&piece[..count]).unwrap();
        Ok(count)
    }

    fn flush(&mut self) -> Result<(), Failed>
        ensures failed { IsErr result ↔ Contains self.old.failing self.old.next_call }
        ensures ok { OnOk result (self.new ≡ record self.old {
          next_call = counted self.old.next_call;
          is_flushed = true;
        }) }
        ensures err { OnErr result (self.new ≡ record self.old {
          next_call = counted self.old.next_call;
          faults = counted self.old.faults;
        }) }
        ensures later { self.old.faults ≤ self.new.faults }
    {
        if self.is_failing() {
            self.faults = self.faults.saturating_add(1);
            return Err(Failed);
        }
        self.is_flushed = true;
        Ok(())
    }
}
