//! Objects that never fail and whose contents contracts do not see.

ghost use Rattle.std.specs.Prelude.{◌≡◌, ◌≤◌, ◌<◌, None, true, IfOk, IsOk, IsOkUnless, length, take, vec_len};

use crate::outside::{Failed, Files, LoadError, Sink};
use std::alloc::Global;
use std::marker::Model;

/// One text under every name.
#[derive(Debug, Drop)]
pub struct SureFiles {
    text: Vec<u8>,
}

impl Model for SureFiles {
    ghost use Rattle.std.specs.Prelude.{ℕ, List};

    ghost Value = { List ℕ };

    ghost view = { λ files. files.text.items };
}

impl SureFiles {
    /// Files that have this text under every name.
    pub fn new(text: Vec<u8>) -> SureFiles
        ensures { result ≡ text.items }
    {
        SureFiles { text }
    }
}

impl Files for SureFiles {
    ghost content = { λ _. None };

    ghost faults = { λ _. 0 };

    ghost last_fault = { λ _. None };

    fn load(&mut self, alloc: Global, name: &str, most: u64) -> Result<Vec<u8>, LoadError>
        ensures text { IfOk result (λ bytes. bytes.items ≡ take most self.old) }
        ensures limit { IfOk result (λ bytes. vec_len bytes ≤ most) }
        ensures sure { IsOkUnless result LoadError.NoMemory }
        ensures same { self.new ≡ self.old }
    {
        let _ = name;
        let length = self.text.len().min(most as usize);
        Vec::from_slice(alloc, &self.text[..length]).map_err(|_| LoadError::NoMemory)
    }
}

/// Takes every piece whole and drops it.
#[derive(Clone, Copy, Debug, PartialEq, Eq, Drop)]
pub struct SureSink;

impl Sink for SureSink {
    ghost written = { λ _. None };

    ghost is_flushed = { λ _. true };

    ghost faults = { λ _. 0 };

    fn write(&mut self, piece: &[u8]) -> Result<usize, Failed>
        requires { 0 < length piece.now }
        ensures { result ≡ Ok (length piece.now) }
    {
        Ok(piece.len())
    }

    fn flush(&mut self) -> Result<(), Failed>
        ensures { IsOk result }
    {
        Ok(())
    }
}
