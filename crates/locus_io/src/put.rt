//! Writing a whole text.

ghost use Rattle.std.specs.Prelude.{OnOk, OnErr, IsTrue};
ghost use Rattle.locus_io.specs.Causes.{HasCause};
ghost use Rattle.locus_io.specs.Content.{Appends, AppendsFront};

use crate::outside::{Failed, Sink};

/// Writes all of `bytes` to the sink and then flushes it. It takes no memory.
///
/// # Errors
/// `Failed` only if the sink counted a fault. Then a prefix of the bytes was written, possibly none or all of them.
#[tactic(auto, using(crate::proofs::Prefixes::appends_next, crate::proofs::Prefixes::appends_none))]
pub fn put_all<S: Sink>(sink: &mut S, bytes: &[u8]) -> Result<(), Failed>
    ensures ok { OnOk result (Appends (S.written sink.old) (S.written sink.new) bytes.now) }
    ensures flushed { OnOk result (IsTrue (S.is_flushed sink.new)) }
    ensures err { OnErr result (AppendsFront (S.written sink.old) (S.written sink.new) bytes.now) }
    ensures cause { HasCause (S.faults sink.old) (S.faults sink.new) result }
{
    let mut rest = bytes;
    while !rest.is_empty() {
        let count = sink.write(rest)?;
        let (_, left) = rest.split_at(count);
        rest = left;
    }
    sink.flush()
}
