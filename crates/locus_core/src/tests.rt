//! The top call over objects in memory.

use crate::locus;
use crate::tests::cases::{CONICS, DIGEST};
use locus_io::{MemoryFiles, MemorySink, OpenGate, ScriptedStopper};
use std::alloc::Global;
use std::test::Fail;
use std::thread::Threads;
use worker_pool::Gate;

mod cases;
mod faults;
mod meeting;
mod pauses;
mod shares;

// What the conics of the projective line come to.
const CONIC_SUM: &str = "trees 8\nresidue 101 38\nresidue 1001 876\nfraction 1/8\n";

// The outside of a run: the text of the file `f`, how many bytes the output takes a call, which calls of the files, the
// output and standard error fail, and what the stopper answers.
#[derive(Drop)]
struct Outside<'a> {
    text: &'a str,
    most: usize,
    failing_files: &'a [u64],
    failing_out: &'a [u64],
    failing_err: &'a [u64],
    answers: &'a [bool],
}

// An outside that never fails, with a stopper that says no.
fn sound(text: &str) -> Outside<'_> {
    Outside {
        text,
        most: 1000,
        failing_files: &[],
        failing_out: &[],
        failing_err: &[],
        answers: &[],
    }
}

// How a run ended: its status, what was written, how many shares there are and what they add up to, how many loads were
// asked of the files and how many calls of the output and of standard error, and how often the stopper was asked.
#[derive(Drop)]
struct Ended {
    status: u8,
    out: String,
    err: String,
    shares: (usize, u64),
    loads: u64,
    out_calls: u64,
    err_calls: u64,
    asked: u64,
}

impl Ended {
    // The status and the output, then `|` and standard error.
    fn told(&self, alloc: Global) -> Result<String, Fail> {
        Ok(format!(in alloc; "{} {}|{}", self.status, self.out, self.err)?)
    }
}

// The bytes that a sink took, as a text.
fn text_of(alloc: Global, sink: &MemorySink) -> Result<String, Fail> {
    let bytes = Vec::from_slice(alloc, sink.bytes())?;
    Ok(String::from_utf8(bytes).ok().ok_or("no text")?)
}

// A sink with room for 1000 bytes.
fn sink(alloc: Global, most: usize, failing: &[u64]) -> Result<MemorySink, Fail> {
    if most == 0 {
        return Err("a sink that takes nothing".into());
    }
    Ok(
        MemorySink::new(alloc, 1000, most, failing)
            .ok()
            .ok_or("no memory")?,
    )
}

// A run of these words in an outside.
fn outcome<R: Threads + Sync>(
    rt: &R,
    alloc: Global,
    words: &[&str],
    outside: &Outside<'_>,
) -> Result<Ended, Fail> {
    outcome_by(rt, alloc, words, outside, &OpenGate)
}

// The same with workers that pass a gate.
fn outcome_by<R: Threads + Sync, G: Gate>(
    rt: &R,
    alloc: Global,
    words: &[&str],
    outside: &Outside<'_>,
    gate: &G,
) -> Result<Ended, Fail> {
    let mut list = Vec::new(alloc);
    for word in words {
        list.push(String::from_str(alloc, word)?)?;
    }
    let mut named = Vec::new(alloc);
    named.push((
        String::from_str(alloc, "f")?,
        Vec::from_slice(alloc, outside.text.as_bytes())?,
    ))?;
    let mut files = MemoryFiles::new(named, Vec::from_slice(alloc, outside.failing_files)?);
    let mut out = sink(alloc, outside.most, outside.failing_out)?;
    let mut err = sink(alloc, 1000, outside.failing_err)?;
    let mut stopper = ScriptedStopper::new(Vec::from_slice(alloc, outside.answers)?);
    let answer = locus(
        rt,
        alloc,
        list.as_slice(),
        &mut files,
        &mut out,
        &mut err,
        &mut stopper,
        gate,
    );
    let mut sum = 0u64;
    for worker in 0..answer.shares.len() {
        sum = sum.wrapping_add(answer.shares.get(worker));
    }
    Ok(Ended {
        status: answer.status,
        out: text_of(alloc, &out)?,
        err: text_of(alloc, &err)?,
        shares: (answer.shares.len(), sum),
        loads: files.loads(),
        out_calls: out.calls(),
        err_calls: err.calls(),
        asked: stopper.asked(),
    })
}

// What a run of these words over a file `f` with this text tells.
fn run<R: Threads + Sync>(
    rt: &R,
    alloc: Global,
    words: &[&str],
    text: &str,
) -> Result<String, Fail> {
    outcome(rt, alloc, words, &sound(text))?.told(alloc)
}

// The text of the checkpoint of the conics of the projective line behind three trees.
fn checkpoint(alloc: Global) -> Result<String, Fail> {
    let body = format!(in alloc; "locus-checkpoint 2\nproblem 172\n{CONICS}\nnext 3\n")?;
    Ok(format!(in alloc; "{body}residues 90 646\nsha256 {DIGEST}\n")?)
}
