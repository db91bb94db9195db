//! The program `locus`: the top call over the words, the threads, the files, the output and the standard error of the host.
#![tactic(auto)]

use locus_core::{locus, refuse_words};
use locus_io::{HostErr, HostFiles, HostOut, HostStopper, OpenGate, host_words};
use std::process::ExitCode;

fn main(rt: HostRuntime) -> ExitCode {
    let alloc = rt.alloc();
    let words = host_words(&rt);
    let mut out = HostOut::new(rt.stdout());
    let mut err = HostErr::new(rt.stderr());
    let mut files = HostFiles::new(&rt);
    let mut stopper = HostStopper::new(&rt);
    let answer = match words {
        Ok(words) => locus(
            &rt,
            alloc,
            words.as_slice(),
            &mut files,
            &mut out,
            &mut err,
            &mut stopper,
            &OpenGate,
        ),
        Err(error) => refuse_words(&mut err, error),
    };
    ExitCode::from(answer.status)
}
