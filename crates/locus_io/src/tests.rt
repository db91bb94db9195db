use crate::{
    Files, HostErr, HostFiles, HostOut, HostSink, HostStopper, LoadError, MemoryFiles, MemorySink,
    ScriptedStopper, Sink, Stopper, SureFiles, SureSink, WordsError, host_words, put_all,
};
use std::alloc::Global;
use std::env::FillError;
use std::fs::OpenOptions;
use std::rt::Env;
use std::test::Fail;

// Two files of one name, of which the first counts, and an empty one.
fn three_files(alloc: Global, failing: &[u64]) -> Result<MemoryFiles, Fail> {
    let mut files = Vec::new(alloc);
    for (name, text) in [("a", "hello"), ("a", "other"), ("b", "")] {
        let bytes = Vec::from_slice(alloc, text.as_bytes())?;
        files.push((String::from_str(alloc, name)?, bytes))?;
    }
    Ok(MemoryFiles::new(files, Vec::from_slice(alloc, failing)?))
}

#[test]
fn memory_files_give_the_front_of_the_first_file(rt: HostRuntime) -> Result<(), Fail> {
    let alloc = rt.alloc();
    let mut files = three_files(alloc, &[3])?;
    let cases = [
        ("a", 3, Ok("hel")),
        ("a", 9, Ok("hello")),
        ("b", 9, Ok("")),
        ("a", 9, Err(LoadError::Failed)),
        ("c", 9, Err(LoadError::Failed)),
        ("a", 0, Ok("")),
    ];
    for (name, most, wanted) in cases {
        let found = files.load(alloc, name, most);
        assert_eq!(rt; found.is_ok(), wanted.is_ok(), "at {name} {most}");
        match found {
            Ok(bytes) => assert_eq!(rt; bytes.as_slice(), wanted.unwrap_or("").as_bytes()),
            Err(error) => assert_eq!(rt; Some(error), wanted.err()),
        }
    }
    Ok(())
}

#[test]
fn memory_sinks_take_pieces_and_fail_where_they_are_to(rt: HostRuntime) -> Result<(), Fail> {
    let alloc = rt.alloc();
    let none: &[u64] = &[];
    let cases: [(usize, usize, &[u64], bool, &str); 8] = [
        (100, 4, none, true, "one line\n"),
        (9, 100, none, true, "one line\n"),
        (8, 100, none, false, "one line"),
        (100, 4, &[1], false, "one "),
        (6, 4, none, false, "one li"),
        (100, 4, &[3], false, "one line\n"),
        (100, 4, &[0], false, ""),
        (100, 4, &[4], true, "one line\n"),
    ];
    for (room, most, failing, passes, wanted) in cases {
        assert!(rt; most > 0);
        let mut sink = MemorySink::new(alloc, room, most, failing)
            .ok()
            .ok_or("no memory")?;
        assert_eq!(rt;
            put_all(&mut sink, b"one line\n").is_ok(),
            passes,
            "at {room} {most}"
        );
        assert_eq!(rt; sink.bytes(), wanted.as_bytes(), "at {room} {most}");
    }
    Ok(())
}

#[test]
fn the_sure_pair_passes(rt: HostRuntime) -> Result<(), Fail> {
    let alloc = rt.alloc();
    let mut files = SureFiles::new(Vec::from_slice(alloc, b"text")?);
    for (name, most, wanted) in [("a", 9, "text"), ("", 2, "te"), ("b", 0, "")] {
        let bytes = files.load(alloc, name, most).ok().ok_or("no memory")?;
        assert_eq!(rt; bytes.as_slice(), wanted.as_bytes(), "at {name} {most}");
    }
    assert_eq!(rt; SureSink.write(b"text"), Ok(4));
    assert_eq!(rt; put_all(&mut SureSink, b"text"), Ok(()));
    Ok(())
}

#[test]
fn host_files_read_fronts(rt: HostRuntime) -> Result<(), Fail> {
    let alloc = rt.alloc();
    let mut files = HostFiles::new(rt.clone()?);
    let cases = [
        ("/dev/null", 5, Ok(0)),
        ("/dev/zero", 10_000, Ok(10_000)),
        ("/dev/zero", 0, Ok(0)),
        ("/", 5, Err(LoadError::Failed)),
        ("/not/there", 5, Err(LoadError::Failed)),
    ];
    for (name, most, wanted) in cases {
        let found = files.load(alloc, name, most).map(|bytes| bytes.len());
        assert_eq!(rt; found, wanted, "at {name} {most}");
    }
    Ok(())
}

#[test]
fn host_out_writes_and_a_full_device_is_a_fault(rt: HostRuntime) -> Result<(), Fail> {
    let mut out = HostOut::new(rt.stdout());
    assert_eq!(rt; put_all(&mut out, b"one line\n"), Ok(()));
    let full = OpenOptions::new().write(true).open(&rt, "/dev/full")?;
    let mut full = HostSink::new(full);
    assert!(rt; put_all(&mut full, b"one line\n").is_err());
    Ok(())
}

#[test]
fn host_err_writes(rt: HostRuntime) {
    let mut err = HostErr::new(rt.stderr());
    assert_eq!(rt; put_all(&mut err, b"one line\n"), Ok(()));
}

// An environment whose arguments are these, and which has no variables.
#[derive(Drop)]
struct Arguments(&'static [&'static [u8]]);

impl Env for Arguments {
    fn arg(&self, i: usize, buf: &mut [u8]) -> Result<usize, FillError> {
        let Some(word) = self.0.get(i) else {
            return Err(FillError::NotPresent);
        };
        let Some(front) = buf.get_mut(..word.len()) else {
            return Err(FillError::TooLong);
        };
        front.copy_from_slice(word);
        Ok(word.len())
    }

    fn var(&self, _name: &str, _buf: &mut [u8]) -> Result<usize, FillError> {
        Err(FillError::NotPresent)
    }

    fn var_at(&self, _i: usize, _buf: &mut [u8]) -> Result<usize, FillError> {
        Err(FillError::NotPresent)
    }
}

#[test]
fn words_that_are_no_text_are_refused(rt: HostRuntime) -> Result<(), Fail> {
    let words = host_words(&(Arguments(&[b"locus", b"run", b"f"]), rt.alloc()));
    let words = words.ok().ok_or("no words")?;
    assert_eq!(rt; words.len(), 3);
    assert_eq!(rt; words[1].as_str(), "run");
    let refused = host_words(&(Arguments(&[b"locus", b"run", b"f\xff"]), rt.alloc()));
    assert_eq!(rt; refused.err(), Some(WordsError::NotText));
    Ok(())
}

#[test]
fn a_scripted_stopper_gives_its_answers_and_then_says_no(rt: HostRuntime) -> Result<(), Fail> {
    let alloc = rt.alloc();
    let mut stopper = ScriptedStopper::new(Vec::from_slice(alloc, &[false, true])?);
    assert_eq!(rt; stopper.asked(), 0);
    for (asked, wanted) in [(1, false), (2, true), (3, false), (4, false)] {
        let answer = stopper.ask(alloc, "s").ok().ok_or("no memory")?;
        assert_eq!(rt; answer, wanted, "at question {asked}");
        assert_eq!(rt; stopper.asked(), asked);
    }
    Ok(())
}

#[test]
fn the_host_stops_where_a_file_is_there(rt: HostRuntime) -> Result<(), Fail> {
    let alloc = rt.alloc();
    let mut stopper = HostStopper::new(rt.clone()?);
    let cases = [
        ("/dev/null", true),
        ("/not/there", false),
        ("/dev/null/below", false),
        ("", false),
    ];
    for (name, wanted) in cases {
        let answer = stopper.ask(alloc, name).ok().ok_or("no memory")?;
        assert_eq!(rt; answer, wanted, "at {name}");
    }
    Ok(())
}
