//! Files and outputs that fail.

use crate::tests::cases::CONICS;
use crate::tests::{CONIC_SUM, checkpoint, outcome, run, sound};
use std::test::Fail;

#[test]
fn a_file_that_fails_is_a_read_fault(rt: HostRuntime) -> Result<(), Fail> {
    let alloc = rt.alloc();
    let paused = checkpoint(alloc)?;
    let cases: [(&[&str], &str); 4] = [
        (&["locus", "run", "f"], CONICS),
        (&["locus", "run", "f", "--budget", "3"], CONICS),
        (&["locus", "resume", "f"], paused.as_str()),
        (&["locus", "run", "f"], ""),
    ];
    for (words, text) in cases {
        let mut outside = sound(text);
        outside.failing_files = &[0];
        let found = outcome(&rt, alloc, words, &outside)?;
        assert_eq!(rt; found.told(alloc)?.as_str(), "6 |read fault\n");
        assert_eq!(rt; (found.shares, found.loads), ((0, 0), 1));
    }
    for command in ["run", "resume"] {
        let found = run(&rt, alloc, &["locus", command, "g"], CONICS)?;
        assert_eq!(rt;
            found.as_str(),
            "6 |read fault\n",
            "a file that is not there"
        );
    }
    Ok(())
}

// A second load would fail, and none is asked for.
#[test]
fn a_file_is_loaded_once(rt: HostRuntime) -> Result<(), Fail> {
    let alloc = rt.alloc();
    let paused = checkpoint(alloc)?;
    let cases: [(&[&str], &str, u8, u64); 10] = [
        (&["locus", "run", "f"], CONICS, 0, 1),
        (&["locus", "run", "f", "--budget", "3"], CONICS, 5, 1),
        (&["locus", "resume", "f"], paused.as_str(), 0, 1),
        (&["locus", "run", "f"], "", 3, 1),
        (&["locus", "resume", "f"], "", 8, 1),
        (&["locus", "unrank", "f", "4"], CONICS, 0, 1),
        (&["locus", "unrank", "f", "8"], CONICS, 10, 1),
        (&["locus", "rank", "f", "edges"], CONICS, 11, 1),
        (&["locus", "make", "0"], "", 0, 0),
        (&["locus", "walk", "f"], CONICS, 2, 0),
    ];
    for (words, text, status, loads) in cases {
        let mut outside = sound(text);
        outside.failing_files = &[1];
        let found = outcome(&rt, alloc, words, &outside)?;
        assert_eq!(rt; (found.status, found.loads), (status, loads));
    }
    Ok(())
}

// An output of at most four bytes a write takes the 53 bytes in fourteen writes, and then the flush has the number 14.
#[test]
fn an_output_that_fails_is_a_write_fault(rt: HostRuntime) -> Result<(), Fail> {
    let alloc = rt.alloc();
    let words = ["locus", "run", "f"];
    for call in 0..16u64 {
        let failing = [call];
        let mut outside = sound(CONICS);
        outside.most = 4;
        outside.failing_out = &failing;
        let found = outcome(&rt, alloc, &words, &outside)?;
        let taken = CONIC_SUM.len().min(4 * call as usize);
        let (wanted, _) = CONIC_SUM.as_bytes().split_at(taken);
        assert_eq!(rt; found.out.as_bytes(), wanted, "call {call}");
        let end = if call < 15 {
            (7, "write fault\n")
        } else {
            (0, "")
        };
        assert_eq!(rt; (found.status, found.err.as_str()), end, "call {call}");
        assert_eq!(rt; found.shares, (1, 1), "call {call}");
        let calls = if call < 15 { (call + 1, 2) } else { (15, 0) };
        assert_eq!(rt; (found.out_calls, found.err_calls), calls, "call {call}");
    }
    Ok(())
}

#[test]
fn a_fault_of_standard_error_changes_no_status(rt: HostRuntime) -> Result<(), Fail> {
    let alloc = rt.alloc();
    let cases: [(&[&str], &str, &[u64], &str); 6] = [
        (&["locus", "run", "f"], "", &[], "3 |"),
        (&["locus", "run", "g"], "", &[], "6 |"),
        (&["locus", "walk"], "", &[], "2 |"),
        (&["locus", "run", ""], "", &[], "2 |"),
        (&["locus", "resume", "f"], "", &[], "8 |"),
        (&["locus", "run", "f"], CONICS, &[0], "7 |"),
    ];
    for (words, text, failing_out, wanted) in cases {
        let mut outside = sound(text);
        outside.failing_out = failing_out;
        outside.failing_err = &[0];
        let found = outcome(&rt, alloc, words, &outside)?;
        assert_eq!(rt; found.told(alloc)?.as_str(), wanted);
    }
    Ok(())
}
