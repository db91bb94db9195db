//! Pauses, at the end of a budget or after a stop, and how the sum goes on.

use crate::tests::cases::{QUARTIC_SUM, QUARTICS};
use crate::tests::{outcome, run, sound};
use std::test::Fail;

// The quartics have three rounds, of 65,536, 65,536 and 45,028 trees.
#[test]
fn a_stop_file_pauses_after_a_round(rt: HostRuntime) -> Result<(), Fail> {
    let alloc = rt.alloc();
    let cases: [(&[bool], &str, u64); 2] = [
        (&[true], "\nnext 65536\n", 1),
        (&[false, true], "\nnext 131072\n", 2),
    ];
    for (answers, wanted, asked) in cases {
        let mut outside = sound(QUARTICS);
        outside.answers = answers;
        let words = ["locus", "run", "f", "--workers", "7", "--stop-file", "s"];
        let found = outcome(&rt, alloc, &words, &outside)?;
        assert_eq!(rt; (found.status, found.err.as_str()), (5, ""), "{wanted}");
        assert_eq!(rt; found.asked, asked, "{wanted}");
        assert!(rt; found.out.as_str().contains(wanted), "{}", found.out);
        let words = ["locus", "resume", "f", "--workers", "3"];
        let found = run(&rt, alloc, &words, found.out.as_str())?;
        assert_eq!(rt; found.as_str(), QUARTIC_SUM, "{wanted}");
    }
    Ok(())
}

#[test]
fn a_stopper_that_says_no_or_has_no_name_stops_nothing(rt: HostRuntime) -> Result<(), Fail> {
    let alloc = rt.alloc();
    let cases: [(&[&str], &[bool], u64); 2] = [
        (
            &["locus", "run", "f", "--workers", "7", "--stop-file", "s"],
            &[false, false],
            2,
        ),
        (&["locus", "run", "f", "--workers", "7"], &[true], 0),
    ];
    for (words, answers, asked) in cases {
        let mut outside = sound(QUARTICS);
        outside.answers = answers;
        let found = outcome(&rt, alloc, words, &outside)?;
        assert_eq!(rt; found.told(alloc)?.as_str(), QUARTIC_SUM);
        assert_eq!(rt; found.asked, asked);
    }
    Ok(())
}
