//! What is printed if `clap` refuses the arguments.
use super::words_of;
use crate::{Commands, WordsError, read};
use std::alloc::{AllocError, Global};
use std::test::Fail;

/// The text that is printed for the arguments of a line.
fn message(alloc: Global, commands: Commands, line: &str) -> Result<String, AllocError> {
    let words = words_of(alloc, line)?;
    match read(alloc, commands, words.as_slice()) {
        Err(WordsError::ByCommand(text)) => Ok(text),
        _ => String::from_str(alloc, "no message"),
    }
}

#[test]
fn the_program_alone_shows_its_use(rt: HostRuntime) -> Result<(), Fail> {
    let wanted = concat!(
        "error: 'locus' requires a subcommand but one was not provided\n",
        "  [subcommands: run, resume, make, soak, trees, rank, unrank]\n\n",
        "Usage: locus COMMAND ..\n\n",
        "  run FILE [--workers N] [--budget N] [--stop-file NAME]     sum a problem and print its residues and fractions\n",
        "  resume FILE [--workers N] [--budget N] [--stop-file NAME]  go on with a sum that was paused\n",
        "  make N                                                     print the generated problem of a number\n",
        "  soak N [--workers N]                                       sum the generated problem of a number\n",
        "  trees FILE LO HI [--workers N]                             print the trees of a range with their residues\n",
        "  rank FILE TEXT                                             print the number of a tree\n",
        "  unrank FILE K                                              print the tree of a number\n",
    );
    assert_eq!(rt;
        message(rt.alloc(), Commands::Built, "locus")?.as_str(),
        wanted
    );
    Ok(())
}

#[test]
fn a_misspelt_option_shows_the_use_of_its_command(rt: HostRuntime) -> Result<(), Fail> {
    let wanted = concat!(
        "error: unexpected argument '--wokers' found\n\n",
        "  tip: a similar argument exists: '--workers'\n\n",
        "Usage: locus soak N [--workers N]\n\n",
        "  N            a number from 0 to 4294967295\n",
        "  --workers N  the number of workers, from 1 to 64 (1 if left out)\n",
    );
    let text = message(rt.alloc(), Commands::All, "locus|soak|1|--wokers=3")?;
    assert_eq!(rt; text.as_str(), wanted);
    Ok(())
}

#[test]
fn missing_files_are_shown_once(rt: HostRuntime) -> Result<(), Fail> {
    let wanted = concat!(
        "error: the following required arguments were not provided:\n",
        "  <FILE>\n\n",
        "Usage: locus merge FILE..\n\n",
        "  FILE..  1 to 64 shard files\n",
    );
    assert_eq!(rt;
        message(rt.alloc(), Commands::All, "locus|merge")?.as_str(),
        wanted
    );
    Ok(())
}

#[test]
fn a_number_out_of_its_limits_shows_them(rt: HostRuntime) -> Result<(), Fail> {
    let wanted = "error: invalid value '65' for '--workers <N>': 65 is not in 1..=64\n";
    let text = message(rt.alloc(), Commands::All, "locus|soak|1|--workers=65")?;
    assert_eq!(rt; text.as_str(), wanted);
    Ok(())
}
