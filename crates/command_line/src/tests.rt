//! Lists of arguments with what they ask, and the text of messages.
mod messages;
mod random;

use crate::{Commands, WordsError, are_taken, read};
use std::alloc::{AllocError, Global};
use std::test::Fail;

/// The arguments of a line, with `|` between them.
fn words_of(alloc: Global, line: &str) -> Result<Vec<String>, AllocError> {
    let mut words = Vec::new(alloc);
    for word in line.split('|') {
        words.push(String::from_str(alloc, word)?)?;
    }
    Ok(words)
}

/// What the arguments of a line ask, or why they are refused.
fn told(alloc: Global, commands: Commands, line: &str) -> Result<String, AllocError> {
    let words = words_of(alloc, line)?;
    match read(alloc, commands, words.as_slice()) {
        Ok(command) => format!(in alloc; "{command:?}"),
        Err(WordsError::Refused) => String::from_str(alloc, "refused"),
        Err(WordsError::ByCommand(_)) => String::from_str(alloc, "command"),
        Err(WordsError::NoMemory) => String::from_str(alloc, "no memory"),
    }
}

/// Whether `are_taken` says that the arguments of a line are accepted.
fn is_taken(alloc: Global, commands: Commands, line: &str) -> Result<bool, AllocError> {
    let words = words_of(alloc, line)?;
    Ok(are_taken(commands, words.as_slice()))
}

/// Whether what was found is a refusal.
fn is_refusal(found: &str) -> bool {
    found == "refused" || found == "command" || found == "no memory"
}

/// Whether this is what a case wants, which may leave open what is asked.
fn is_wanted(found: &str, wanted: &str) -> bool {
    found == wanted || (wanted == "taken" && !is_refusal(found))
}

/// The first line of a text with cases that is not as it wants, and what was found instead; empty if there is none.
fn first_wrong(alloc: Global, commands: Commands, text: &str) -> Result<String, AllocError> {
    for line in text.lines() {
        if let Some((wanted, words)) = line.split_once("  ") {
            let found = told(alloc, commands, words)?;
            if !is_wanted(found.as_str(), wanted) {
                return format!(in alloc; "{line:?}: {found}");
            }
            if is_taken(alloc, commands, words)? == is_refusal(found.as_str()) {
                return format!(in alloc; "{line:?}: are_taken says otherwise");
            }
        }
    }
    Ok(String::new(alloc))
}

#[test]
fn only_what_is_built_is_taken(rt: HostRuntime) -> Result<(), Fail> {
    let wrong = first_wrong(rt.alloc(), Commands::Built, random::BUILT)?;
    assert_eq!(rt; wrong.as_str(), "");
    Ok(())
}

#[test]
fn no_words_are_refused_by_the_command(rt: HostRuntime) -> Result<(), Fail> {
    let none: Vec<String> = Vec::new(rt.alloc());
    let found = read(rt.alloc(), Commands::All, none.as_slice());
    assert!(rt; matches!(&found, Err(WordsError::ByCommand(_))));
    assert!(rt; !are_taken(Commands::All, none.as_slice()));
    Ok(())
}
