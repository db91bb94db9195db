//! From what is given to a command to what is asked.
ghost use Rattle.std.specs.Prelude.{◌≡◌, map, option_map};
ghost use Rattle.command_words.specs.Taken.{pair_of};
ghost use Rattle.command_line.specs.Given.{options_of, plains_of, request_named};
ghost use Rattle.command_line.specs.Requests.{batch_asked, budget_in, cross_asked, make_asked, merge_asked, number_or};
ghost use Rattle.command_line.specs.Requests.{rank_asked, request_of, soak_asked, split_asked, sum_asked};
ghost use Rattle.command_line.specs.Requests.{sum_of_request, trees_asked, unrank_asked, workers_in};

use crate::command::{Command, RunRequest};
use command_words::{Given, number};

/// The number of the option of this name, or `other` if it was not given.
fn number_or(given: &Given<'_>, name: &str, other: u64) -> u64
    ensures { result ≡ number_or other name.now (options_of given.now) }
{
    match given.option(name) {
        Some(text) => number(text).unwrap_or(other),
        None => other,
    }
}

fn workers(given: &Given<'_>) -> u64
    ensures { result ≡ workers_in (options_of given.now) }
{
    number_or(given, "workers", 1)
}

fn sum<'a>(given: &Given<'a>) -> Option<RunRequest<'a>>
    ensures { option_map sum_of_request result ≡ sum_asked (plains_of given.now) (options_of given.now) }
{
    match given.plains.as_slice() {
        [file] => Some(RunRequest {
            file: *file,
            workers: workers(given),
            budget: number_or(given, "budget", 1_099_511_627_776),
            stop_file: given.option("stop-file"),
        }),
        _ => None,
    }
}

fn make<'a>(given: &Given<'a>) -> Option<Command<'a>>
    ensures { option_map request_of result ≡ make_asked (plains_of given.now) (options_of given.now) }
{
    match given.plains.as_slice() {
        [text] => Some(Command::Make {
            number: number(*text)?,
        }),
        _ => None,
    }
}

fn soak<'a>(given: &Given<'a>) -> Option<Command<'a>>
    ensures { option_map request_of result ≡ soak_asked (plains_of given.now) (options_of given.now) }
{
    match given.plains.as_slice() {
        [text] => Some(Command::Soak {
            number: number(*text)?,
            workers: workers(given),
        }),
        _ => None,
    }
}

fn trees<'a>(given: &Given<'a>) -> Option<Command<'a>>
    ensures { option_map request_of result ≡ trees_asked (plains_of given.now) (options_of given.now) }
{
    match given.plains.as_slice() {
        [file, low, high] => Some(Command::Trees {
            file: *file,
            low: number(*low)?,
            high: number(*high)?,
            workers: workers(given),
        }),
        _ => None,
    }
}

fn rank<'a>(given: &Given<'a>) -> Option<Command<'a>>
    ensures { option_map request_of result ≡ rank_asked (plains_of given.now) (options_of given.now) }
{
    match given.plains.as_slice() {
        [file, text] => Some(Command::Rank {
            file: *file,
            text: *text,
        }),
        _ => None,
    }
}

fn unrank<'a>(given: &Given<'a>) -> Option<Command<'a>>
    ensures { option_map request_of result ≡ unrank_asked (plains_of given.now) (options_of given.now) }
{
    match given.plains.as_slice() {
        [file, tree] => Some(Command::Unrank {
            file: *file,
            number: number(*tree)?,
        }),
        _ => None,
    }
}

fn split<'a>(given: &Given<'a>) -> Option<Command<'a>>
    ensures { option_map request_of result ≡ split_asked (plains_of given.now) (options_of given.now) }
{
    match given.plains.as_slice() {
        [file, parts, part] => Some(Command::Split {
            file: *file,
            parts: number(*parts)?,
            part: number(*part)?,
            workers: workers(given),
        }),
        _ => None,
    }
}

fn batch<'a>(given: &Given<'a>) -> Option<Command<'a>>
    ensures { option_map request_of result ≡ batch_asked (plains_of given.now) (options_of given.now) }
{
    match given.plains.as_slice() {
        [list] => Some(Command::Batch {
            list: *list,
            workers: workers(given),
        }),
        _ => None,
    }
}

/// What a command asks for.
pub(crate) fn request<'a>(given: Given<'a>) -> Option<Command<'a>>
    ensures { option_map request_of result
        ≡ request_named given.entry.command.now (plains_of given.entry) (options_of given.entry) }
{
    match given.command {
        "run" => Some(Command::Run(sum(&given)?)),
        "resume" => Some(Command::Resume(sum(&given)?)),
        "make" => make(&given),
        "soak" => soak(&given),
        "trees" => trees(&given),
        "rank" => rank(&given),
        "unrank" => unrank(&given),
        "split" => split(&given),
        "merge" => Some(Command::Merge {
            files: given.plains,
        }),
        "batch" => batch(&given),
        "cross" => {
            let workers = workers(&given);
            Some(Command::Cross {
                files: given.plains,
                workers,
            })
        }
        _ => None,
    }
}
