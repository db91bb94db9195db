//! What the arguments ask of the program.

/// The sum of a file.
#[derive(Clone, Copy, Debug)]
pub struct RunRequest<'a> {
    /// The name of the file.
    pub file: &'a str,
    /// The number of workers, from 1 to 64.
    pub workers: u64,
    /// The greatest number of trees to sum before a pause, from 1 to 2^40.
    pub budget: u64,
    /// The name of the file at whose presence the sum pauses.
    pub stop_file: Option<&'a str>,
}

/// A command, with what its arguments give it.
#[derive(Debug, Drop)]
pub enum Command<'a> {
    /// Sum a problem, from its file.
    Run(RunRequest<'a>),
    /// Go on with a sum that was paused, from a checkpoint file.
    Resume(RunRequest<'a>),
    /// Print the generated problem of a number, from 0 to 2^32 - 1.
    Make {
        number: u64,
    },
    /// Sum the generated problem of a number, from 0 to 2^32 - 1.
    Soak {
        number: u64,
        workers: u64,
    },
    /// Print the trees of a problem file from the number `low` up to but without `high`.
    Trees {
        file: &'a str,
        low: u64,
        high: u64,
        workers: u64,
    },
    /// Print the number of a tree, from its text.
    Rank {
        file: &'a str,
        text: &'a str,
    },
    /// Print the tree of a number, from 0 to 2^40.
    Unrank {
        file: &'a str,
        number: u64,
    },
    /// Sum the shard of index `part`, from 0 to 63, of `parts` shards, from 1 to 64.
    Split {
        file: &'a str,
        parts: u64,
        part: u64,
        workers: u64,
    },
    /// Put 1 to 64 shard files together.
    Merge {
        files: Vec<&'a str>,
    },
    /// Sum the problems that a list file names.
    Batch {
        list: &'a str,
        workers: u64,
    },
    /// Compare 2 to 8 problem files that differ in their weights.
    Cross {
        files: Vec<&'a str>,
        workers: u64,
    },
}
