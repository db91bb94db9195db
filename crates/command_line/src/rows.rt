//! The rows of the commands: what each takes, and how its usage is printed.
use crate::arguments::{
    BUDGET, FILE, HIGH, LIST, LOW, NUMBER, PART, PARTS, STOP_FILE, TEXT, TREE, WORKERS,
};
use crate::files::{PROBLEMS, SHARDS};
use command_words::CommandRow;

/// Sum a problem.
pub(crate) const RUN: CommandRow<'static> = CommandRow {
    name: "run",
    usage: concat!(
        "locus run FILE [--workers N] [--budget N] [--stop-file NAME]\n\n",
        "  FILE              a problem file\n",
        "  --workers N       the number of workers, from 1 to 64 (1 if left out)\n",
        "  --budget N        the greatest number of trees before a pause, from 1 to 1099511627776\n",
        "  --stop-file NAME  pause when there is a file of this name",
    ),
    plains: &[FILE],
    least: 1,
    options: &[WORKERS, BUDGET, STOP_FILE],
};

/// Go on with a sum that was paused.
pub(crate) const RESUME: CommandRow<'static> = CommandRow {
    name: "resume",
    usage: concat!(
        "locus resume FILE [--workers N] [--budget N] [--stop-file NAME]\n\n",
        "  FILE              a checkpoint file\n",
        "  --workers N       the number of workers, from 1 to 64 (1 if left out)\n",
        "  --budget N        the greatest number of trees before a pause, from 1 to 1099511627776\n",
        "  --stop-file NAME  pause when there is a file of this name",
    ),
    plains: &[FILE],
    least: 1,
    options: &[WORKERS, BUDGET, STOP_FILE],
};

/// Print the generated problem of a number.
pub(crate) const MAKE: CommandRow<'static> = CommandRow {
    name: "make",
    usage: concat!("locus make N\n\n", "  N  a number from 0 to 4294967295",),
    plains: &[NUMBER],
    least: 1,
    options: &[],
};

/// Sum the generated problem of a number.
pub(crate) const SOAK: CommandRow<'static> = CommandRow {
    name: "soak",
    usage: concat!(
        "locus soak N [--workers N]\n\n",
        "  N            a number from 0 to 4294967295\n",
        "  --workers N  the number of workers, from 1 to 64 (1 if left out)",
    ),
    plains: &[NUMBER],
    least: 1,
    options: &[WORKERS],
};

/// Print the trees of a range with their residues.
pub(crate) const TREES: CommandRow<'static> = CommandRow {
    name: "trees",
    usage: concat!(
        "locus trees FILE LO HI [--workers N]\n\n",
        "  FILE         a problem file\n",
        "  LO HI        the first number and the number after the last, from 0 to 1099511627776\n",
        "  --workers N  the number of workers, from 1 to 64 (1 if left out)",
    ),
    plains: &[FILE, LOW, HIGH],
    least: 3,
    options: &[WORKERS],
};

/// Print the number of a tree.
pub(crate) const RANK: CommandRow<'static> = CommandRow {
    name: "rank",
    usage: concat!(
        "locus rank FILE TEXT\n\n",
        "  FILE  a problem file\n",
        "  TEXT  the text of a tree",
    ),
    plains: &[FILE, TEXT],
    least: 2,
    options: &[],
};

/// Print the tree of a number.
pub(crate) const UNRANK: CommandRow<'static> = CommandRow {
    name: "unrank",
    usage: concat!(
        "locus unrank FILE K\n\n",
        "  FILE  a problem file\n",
        "  K     the number of a tree, from 0 to 1099511627776",
    ),
    plains: &[FILE, TREE],
    least: 2,
    options: &[],
};

/// Sum one shard of a problem.
pub(crate) const SPLIT: CommandRow<'static> = CommandRow {
    name: "split",
    usage: concat!(
        "locus split FILE K I [--workers N]\n\n",
        "  FILE         a problem file\n",
        "  K            the number of shards, from 1 to 64\n",
        "  I            the index of the shard, from 0 to 63\n",
        "  --workers N  the number of workers, from 1 to 64 (1 if left out)",
    ),
    plains: &[FILE, PARTS, PART],
    least: 3,
    options: &[WORKERS],
};

/// Put shards together.
pub(crate) const MERGE: CommandRow<'static> = CommandRow {
    name: "merge",
    usage: concat!("locus merge FILE..\n\n", "  FILE..  1 to 64 shard files",),
    plains: &SHARDS,
    least: 1,
    options: &[],
};

/// Sum the problems of a list.
pub(crate) const BATCH: CommandRow<'static> = CommandRow {
    name: "batch",
    usage: concat!(
        "locus batch LIST [--workers N]\n\n",
        "  LIST         a file with the name of a problem file on each line\n",
        "  --workers N  the number of workers, from 1 to 64 (1 if left out)",
    ),
    plains: &[LIST],
    least: 1,
    options: &[WORKERS],
};

/// Compare a problem under several choices of weights.
pub(crate) const CROSS: CommandRow<'static> = CommandRow {
    name: "cross",
    usage: concat!(
        "locus cross FILE FILE.. [--workers N]\n\n",
        "  FILE..       2 to 8 problem files\n",
        "  --workers N  the number of workers, from 1 to 64 (1 if left out)",
    ),
    plains: &PROBLEMS,
    least: 2,
    options: &[WORKERS],
};
