//! The positional arguments and the options of the commands.
use command_words::{Argument, Limit};

/// The greatest number of trees of a problem.
const MOST_TREES: u64 = 1_099_511_627_776;

pub(crate) const FILE: Argument<'static> = Argument {
    name: "FILE",
    value: "FILE",
    limit: Limit::Text,
};

pub(crate) const LIST: Argument<'static> = Argument {
    name: "LIST",
    value: "LIST",
    limit: Limit::Text,
};

pub(crate) const TEXT: Argument<'static> = Argument {
    name: "TEXT",
    value: "TEXT",
    limit: Limit::Text,
};

pub(crate) const NUMBER: Argument<'static> = Argument {
    name: "N",
    value: "N",
    limit: Limit::Number(0, 4_294_967_295),
};

pub(crate) const LOW: Argument<'static> = Argument {
    name: "LO",
    value: "LO",
    limit: Limit::Number(0, MOST_TREES),
};

pub(crate) const HIGH: Argument<'static> = Argument {
    name: "HI",
    value: "HI",
    limit: Limit::Number(0, MOST_TREES),
};

pub(crate) const TREE: Argument<'static> = Argument {
    name: "K",
    value: "K",
    limit: Limit::Number(0, MOST_TREES),
};

pub(crate) const PARTS: Argument<'static> = Argument {
    name: "K",
    value: "K",
    limit: Limit::Number(1, 64),
};

pub(crate) const PART: Argument<'static> = Argument {
    name: "I",
    value: "I",
    limit: Limit::Number(0, 63),
};

pub(crate) const WORKERS: Argument<'static> = Argument {
    name: "workers",
    value: "N",
    limit: Limit::Number(1, 64),
};

pub(crate) const BUDGET: Argument<'static> = Argument {
    name: "budget",
    value: "N",
    limit: Limit::Number(1, MOST_TREES),
};

pub(crate) const STOP_FILE: Argument<'static> = Argument {
    name: "stop-file",
    value: "NAME",
    limit: Limit::Text,
};
