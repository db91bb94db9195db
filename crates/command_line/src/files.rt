//! The files of the commands that take several: an argument for each, since `clap` has no upper bound for the number
//! of values of one argument if options may stand between them.
use command_words::{Argument, Limit};

macro_rules! file {
    ($name:expr) => {
        Argument {
            name: $name,
            value: "FILE",
            limit: Limit::Text,
        }
    };
}

/// Up to 64 shards.
pub(crate) const SHARDS: [Argument<'static>; 64] = [
    file!("FILE1"),
    file!("FILE2"),
    file!("FILE3"),
    file!("FILE4"),
    file!("FILE5"),
    file!("FILE6"),
    file!("FILE7"),
    file!("FILE8"),
    file!("FILE9"),
    file!("FILE10"),
    file!("FILE11"),
    file!("FILE12"),
    file!("FILE13"),
    file!("FILE14"),
    file!("FILE15"),
    file!("FILE16"),
    file!("FILE17"),
    file!("FILE18"),
    file!("FILE19"),
    file!("FILE20"),
    file!("FILE21"),
    file!("FILE22"),
    file!("FILE23"),
    file!("FILE24"),
    file!("FILE25"),
    file!("FILE26"),
    file!("FILE27"),
    file!("FILE28"),
    file!("FILE29"),
    file!("FILE30"),
    file!("FILE31"),
    file!("FILE32"),
    file!("FILE33"),
    file!("FILE34"),
    file!("FILE35"),
    file!("FILE36"),
    file!("FILE37"),
    file!("FILE38"),
    file!("FILE39"),
    file!("FILE40"),
    file!("FILE41"),
    file!("FILE42"),
    file!("FILE43"),
    file!("FILE44"),
    file!("FILE45"),
    file!("FILE46"),
    file!("FILE47"),
    file!("FILE48"),
    file!("FILE49"),
    file!("FILE50"),
    file!("FILE51"),
    file!("FILE52"),
    file!("FILE53"),
    file!("FILE54"),
    file!("FILE55"),
    file!("FILE56"),
    file!("FILE57"),
    file!("FILE58"),
    file!("FILE59"),
    file!("FILE60"),
    file!("FILE61"),
    file!("FILE62"),
    file!("FILE63"),
    file!("FILE64"),
];

/// Up to 8 problems.
pub(crate) const PROBLEMS: [Argument<'static>; 8] = [
    file!("FILE1"),
    file!("FILE2"),
    file!("FILE3"),
    file!("FILE4"),
    file!("FILE5"),
    file!("FILE6"),
    file!("FILE7"),
    file!("FILE8"),
];
