//! The commands of the program, as tables.
ghost use Rattle.std.specs.Prelude.{◌≡◌, map};
ghost use Rattle.command_line.specs.Table.{table_of_commands};
ghost use Rattle.command_words.specs.Usages.{usages_of, usage_of};

use crate::rows::{BATCH, CROSS, MAKE, MERGE, RANK, RESUME, RUN, SOAK, SPLIT, TREES, UNRANK};
use command_words::{CommandRow, Program};

/// Which commands are accepted.
#[derive(Clone, Copy, Debug, PartialEq, Eq)]
pub enum Commands {
    /// Those that the program has today: `run`, `resume`, `make`, `soak`, `trees`, `rank` and `unrank`.
    Built,
    /// All that are planned, with all their options.
    All,
}

const BUILT_ROWS: [CommandRow<'static>; 7] = [RUN, RESUME, MAKE, SOAK, TREES, RANK, UNRANK];

const ALL_ROWS: [CommandRow<'static>; 11] = [
    RUN, RESUME, MAKE, SOAK, TREES, RANK, UNRANK, SPLIT, MERGE, BATCH, CROSS,
];

/// What is printed if the arguments name no command.
const BUILT_USAGE: &str = concat!(
    "locus COMMAND ..\n\n",
    "  run FILE [--workers N] [--budget N] [--stop-file NAME]     sum a problem and print its residues and fractions\n",
    "  resume FILE [--workers N] [--budget N] [--stop-file NAME]  go on with a sum that was paused\n",
    "  make N                                                     print the generated problem of a number\n",
    "  soak N [--workers N]                                       sum the generated problem of a number\n",
    "  trees FILE LO HI [--workers N]                             print the trees of a range with their residues\n",
    "  rank FILE TEXT                                             print the number of a tree\n",
    "  unrank FILE K                                              print the tree of a number",
);

/// What is printed if the arguments name no command.
const ALL_USAGE: &str = concat!(
    "locus COMMAND ..\n\n",
    "  run FILE [--workers N] [--budget N] [--stop-file NAME]     sum a problem and print its residues and fractions\n",
    "  resume FILE [--workers N] [--budget N] [--stop-file NAME]  go on with a sum that was paused\n",
    "  make N                                                     print the generated problem of a number\n",
    "  soak N [--workers N]                                       sum the generated problem of a number\n",
    "  trees FILE LO HI [--workers N]                             print the trees of a range with their residues\n",
    "  rank FILE TEXT                                             print the number of a tree\n",
    "  unrank FILE K                                              print the tree of a number\n",
    "  split FILE K I [--workers N]                               sum one shard of a problem\n",
    "  merge FILE..                                               put shards together\n",
    "  batch LIST [--workers N]                                   sum the problems of a list\n",
    "  cross FILE FILE.. [--workers N]                            compare a problem under several choices of weights",
);

/// The rows that are built.
fn built_rows() -> &'static [CommandRow<'static>]
    ensures { map usage_of result.now ≡ table_of_commands Commands.Built }
{
    BUILT_ROWS.as_slice()
}

/// The rows of all commands.
fn all_rows() -> &'static [CommandRow<'static>]
    ensures { map usage_of result.now ≡ table_of_commands Commands.All }
{
    ALL_ROWS.as_slice()
}

impl Commands {
    /// The program with these commands.
    pub(crate) fn program(self) -> Program<'static>
        ensures { usages_of result ≡ table_of_commands self }
    {
        match self {
            Commands::Built => Program {
                name: "locus",
                usage: BUILT_USAGE,
                commands: built_rows(),
            },
            Commands::All => Program {
                name: "locus",
                usage: ALL_USAGE,
                commands: all_rows(),
            },
        }
    }
}
