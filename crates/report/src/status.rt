//! What a run comes to, as the program tells it by its exit status.

ghost use Rattle.std.specs.Prelude.{◌≡◌};
ghost use Rattle.report.specs.Statuses.{code_of};

/// How a run ends. A report of a sum has one of the first three.
#[derive(Clone, Copy, Debug, PartialEq, Eq, Drop)]
pub enum Status {
    /// The sums are done with a fraction for each integral, or another text that was asked for was made.
    Done,
    /// The sums are done, and for some integral no fraction within the bounds agrees with its residues.
    NoFraction,
    /// Some tree of the sum has no inverse.
    NoInverse,
    /// The sum paused, and a checkpoint is printed.
    Paused,
    /// The arguments ask for nothing.
    WordsRefused,
    /// The bytes of the file write no problem.
    ProblemRefused,
    /// The bytes of the file are the text of no state.
    CheckpointRefused,
    /// The file was not read.
    ReadFault,
    /// The output did not take the whole text.
    WriteFault,
    /// The system gave no memory.
    NoMemory,
    /// The number is not below the number of trees.
    RangeRefused,
    /// The text is that of no decorated tree of the problem.
    TreeRefused,
}

impl Status {
    /// The exit status of the program, from 0 to 11.
    pub fn code(self) -> u8
        ensures { result ≡ code_of self }
    {
        match self {
            Status::Done => 0,
            Status::NoFraction => 1,
            Status::WordsRefused => 2,
            Status::ProblemRefused => 3,
            Status::NoInverse => 4,
            Status::Paused => 5,
            Status::ReadFault => 6,
            Status::WriteFault => 7,
            Status::CheckpointRefused => 8,
            Status::NoMemory => 9,
            Status::RangeRefused => 10,
            Status::TreeRefused => 11,
        }
    }
}
