//! The commands of a program, as a table.

/// What a value may be.
#[derive(Clone, Copy, Debug, PartialEq, Eq)]
pub enum Limit {
    /// A number from the first to the second, written as Rust reads a `u64`.
    Number(u64, u64),
    /// Any text.
    Text,
}

/// A positional argument or an option of a command.
#[derive(Clone, Copy, Debug)]
pub struct Argument<'a> {
    /// The name: different from those of the others of its command, and for an option the text after `--`.
    pub name: &'a str,
    /// What messages call the value.
    pub value: &'a str,
    /// What its value may be.
    pub limit: Limit,
}

/// How a command is used.
#[derive(Clone, Copy, Debug)]
pub struct CommandRow<'a> {
    /// The name, as it is written after that of the program.
    pub name: &'a str,
    /// The text after `Usage: ` in messages: how the command is used, and what its arguments and options are.
    pub usage: &'a str,
    /// The positional arguments, in their order.
    pub plains: &'a [Argument<'a>],
    /// How many of the positional arguments must be there.
    pub least: usize,
    /// The options: each may stand once, anywhere after the name of the command.
    pub options: &'a [Argument<'a>],
}

/// A program: its name, the text after `Usage: ` in messages about arguments that name no command, and its commands.
#[derive(Clone, Copy, Debug)]
pub struct Program<'a> {
    /// The name, as messages call it.
    pub name: &'a str,
    /// The text after `Usage: ` in messages about arguments that name no command.
    pub usage: &'a str,
    /// The commands.
    pub commands: &'a [CommandRow<'a>],
}
