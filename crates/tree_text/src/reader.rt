//! Reading byte by byte.

ghost use Rattle.std.specs.Prelude.{◌≡◌, ◌≤◌};
ghost use Rattle.tree_text.specs.Steps.{after_digit, after_number, after_sign, after, if_is, inside, first_reader, finished, HasRoom, IsReading};

use crate::parts::Parts;
use crate::stage::{Role, Stage, Word};

/// What has been read of a text.
#[derive(Clone, Copy)]
pub(crate) struct Reader {
    parts: Parts,
    stage: Stage,
}

impl Reader {
    /// Before the first byte.
    pub(crate) fn new() -> Self
        ensures { result ≡ first_reader }
    {
        Reader {
            parts: Parts::none(),
            stage: Stage::Inside(Word::Edges, 0),
        }
    }

    /// What is read after one more byte, if a text of the grammar goes on so.
    #[tactic(auto, unfolding(crate::specs::Steps::after))]
    pub(crate) fn after(&self, byte: u8) -> Option<Self>
        requires { IsReading self.now }
        ensures { result ≡ after self.now byte }
    {
        if byte.is_ascii_digit() {
            let stage = self.after_digit(byte - b'0')?;
            return Some(Reader {
                parts: self.parts,
                stage,
            });
        }
        self.after_sign(byte)
    }

    /// The parts, if the text may end here.
    pub(crate) fn finished(&self) -> Option<Parts>
        requires { IsReading self.now }
        ensures { result ≡ finished self.now }
    {
        match self.stage {
            Stage::Number(Role::Mark, vertex) => Some(self.parts.with_mark(vertex)),
            Stage::NoMarks => Some(self.parts),
            _ => None,
        }
    }

    /// The stage after a digit.
    fn after_digit(&self, digit: u8) -> Option<Stage>
        requires { digit ≤ 9 }
        ensures { result ≡ after_digit self.now.parts self.now.stage digit }
    {
        match self.stage {
            Stage::Start(role) => Some(Stage::Number(role, digit)),
            Stage::Number(role, number) if 0 < number && number < 10 => {
                Some(Stage::Number(role, number * 10 + digit))
            }
            Stage::MoreEdges if self.parts.edges.len() < 10 => {
                Some(Stage::Number(Role::FirstEnd, digit))
            }
            Stage::MoreColours if self.parts.colours.len() < 11 => {
                Some(Stage::Number(Role::Colour, digit))
            }
            Stage::FirstMark => Some(Stage::Number(Role::Mark, digit)),
            _ => None,
        }
    }

    /// What is read after a byte that is no digit.
    fn after_sign(&self, byte: u8) -> Option<Self>
        requires { IsReading self.now }
        ensures { result ≡ after_sign self.now.parts self.now.stage byte }
    {
        let parts = self.parts;
        match self.stage {
            Stage::Inside(word, count) => {
                if_is(byte, word.letters()[count], parts, inside(word, count + 1))
            }
            Stage::Number(role, number) => after_number(parts, role, number, byte),
            Stage::MoreEdges => if_is(byte, b'c', parts, Stage::Inside(Word::Colours, 1)),
            Stage::MoreColours if 2 <= parts.colours.len() => {
                if_is(byte, b'm', parts, Stage::Inside(Word::Marks, 1))
            }
            Stage::FirstMark => if_is(byte, b'-', parts, Stage::NoMarks),
            _ => None,
        }
    }
}

/// What is read after a number and a byte that is no digit.
fn after_number(parts: Parts, role: Role, number: u8, byte: u8) -> Option<Reader>
    requires { HasRoom parts role }
    ensures { result ≡ after_number parts role number byte }
{
    match role {
        Role::FirstEnd => if_is(byte, b'-', parts, Stage::Start(Role::SecondEnd(number))),
        Role::SecondEnd(u) => if_is(byte, b':', parts, Stage::Start(Role::Degree(u, number))),
        Role::Degree(u, v) => {
            if_is(
                byte,
                b' ',
                parts.with_edge((u, v), number),
                Stage::MoreEdges,
            )
        }
        Role::Colour => if_is(byte, b' ', parts.with_colour(number), Stage::MoreColours),
        Role::Mark if parts.marks.len() < 11 => {
            if_is(
                byte,
                b' ',
                parts.with_mark(number),
                Stage::Start(Role::Mark),
            )
        }
        Role::Mark => None,
    }
}

/// These parts at this stage, if the byte is the wanted one.
fn if_is(byte: u8, wanted: u8, parts: Parts, stage: Stage) -> Option<Reader>
    ensures { result ≡ if_is byte wanted parts stage }
{
    if byte != wanted {
        return None;
    }
    Some(Reader { parts, stage })
}

/// The stage after so many letters of a word, the space among them.
fn inside(word: Word, count: usize) -> Stage
    ensures { result ≡ inside word count }
{
    if count == word.letters().len() {
        word.after()
    } else {
        Stage::Inside(word, count)
    }
}
