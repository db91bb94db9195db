//! The lines of a text.

ghost use Rattle.std.specs.Prelude.{◌≡◌, ◌++◌, ◌<◌, ◌≤◌, length, OnOk, None, get_or};
ghost use Rattle.problem.specs.Problems.{view as problem_view};
ghost use Rattle.problem.specs.Sums.{places_of};
ghost use Rattle.report.specs.Texts.{labelled_line, integral_line, residue_line, residue_lines, fraction_line};
ghost use Rattle.report.specs.Texts.{integral_lines, lines_from};

use crate::fractions::residues_of;
use itoa::Buffer;
use problem::Problem;
use recover_fraction::Fraction;
use residue::{Modulus, NoMemory};

/// Appends a word, a space and a number on a line of their own.
///
/// # Errors
/// `NoMemory` if there is no memory for the text, which may then hold a part of the line.
#[tactic(auto, using(std::proofs::Common::append_assoc))]
pub fn append_labelled_line(text: &mut Vec<u8>, word: &str, number: u64) -> Result<(), NoMemory>
    ensures { OnOk result (text.new.items ≡ text.old.items ++ labelled_line word.now number) }
{
    text.extend_from_slice(word.as_bytes())?;
    text.extend_from_slice(b" ")?;
    text.extend_from_slice(Buffer::new().format(number).as_bytes())?;
    text.extend_from_slice(b"\n")?;
    Ok(())
}

/// Appends the lines of all integrals.
#[tactic(auto, using(std::proofs::lemmas::List::drop_more, std::proofs::Common::append_assoc))]
pub(crate) fn append_integrals(
    text: &mut Vec<u8>,
    problem: &Problem,
    residues: &[u64],
    fractions: &[Option<Fraction>],
) -> Result<(), NoMemory>
    requires enough { places_of (problem_view problem.now) ≤ length residues.now }
    requires as_many { length fractions.now ≡ length problem.now.integrals }
    ensures { OnOk result (text.new.items ≡ text.old.items ++ lines_from (problem_view problem.now) residues.now 0 fractions.now) }
{
    for (integral, fraction) in fractions.iter().enumerate() {
        append_integral(text, problem, residues, integral, fraction)?;
    }
    Ok(())
}

/// Appends the lines of one integral.
#[tactic(auto, using(std::proofs::Common::append_assoc))]
fn append_integral(
    text: &mut Vec<u8>,
    problem: &Problem,
    residues: &[u64],
    integral: usize,
    fraction: &Option<Fraction>,
) -> Result<(), NoMemory>
    requires enough { places_of (problem_view problem.now) ≤ length residues.now }
    requires within { integral < length problem.now.integrals }
    ensures { OnOk result (text.new.items ≡ text.old.items ++ integral_lines (problem_view problem.now) residues.now integral fraction.now) }
{
    append_integral_line(text, problem.integrals.len(), integral)?;
    append_residues(
        text,
        problem.moduli.as_slice(),
        residues_of(problem, residues, integral),
    )?;
    append_fraction(text, fraction)
}

/// Appends the line that names an integral, if there are two or more.
///
/// # Errors
/// `NoMemory` if there is no memory for the text, which may then hold a part of the line.
pub fn append_integral_line(
    text: &mut Vec<u8>,
    count: usize,
    integral: usize,
) -> Result<(), NoMemory>
    ensures { OnOk result (text.new.items ≡ text.old.items ++ integral_line count integral) }
{
    if count > 1 {
        append_labelled_line(text, "integral", integral as u64)?;
    }
    Ok(())
}

/// Appends a line for each modulus, with its residue.
#[tactic(auto, using(std::proofs::lemmas::List::drop_more, std::proofs::Common::append_assoc))]
fn append_residues(text: &mut Vec<u8>, moduli: &[Modulus], residues: &[u64]) -> Result<(), NoMemory>
    requires { length moduli.now ≡ length residues.now }
    ensures { OnOk result (text.new.items ≡ text.old.items ++ residue_lines moduli.now residues.now) }
{
    for (modulus, residue) in moduli.iter().zip(residues) {
        append_residue(text, modulus, *residue)?;
    }
    Ok(())
}

/// Appends the line of one modulus.
#[tactic(auto, using(std::proofs::Common::append_assoc))]
fn append_residue(text: &mut Vec<u8>, modulus: &Modulus, residue: u64) -> Result<(), NoMemory>
    ensures { OnOk result (text.new.items ≡ text.old.items ++ residue_line modulus.now residue) }
{
    text.extend_from_slice(b"residue ")?;
    text.extend_from_slice(Buffer::new().format(modulus.get()).as_bytes())?;
    text.extend_from_slice(b" ")?;
    text.extend_from_slice(Buffer::new().format(residue).as_bytes())?;
    text.extend_from_slice(b"\n")?;
    Ok(())
}

/// Appends the line of a fraction, or that there is none.
#[tactic(auto, using(std::proofs::Common::append_assoc))]
fn append_fraction(text: &mut Vec<u8>, fraction: &Option<Fraction>) -> Result<(), NoMemory>
    ensures { OnOk result (text.new.items ≡ text.old.items ++ fraction_line fraction.now) }
{
    let Some(fraction) = fraction else {
        text.extend_from_slice(b"fraction none\n")?;
        return Ok(());
    };
    text.extend_from_slice(b"fraction ")?;
    text.extend_from_slice(Buffer::new().format(fraction.top).as_bytes())?;
    text.extend_from_slice(b"/")?;
    text.extend_from_slice(Buffer::new().format(fraction.bottom).as_bytes())?;
    text.extend_from_slice(b"\n")?;
    Ok(())
}
