//! The status and the text of what a sum comes to.

ghost use Rattle.std.specs.Prelude.{◌≡◌, ◌<◌, length, true, false, is_some, IfOk};
ghost use Rattle.std.specs.List.{list_all};
ghost use Rattle.problem.specs.Problems.{view as problem_view};
ghost use Rattle.problem.specs.Sums.{count_of};
ghost use Rattle.report.specs.Fractions.{AreSumResidues};
ghost use Rattle.report.specs.Texts.{no_inverse_text};
ghost use Rattle.report.specs.Report.{IsDoneReport, done_status};
ghost use Rattle.report.specs.Statuses.{code_of};

use crate::fractions::fractions;
use crate::status::Status;
use crate::text::{append_integrals, append_labelled_line};
use decorated_tree::write_text;
use problem::Problem;
use recover_fraction::Fraction;
use residue::NoMemory;
use std::alloc::Global;

/// The status of a sum, and the text that is printed of it.
#[derive(Drop)]
pub struct Report {
    /// `Done` if each integral has its fraction, `NoFraction` if some integral has none, `NoInverse` if some tree has no
    /// inverse.
    pub status: Status,
    /// The whole text, with the line feed of its last line.
    pub text: Vec<u8>,
}

/// The report of sums that are done: the count of the trees, and for each integral its residues and its fraction.
///
/// The residues stand integral by integral, and within one integral modulus by modulus; what stands past them is not
/// read. The fraction of an integral is the only one in lowest terms, within the bounds of the problem, that has its
/// residues.
///
/// # Errors
/// Want of memory.
pub fn done(alloc: Global, problem: &Problem, residues: &[u64]) -> Result<Report, NoMemory>
    requires { AreSumResidues (problem_view problem.now) residues.now }
    ensures { IfOk result (λ report. IsDoneReport (problem_view problem.now) residues.now (code_of report.status) report.text.items) }
{
    let fractions = fractions(alloc, problem, residues)?;
    let mut text = Vec::new(alloc);
    append_labelled_line(&mut text, "trees", problem.shape.count())?;
    append_integrals(&mut text, problem, residues, fractions.as_slice())?;
    Ok(Report {
        status: status(fractions.as_slice()),
        text,
    })
}

/// The report of a sum that has a tree without an inverse: the number of the tree, the modulus at `place`, and the text
/// of the tree. The status is `NoInverse`.
///
/// # Errors
/// Want of memory.
pub fn no_inverse(
    alloc: Global,
    problem: &Problem,
    number: u64,
    place: usize,
) -> Result<Report, NoMemory>
    requires number_within { number < count_of (problem_view problem.now) }
    requires place_within { place < length problem.now.moduli }
    ensures status { IfOk result (λ report. code_of report.status ≡ 4) }
    ensures text { IfOk result (λ report. report.text.items ≡ no_inverse_text (problem_view problem.now) number place) }
{
    let text = no_inverse_lines(alloc, problem, number, place)?;
    Ok(Report {
        status: Status::NoInverse,
        text,
    })
}

#[tactic(auto, using(std::proofs::Common::append_assoc))]
fn no_inverse_lines(
    alloc: Global,
    problem: &Problem,
    number: u64,
    place: usize,
) -> Result<Vec<u8>, NoMemory>
    requires number_within { number < count_of (problem_view problem.now) }
    requires place_within { place < length problem.now.moduli }
    ensures { IfOk result (λ text. text.items ≡ no_inverse_text (problem_view problem.now) number place) }
{
    let mut text = Vec::from_slice(alloc, b"no inverse\n")?;
    append_labelled_line(&mut text, "tree", number)?;
    append_labelled_line(&mut text, "modulus", problem.moduli.get(place).get())?;
    write_text(&problem.shape.tree(number), &mut text)?;
    text.extend_from_slice(b"\n")?;
    Ok(text)
}

/// `Done` if each integral has its fraction, otherwise `NoFraction`.
fn status(fractions: &[Option<Fraction>]) -> Status
    ensures { code_of result ≡ done_status fractions.now }
{
    if fractions.iter().all(|fraction| fraction.is_some()) {
        Status::Done
    } else {
        Status::NoFraction
    }
}
