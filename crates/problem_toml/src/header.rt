//! The numbers at the top of a problem text.

ghost use Rattle.std.specs.Prelude.{◌≡◌, ◌≤◌, ◌<◌, ◌^◌, ◌-◌, ℕ, false, length, IfOk, OnOk};
ghost use Rattle.std.specs.List.{list_any};
ghost use Rattle.toml.specs.View.{table_view};
ghost use Rattle.trees.specs.TreeNumbers.{tree_count};
ghost use Rattle.residue.specs.Limits.{is_beyond_limit};
ghost use Rattle.problem.specs.Rules.{dimension_of};
ghost use Rattle.problem_toml.specs.Header.{written_view, written_of, marks_in, lists_fit, bounds_of, header_of, header_shape, IsHeader};
ghost use Rattle.problem_toml.specs.Reading.{shape_fits};
ghost use Rattle.problem_toml.specs.Steps.{Gives, GivesSurely};
ghost use Rattle.problem_toml.specs.Tables.{within};
ghost use Rattle.problem_toml.specs.Versions.{most_listed};

use crate::error::ProblemError;
use crate::name::Name;
use crate::place::Place;
use crate::table::{check_count, find, integer, integer_or, integers, limited};
use crate::version::Version;
use decorated_tree::Shape;
use residue::Setup;
use std::alloc::Global;
use toml::Table;

const MOST_BOUND: i64 = (1 << 62) - 1;

/// The numbers as they are written, each of its type.
#[derive(Drop)]
pub struct Written {
    pub rank: i64,
    pub degree: i64,
    pub marks: i64,
    pub weights: Vec<i64>,
    pub moduli: Vec<i64>,
    pub numerator_bound: i64,
    pub denominator_bound: i64,
}

/// The numbers that are no lists, within their limits.
#[derive(Clone, Copy, Drop)]
pub struct Header {
    pub rank: u8,
    pub degree: u8,
    pub marks: u8,
    pub top_bound: u64,
    pub bottom_bound: u64,
}

#[tactic(auto, unfolding(crate::specs::Header::marks_in))]
fn marks(table: &Table) -> Result<i64, ProblemError>
    ensures { GivesSurely (λ z. z) result (marks_in (table_view table.now)) }
{
    integer_or(find(table, Name::Marks), Place::Top, Name::Marks, 0)
}

/// The numbers at the top of a table, each of its type.
#[tactic(auto, unfolding(crate::specs::Header::written_of))]
pub fn read_written(alloc: Global, table: &Table) -> Result<Written, ProblemError>
    ensures { Gives written_view result (written_of (table_view table.now)) }
{
    let top = Place::Top;
    let rank = integer(table, top, Name::Rank)?;
    let degree = integer(table, top, Name::Degree)?;
    let marks = marks(table)?;
    let weights = integers(alloc, table, top, Name::Weights)?;
    let moduli = integers(alloc, table, top, Name::Moduli)?;
    let numerator_bound = integer(table, top, Name::NumeratorBound)?;
    let denominator_bound = integer(table, top, Name::DenominatorBound)?;
    Ok(Written {
        rank,
        degree,
        marks,
        weights,
        moduli,
        numerator_bound,
        denominator_bound,
    })
}

fn bound(name: Name, number: i64) -> Result<u64, ProblemError>
    ensures read { GivesSurely (λ n. n) result (within Place.Top name 1 (2 ^ 62 - 1) number) }
    ensures limits { IfOk result (λ n. (1 ≤ n) × (n < 2 ^ 62)) }
{
    if number < 1 || number > MOST_BOUND {
        return Err(ProblemError::OutOfLimits {
            place: Place::Top,
            name,
        });
    }
    Ok(number as u64)
}

fn is_any_beyond_limit(weights: &[i64]) -> bool
    ensures { result ≡ list_any is_beyond_limit weights.now }
{
    weights
        .iter()
        .any(|weight| weight.unsigned_abs() > Setup::GREATEST)
}

#[tactic(auto, unfolding(crate::specs::Header::lists_fit))]
fn check_lists(weights: &[i64], moduli: &[i64]) -> Result<(), ProblemError>
    ensures read { GivesSurely (λ u. u) result (lists_fit weights.now moduli.now) }
    ensures weights { OnOk result (list_any is_beyond_limit weights.now ≡ false) }
    ensures moduli { OnOk result ((1 ≤ length moduli.now) × (length moduli.now ≤ 8)) }
{
    if is_any_beyond_limit(weights) {
        return Err(ProblemError::OutOfLimits {
            place: Place::Top,
            name: Name::Weights,
        });
    }
    check_count(Place::Top, Name::Moduli, 1, 8, moduli.len())
}

#[tactic(auto, unfolding(crate::specs::Header::bounds_of))]
fn bounds(written: &Written) -> Result<(u64, u64), ProblemError>
    ensures read { GivesSurely (λ bounds. bounds) result (bounds_of (written_view written.now)) }
    ensures top { IfOk result (λ bounds. (1 ≤ bounds.0) × (bounds.0 < 2 ^ 62)) }
    ensures bottom { IfOk result (λ bounds. (1 ≤ bounds.1) × (bounds.1 < 2 ^ 62)) }
{
    let top = bound(Name::NumeratorBound, written.numerator_bound)?;
    let bottom = bound(Name::DenominatorBound, written.denominator_bound)?;
    Ok((top, bottom))
}

/// The numbers of the header, each within its limits. `count` is how many terms or integrals the text lists.
#[tactic(auto, unfolding(crate::specs::Header::header_of))]
pub fn read_header(
    version: Version,
    written: &Written,
    count: usize,
) -> Result<Header, ProblemError>
    ensures read { GivesSurely (λ header. header) result (header_of version (written_view written.now) count) }
    ensures limits { IfOk result IsHeader }
    ensures weights { OnOk result (list_any is_beyond_limit written.now.weights.items ≡ false) }
    ensures moduli { OnOk result ((1 ≤ length written.now.moduli.items) × (length written.now.moduli.items ≤ 8)) }
    ensures count { OnOk result ((1 ≤ count) × (count ≤ most_listed version)) }
{
    let top = Place::Top;
    let rank = limited(top, Name::Rank, 1, 12, written.rank)?;
    let degree = limited(top, Name::Degree, 1, 10, written.degree)?;
    let marks = limited(top, Name::Marks, 0, 12, written.marks)?;
    check_lists(written.weights.as_slice(), written.moduli.as_slice())?;
    let (top_bound, bottom_bound) = bounds(written)?;
    check_count(top, version.list_key(), 1, version.most_listed(), count)?;
    Ok(Header {
        rank,
        degree,
        marks,
        top_bound,
        bottom_bound,
    })
}

impl Header {
    /// The dimension (r+1)d + r - 3 + m that each term has as its degree.
    pub fn dimension(&self) -> u64
        requires { IsHeader self.now }
        ensures { result ≡ dimension_of (header_shape self.now) }
    {
        let (r, d, m) = (self.rank as u64, self.degree as u64, self.marks as u64);
        (r + 1) * d + r + m - 3
    }

    /// The shape of the decorated trees, of which there are at most 2^40.
    #[tactic(auto, unfolding(crate::specs::Reading::shape_fits))]
    pub fn shape(&self) -> Result<Shape, ProblemError>
        requires { IsHeader self.now }
        ensures read { GivesSurely (λ shape. shape) result (shape_fits (header_shape self.now)) }
        ensures shape { IfOk result (λ shape. shape ≡ header_shape self.now) }
        ensures few { OnOk result (tree_count (header_shape self.now) ≤ 2 ^ 40) }
    {
        match Shape::new(self.rank, self.degree, self.marks) {
            Ok(shape) => Ok(shape),
            Err(_) => Err(ProblemError::TooManyTrees),
        }
    }
}
