//! The classes of a term, each to its power.

ghost use Rattle.std.specs.Prelude.{◌≡◌, ◌≤◌, IfOk, All, length};
ghost use Rattle.toml.specs.View.{table_view, items_view};
ghost use Rattle.problem.specs.Rules.{IsPower};
ghost use Rattle.problem_toml.specs.Classes.{kind_at, parameter_present, class_keys, parameter_at, power_of, powers_from};
ghost use Rattle.problem_toml.specs.Steps.{Gives, GivesSurely};
ghost use Rattle.problem_toml.specs.Tables.{all_known, tables_among};

use crate::error::ProblemError;
use crate::kind::{Kind, kind_of};
use crate::name::Name;
use crate::place::Place;
use crate::table::{as_text, check_known, find, integer, integer_or, limited, value_at};
use crate::version::Version;
use residue::Power;
use std::alloc::Global;
use toml::{Table, Value};

#[tactic(auto, unfolding(crate::specs::Classes::kind_at))]
fn kind(version: Version, term: u32, class: u32, table: &Table) -> Result<Kind, ProblemError>
    ensures { GivesSurely (λ kind. kind) result (kind_at version term class (table_view table.now)) }
{
    let place = Place::Class { term, class };
    let value = value_at(table, place, Name::Kind)?;
    let text = as_text(value, place, Name::Kind)?;
    match kind_of(version, text) {
        Some(kind) => Ok(kind),
        None => Err(ProblemError::UnknownKind { term, class }),
    }
}

fn check_parameter(table: &Table, place: Place, key: Option<Name>) -> Result<(), ProblemError>
    ensures { GivesSurely (λ u. u) result (parameter_present place key (table_view table.now)) }
{
    if let Some(name) = key {
        value_at(table, place, name)?;
    }
    Ok(())
}

fn check_class_keys(
    alloc: Global,
    table: &Table,
    place: Place,
    key: Option<Name>,
) -> Result<(), ProblemError>
    ensures { Gives (λ u. u) result (all_known place (class_keys key) (table_view table.now)) }
{
    match key {
        Some(name) => check_known(alloc, table, place, &[Name::Kind, Name::Power, name]),
        None => check_known(alloc, table, place, &[Name::Kind, Name::Power]),
    }
}

fn parameter(table: &Table, place: Place, key: Option<Name>) -> Result<i64, ProblemError>
    ensures { GivesSurely (λ z. z) result (parameter_at place key (table_view table.now)) }
{
    match key {
        Some(name) => integer(table, place, name),
        None => Ok(0),
    }
}

#[tactic(auto, unfolding(crate::specs::Classes::power_of))]
fn power(
    alloc: Global,
    version: Version,
    marks: u8,
    term: u32,
    class: u32,
    table: &Table,
) -> Result<Power, ProblemError>
    ensures read { Gives (λ power. power) result (power_of version marks term class (table_view table.now)) }
    ensures limits { IfOk result (IsPower marks) }
{
    let kind = kind(version, term, class, table)?;
    let place = Place::Class { term, class };
    let key = kind.parameter_key();
    check_parameter(table, place, key)?;
    check_class_keys(alloc, table, place, key)?;
    let parameter = parameter(table, place, key)?;
    let power = integer_or(find(table, Name::Power), place, Name::Power, 1)?;
    let class = kind.class(place, marks, parameter)?;
    let power = limited(place, Name::Power, 1, 64, power)?;
    Ok(Power { class, power })
}

/// The classes of a term. Each value is a table.
#[tactic(auto, using(crate::proofs::TermArrays::powers_next, crate::proofs::TermArrays::powers_other, crate::proofs::TermArrays::powers_fail, crate::proofs::TermArrays::powers_all, crate::proofs::TermArrays::power_added))]
pub fn powers(
    alloc: Global,
    version: Version,
    marks: u8,
    term: u32,
    values: &[Value],
) -> Result<Vec<Power>, ProblemError>
    requires { length values.now ≤ 16 }
    ensures read { Gives (λ powers. powers.items) result (powers_from version marks term 0 (tables_among (items_view values.now))) }
    ensures limits { IfOk result (λ powers. All (IsPower marks) powers.items) }
    ensures count { IfOk result (λ powers. length powers.items ≤ 16) }
{
    let mut powers = Vec::new(alloc);
    for value in values {
        if let Some(table) = value.as_table() {
            let class = powers.len() as u32;
            let power = power(alloc, version, marks, term, class, table)?;
            powers.push(power)?;
        }
    }
    Ok(powers)
}
