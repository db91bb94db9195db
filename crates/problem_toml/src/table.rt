//! Looking up what a table holds.

ghost use Rattle.std.specs.Prelude.{◌≡◌, ◌≤◌, IfOk, OnOk, IsOkUnless, true, length, option_map, option_copied, string_bytes, find, not, is_some};
ghost use Rattle.std.specs.List.{list_all};
ghost use Rattle.std.specs.BTreeMap.{keys};
ghost use Rattle.toml.specs.Data.{get_member, as_table};
ghost use Rattle.toml.specs.View.{view, table_view, items_view};
ghost use Rattle.problem_toml.specs.Keys.{key_of};
ghost use Rattle.problem_toml.specs.Steps.{Gives, GivesSurely, keep};
ghost use Rattle.problem_toml.specs.Tables.{present, all_present, all_known, is_known, integer_of, string_of, integers_of, integers_in, tables_among, tables_of, integer_or, integer_at, integers_at, tables_at, within, count_within};

use crate::error::ProblemError;
use crate::name::Name;
use crate::place::Place;
use residue::Bytes;
use std::alloc::Global;
use toml::{Table, Value};

/// The value at a key.
pub fn find(table: &Table, name: Name) -> Option<&Value>
    ensures { option_map (λ v. view v.now) result ≡ get_member (key_of name) (table_view table.now) }
{
    table.get(name.key())
}

/// The value at a key that has to be there.
pub fn value_at(table: &Table, place: Place, name: Name) -> Result<&Value, ProblemError>
    ensures { GivesSurely (λ v. view v.now) result (present place name (table_view table.now)) }
{
    match find(table, name) {
        Some(value) => Ok(value),
        None => Err(ProblemError::MissingKey { place, name }),
    }
}

/// The value as an integer; refused if it is of another type.
pub fn as_integer(value: &Value, place: Place, name: Name) -> Result<i64, ProblemError>
    ensures { GivesSurely (λ z. z) result (integer_of place name (view value.now)) }
{
    match value.as_integer() {
        Some(number) => Ok(number),
        None => Err(ProblemError::WrongType { place, name }),
    }
}

/// The value as a text; refused if it is of another type.
pub fn as_text(value: &Value, place: Place, name: Name) -> Result<&str, ProblemError>
    ensures { GivesSurely (λ text. text.now) result (string_of place name (view value.now)) }
{
    match value.as_str() {
        Some(text) => Ok(text),
        None => Err(ProblemError::WrongType { place, name }),
    }
}

/// The integer at a key that has to be there.
#[tactic(auto, unfolding(crate::specs::Tables::integer_at))]
pub fn integer(table: &Table, place: Place, name: Name) -> Result<i64, ProblemError>
    ensures { GivesSurely (λ z. z) result (integer_at place name (table_view table.now)) }
{
    as_integer(value_at(table, place, name)?, place, name)
}

/// The integer, or `otherwise` if it is left out.
pub fn integer_or(
    value: Option<&Value>,
    place: Place,
    name: Name,
    otherwise: i64,
) -> Result<i64, ProblemError>
    ensures { GivesSurely (λ z. z) result (integer_or place name otherwise (option_map (λ v. view v.now) value.entry)) }
{
    match value {
        Some(value) => as_integer(value, place, name),
        None => Ok(otherwise),
    }
}

/// The integers of an array at a key that has to be there.
#[tactic(auto, unfolding(crate::specs::Tables::integers_at))]
pub fn integers(
    alloc: Global,
    table: &Table,
    place: Place,
    name: Name,
) -> Result<Vec<i64>, ProblemError>
    ensures { Gives (λ v. v.items) result (integers_at place name (table_view table.now)) }
{
    as_integers(alloc, value_at(table, place, name)?, place, name)
}

fn as_integers(
    alloc: Global,
    value: &Value,
    place: Place,
    name: Name,
) -> Result<Vec<i64>, ProblemError>
    ensures { Gives (λ v. v.items) result (integers_of place name (view value.now)) }
{
    match value.as_array() {
        Some(values) => integers_among(alloc, values.as_slice(), place, name),
        None => Err(ProblemError::WrongType { place, name }),
    }
}

#[tactic(auto, using(crate::proofs::Arrays::integers_next, crate::proofs::Arrays::integers_fail, crate::proofs::Arrays::integers_all))]
fn integers_among(
    alloc: Global,
    values: &[Value],
    place: Place,
    name: Name,
) -> Result<Vec<i64>, ProblemError>
    ensures { Gives (λ v. v.items) result (integers_in place name (items_view values.now)) }
{
    let mut numbers = Vec::new(alloc);
    for value in values {
        let number = as_integer(value, place, name)?;
        numbers.push(number)?;
    }
    Ok(numbers)
}

/// The values of an array of tables at a key that has to be there.
#[tactic(auto, unfolding(crate::specs::Tables::tables_at))]
pub fn tables(table: &Table, place: Place, name: Name) -> Result<&[Value], ProblemError>
    ensures read { GivesSurely (λ values. tables_among (items_view values.now)) result (tables_at place name (table_view table.now)) }
    ensures count { IfOk result (λ values. length (tables_among (items_view values.now)) ≡ length values.now) }
{
    as_tables(value_at(table, place, name)?, place, name)
}

#[tactic(auto, using(crate::proofs::Arrays::tables_seen, crate::proofs::Arrays::tables_counted))]
fn as_tables(value: &Value, place: Place, name: Name) -> Result<&[Value], ProblemError>
    ensures read { GivesSurely (λ values. tables_among (items_view values.now)) result (tables_of place name (view value.now)) }
    ensures count { IfOk result (λ values. length (tables_among (items_view values.now)) ≡ length values.now) }
{
    match value.as_array() {
        Some(values) if are_tables(values.as_slice()) => Ok(values.as_slice()),
        _ => Err(ProblemError::WrongType { place, name }),
    }
}

fn are_tables(values: &[Value]) -> bool
    ensures { result ≡ list_all (λ value. is_some (as_table (view value))) values.now }
{
    values.iter().all(|value| value.is_table())
}

/// Every key of the list has to be there.
#[tactic(auto, using(std::proofs::lemmas::List::drop_more))]
pub fn check_present(table: &Table, place: Place, names: &[Name]) -> Result<(), ProblemError>
    ensures { GivesSurely (λ u. u) result (all_present place names.now (table_view table.now)) }
{
    for name in names {
        value_at(table, place, *name)?;
    }
    Ok(())
}

fn is_known_key(key: &str, names: &[Name]) -> bool
    ensures { result ≡ is_known key.now names.now }
{
    names.iter().any(|name| name.key() == key)
}

// The least key that is none of these.
fn first_unknown_key<'a>(table: &'a Table, names: &[Name]) -> Option<&'a String>
    ensures { option_copied result ≡ find (λ k. not (is_known (string_bytes k) names.now)) (keys table.now) }
{
    table.keys().find(|key| !is_known_key(key.as_str(), names))
}

fn bytes(alloc: Global, text: &str) -> Result<Bytes, ProblemError>
    ensures value { IfOk result (λ bytes. bytes ≡ text.now) }
    ensures refused { IsOkUnless result ProblemError.NoMemory }
{
    Ok(Bytes::of(Vec::from_slice(alloc, text.as_bytes())?))
}

/// Every key of the table has to be one of the list.
pub fn check_known(
    alloc: Global,
    table: &Table,
    place: Place,
    names: &[Name],
) -> Result<(), ProblemError>
    ensures { Gives (λ u. u) result (all_known place names.now (table_view table.now)) }
{
    match first_unknown_key(table, names) {
        None => Ok(()),
        Some(key) => Err(ProblemError::UnknownKey {
            place,
            key: bytes(alloc, key.as_str())?,
        }),
    }
}

/// A number that has to be from `least` to `most`.
pub fn limited(
    place: Place,
    name: Name,
    least: u8,
    most: u8,
    number: i64,
) -> Result<u8, ProblemError>
    ensures read { GivesSurely (λ n. n) result (within place name least most number) }
    ensures limits { IfOk result (λ n. (least ≤ n) × (n ≤ most)) }
{
    if number < least as i64 || number > most as i64 {
        return Err(ProblemError::OutOfLimits { place, name });
    }
    Ok(number as u8)
}

/// A number of elements that has to be from `least` to `most`.
pub fn check_count(
    place: Place,
    name: Name,
    least: usize,
    most: usize,
    count: usize,
) -> Result<(), ProblemError>
    ensures read { GivesSurely (λ u. u) result (count_within place name least most count) }
    ensures limits { OnOk result ((least ≤ count) × (count ≤ most)) }
{
    check(
        least <= count && count <= most,
        ProblemError::OutOfLimits { place, name },
    )
}

/// A rule that has to hold, or else this refusal.
pub fn check(holds: bool, refusal: ProblemError) -> Result<(), ProblemError>
    ensures read { GivesSurely (λ u. u) result (keep holds refusal) }
    ensures holds { OnOk result (holds ≡ true) }
{
    if holds { Ok(()) } else { Err(refusal) }
}
