//! Writing a problem as a text.

ghost use Rattle.std.specs.Prelude.{◌≡◌, ℕ, pos, IfOk, OnOk, Ok, map};
ghost use Rattle.toml.specs.Data.{string, integer, array};
ghost use Rattle.toml.specs.View.{view, table_view, items_view};
ghost use Rattle.problem.specs.Problems.{view as problem_view};
ghost use Rattle.problem_toml.specs.Keys.{key_of};
ghost use Rattle.problem_toml.specs.Kinds.{word_of, parameter_key};
ghost use Rattle.problem_toml.specs.Reading.{reading_of_any_length};
ghost use Rattle.problem_toml.specs.Writing.{insert_member, integer_items, table_items, kind_for, parameter_of, with_parameter, power_table, term_table, integral_table, written_table};

use crate::kind::Kind;
use crate::name::Name;
use problem::Problem;
use residue::{Class, Modulus, NoMemory, Power, Setup, Term, Terms};
use std::alloc::Global;
use toml::{Table, Value};

const VERSION: i64 = 2;

#[tactic(auto, using(crate::proofs::Inserts::members_view_insert))]
fn put(alloc: Global, table: &mut Table, name: Name, value: Value) -> Result<(), NoMemory>
    ensures { OnOk result (table_view table.new ≡ insert_member (key_of name) (view value) (table_view table.old)) }
{
    let key = String::from_str(alloc, name.key())?;
    match table.insert(key, value) {
        Ok(_) => Ok(()),
        Err(_) => Err(NoMemory),
    }
}

#[tactic(auto, using(crate::proofs::Inserts::integer_seen))]
fn put_integer(alloc: Global, table: &mut Table, name: Name, number: i64) -> Result<(), NoMemory>
    ensures { OnOk result (table_view table.new ≡ insert_member (key_of name) (integer number) (table_view table.old)) }
{
    put(alloc, table, name, Value::Integer(number))
}

fn integers(alloc: Global, numbers: &[i64]) -> Result<Vec<Value>, NoMemory>
    ensures { IfOk result (λ v. v.items ≡ map (λ z. Value.Integer z) numbers.now) }
{
    let values = numbers
        .iter()
        .map(|number| Value::Integer(*number))
        .collect(alloc);
    match values {
        Ok(values) => Ok(values),
        Err(_) => Err(NoMemory),
    }
}

#[tactic(auto, using(crate::proofs::Inserts::array_seen))]
fn put_integers(
    alloc: Global,
    table: &mut Table,
    name: Name,
    numbers: &[i64],
) -> Result<(), NoMemory>
    ensures { OnOk result (table_view table.new ≡ insert_member (key_of name) (array (integer_items numbers.now)) (table_view table.old)) }
{
    let values = integers(alloc, numbers)?;
    put(alloc, table, name, Value::Array(values))
}

#[tactic(auto, using(crate::proofs::Inserts::tables_seen))]
fn put_tables(
    alloc: Global,
    table: &mut Table,
    name: Name,
    values: Vec<Value>,
) -> Result<(), NoMemory>
    ensures { OnOk result (table_view table.new ≡ insert_member (key_of name) (array (items_view values.items)) (table_view table.old)) }
{
    put(alloc, table, name, Value::Array(values))
}

#[tactic(auto, using(crate::proofs::Inserts::text_seen))]
fn put_kind(alloc: Global, table: &mut Table, kind: Kind) -> Result<(), NoMemory>
    ensures { OnOk result (table_view table.new ≡ insert_member (key_of Name.Kind) (string (word_of kind)) (table_view table.old)) }
{
    let text = String::from_str(alloc, kind.word())?;
    put(alloc, table, Name::Kind, Value::String(text))
}

impl Kind {
    /// The kind of a class.
    fn of(class: &Class) -> Self
        ensures { result ≡ kind_for class.now }
    {
        match class {
            Class::Mark { .. } => Kind::Mark,
            Class::Hypersurface { .. } => Kind::Hypersurface,
            Class::Incidence { .. } => Kind::Incidence,
            Class::R1 { .. } => Kind::R1,
            Class::Contact => Kind::Contact,
            Class::Psi { .. } => Kind::Psi,
        }
    }

    /// The kind as it is written.
    fn word(self) -> &'static str
        ensures { result.now ≡ word_of self }
    {
        match self {
            Kind::Mark => "mark",
            Kind::Hypersurface => "hypersurface",
            Kind::Incidence => "incidence",
            Kind::R1 => "r1",
            Kind::Contact => "contact",
            Kind::Psi => "psi",
        }
    }
}

// The parameter of a class, 0 for one without.
fn parameter(class: &Class) -> u8
    ensures { result ≡ parameter_of class.now }
{
    match *class {
        Class::Mark { mark } | Class::Psi { mark } => mark,
        Class::Hypersurface { b } => b,
        Class::Incidence { q } => q,
        Class::R1 { k } => k,
        Class::Contact => 0,
    }
}

fn put_parameter(
    alloc: Global,
    table: &mut Table,
    name: Option<Name>,
    parameter: u8,
) -> Result<(), NoMemory>
    ensures { OnOk result (table_view table.new ≡ with_parameter name parameter (table_view table.old)) }
{
    match name {
        Some(name) => put_integer(alloc, table, name, parameter as i64),
        None => Ok(()),
    }
}

#[tactic(auto, unfolding(crate::specs::Writing::power_table))]
fn power_table(alloc: Global, power: &Power) -> Result<Table, NoMemory>
    ensures { IfOk result (λ table. table_view table ≡ power_table power.now) }
{
    let kind = Kind::of(&power.class);
    let mut table = Table::new(alloc);
    put_kind(alloc, &mut table, kind)?;
    put_integer(alloc, &mut table, Name::Power, power.power as i64)?;
    put_parameter(
        alloc,
        &mut table,
        kind.parameter_key(),
        parameter(&power.class),
    )?;
    Ok(table)
}

#[tactic(auto, using(crate::proofs::Inserts::tables_next, crate::proofs::Inserts::tables_all))]
fn power_tables(alloc: Global, powers: &[Power]) -> Result<Vec<Value>, NoMemory>
    ensures { IfOk result (λ values. items_view values.items ≡ table_items (map power_table powers.now)) }
{
    let mut values = Vec::new(alloc);
    for power in powers {
        values.push(Value::Table(power_table(alloc, power)?))?;
    }
    Ok(values)
}

#[tactic(auto, unfolding(crate::specs::Writing::term_table))]
fn term_table(alloc: Global, term: &Term) -> Result<Table, NoMemory>
    ensures { IfOk result (λ table. table_view table ≡ term_table term.now) }
{
    let mut table = Table::new(alloc);
    put_integer(alloc, &mut table, Name::Coefficient, term.coefficient)?;
    let classes = power_tables(alloc, term.classes.as_slice())?;
    put_tables(alloc, &mut table, Name::Classes, classes)?;
    Ok(table)
}

#[tactic(auto, using(crate::proofs::Inserts::tables_next, crate::proofs::Inserts::tables_all))]
fn term_tables(alloc: Global, terms: &[Term]) -> Result<Vec<Value>, NoMemory>
    ensures { IfOk result (λ values. items_view values.items ≡ table_items (map term_table terms.now)) }
{
    let mut values = Vec::new(alloc);
    for term in terms {
        values.push(Value::Table(term_table(alloc, term)?))?;
    }
    Ok(values)
}

#[tactic(auto, unfolding(crate::specs::Writing::integral_table))]
fn integral_table(alloc: Global, terms: &Terms) -> Result<Table, NoMemory>
    ensures { IfOk result (λ table. table_view table ≡ integral_table terms.now) }
{
    let mut table = Table::new(alloc);
    let terms = term_tables(alloc, terms.as_slice())?;
    put_tables(alloc, &mut table, Name::Term, terms)?;
    Ok(table)
}

#[tactic(auto, using(crate::proofs::Inserts::tables_next, crate::proofs::Inserts::tables_all))]
fn integral_tables(alloc: Global, integrals: &[Terms]) -> Result<Vec<Value>, NoMemory>
    ensures { IfOk result (λ values. items_view values.items ≡ table_items (map integral_table integrals.now)) }
{
    let mut values = Vec::new(alloc);
    for terms in integrals {
        values.push(Value::Table(integral_table(alloc, terms)?))?;
    }
    Ok(values)
}

fn weights(alloc: Global, setup: &Setup) -> Result<Vec<i64>, NoMemory>
    ensures { IfOk result (λ weights. weights.items ≡ setup.now) }
{
    let mut weights = Vec::new(alloc);
    for colour in 0..setup.rank() + 1 {
        weights.push(setup.weight(colour))?;
    }
    Ok(weights)
}

fn moduli(alloc: Global, moduli: &[Modulus]) -> Result<Vec<i64>, NoMemory>
    ensures { IfOk result (λ numbers. numbers.items ≡ map pos moduli.now) }
{
    let mut numbers = Vec::new(alloc);
    for modulus in moduli {
        numbers.push(modulus.get() as i64)?;
    }
    Ok(numbers)
}

#[tactic(auto, unfolding(crate::specs::Writing::written_table))]
fn table(alloc: Global, problem: &Problem) -> Result<Table, NoMemory>
    ensures { IfOk result (λ table. table_view table ≡ written_table (problem_view problem.now)) }
{
    let weights = weights(alloc, &problem.setup)?;
    let moduli = moduli(alloc, problem.moduli.as_slice())?;
    let integrals = integral_tables(alloc, problem.integrals.as_slice())?;
    let mut table = Table::new(alloc);
    put_integer(alloc, &mut table, Name::Version, VERSION)?;
    put_integer(alloc, &mut table, Name::Rank, problem.shape.r() as i64)?;
    put_integer(alloc, &mut table, Name::Degree, problem.shape.d() as i64)?;
    put_integer(alloc, &mut table, Name::Marks, problem.shape.m() as i64)?;
    put_integers(alloc, &mut table, Name::Weights, weights.as_slice())?;
    put_integers(alloc, &mut table, Name::Moduli, moduli.as_slice())?;
    put_integer(
        alloc,
        &mut table,
        Name::NumeratorBound,
        problem.top_bound as i64,
    )?;
    put_integer(
        alloc,
        &mut table,
        Name::DenominatorBound,
        problem.bottom_bound as i64,
    )?;
    put_tables(alloc, &mut table, Name::Integral, integrals)?;
    Ok(table)
}

/// A text of version 2 that [`crate::read`] reads as the problem, if it is not too long for it.
///
/// # Errors
/// [`NoMemory`] if the allocator refuses memory.
pub fn write(alloc: Global, problem: &Problem) -> Result<Vec<u8>, NoMemory>
    ensures { IfOk result (λ text. reading_of_any_length text.items ≡ Ok (problem_view problem.now)) }
{
    let table = table(alloc, problem)?;
    match toml::table_to_string(alloc, &table) {
        Ok(text) => Ok(Vec::from_slice(alloc, text.as_str().as_bytes())?),
        Err(_) => Err(NoMemory),
    }
}
