//! Factors asked of a table, against values from outside and against the plain calls.
ghost use Rattle.std.specs.Prelude.{◌≡◌, ◌<◌, ◌≤◌, length, IfOk};
ghost use Rattle.factor_table.specs.Factors.{IsKeyOf};
ghost use Rattle.factor_table.specs.Seats.{parameters_of, IsSeatOf};

use super::*;
use residue::{Class, Items, Moduli, Modulus, Setup};
use std::alloc::Global;
use std::process::Abort;
use std::test::Fail;
use std::thread::{Threads, join_mut};

const R1: Class = Class::R1 { k: 1 };

// A table with two seats.
#[derive(Drop)]
struct Opened {
    table: FactorTable,
    first: FactorSeat,
    second: FactorSeat,
}

// The moduli of these numbers.
fn moduli_of(alloc: Global, numbers: &[u64]) -> Result<Moduli, Fail> {
    let mut moduli = Vec::new(alloc);
    for number in numbers {
        moduli.push(Modulus::new(*number)?)?;
    }
    Ok(Items::of(moduli))
}

fn open(
    rt: &impl Abort,
    alloc: Global,
    weights: &[i64],
    degree: u8,
    numbers: &[u64],
    classes: &[Class],
) -> Result<Opened, Fail>
    ensures { IfOk result (λ r. IsSeatOf r.first r.table × IsSeatOf r.second r.table) }
{
    let setup = Setup::new(weights)?;
    let moduli = moduli_of(alloc, numbers)?;
    assert!(rt; 1 <= degree && degree <= 10 && 1 <= moduli.len() && moduli.len() <= 8);
    assert!(rt; classes.len() <= 512);
    let (table, mut seats) = FactorTable::new(alloc, &setup, degree, &moduli, classes, 2)?;
    match (seats.pop(), seats.pop()) {
        (Some(second), Some(first)) => Ok(Opened {
            table,
            first,
            second,
        }),
        _ => Err("no seats".into()),
    }
}

// The factor of a key for the modulus at an index, which is checked to be within the table.
fn ask(
    rt: &impl Abort,
    table: &FactorTable,
    seat: &mut FactorSeat,
    key: Key,
    index: u8,
) -> Option<u64>
    requires { IsSeatOf seat.old table.now }
    ensures { IsSeatOf seat.new table.now }
{
    assert!(rt; table.parameters().has_key(key));
    assert!(rt; (index as usize) < table.parameters().moduli.len());
    table.factor(seat, &key, index).ok()
}

#[test]
fn both_seats_find_that_a_bottom_is_no_unit(rt: HostRuntime) -> Result<(), Fail> {
    for (degree, key, residue) in [
        (1, Key::Flag { c: 0, u: 1, a: 1 }, 67),
        // (4 - 1) over 3 is 1, but 3 is no unit modulo 9.
        (3, Key::Tip { c: 0, u: 1, a: 3 }, 1),
    ] {
        let mut opened = open(&rt, rt.alloc(), &[1, 4], degree, &[9, 101], &[])?;
        let first = ask(&rt, &opened.table, &mut opened.first, key, 0);
        let second = ask(&rt, &opened.table, &mut opened.second, key, 0);
        assert_eq!(rt; (first, second), (None, None), "{key:?} modulo 9");
        let other = ask(&rt, &opened.table, &mut opened.second, key, 1);
        assert_eq!(rt; other, Some(residue), "{key:?} modulo 101");
    }
    Ok(())
}

// All keys of a table of these parameters, kind by kind.
fn keys_of(alloc: Global, parameters: &Parameters) -> Result<Vec<Key>, Fail> {
    let colours = parameters.setup.rank() + 1;
    let degree = parameters.degree;
    let mut keys = Vec::new(alloc);
    for c in 0..colours {
        push_key(&mut keys, parameters, Key::Tangent { c })?;
        for u in 0..colours {
            for a in 1..degree.saturating_add(1) {
                push_flags(&mut keys, parameters, c, u, a)?;
            }
        }
    }
    Ok(keys)
}

// The keys of an end at a colour.
fn push_flags(
    keys: &mut Vec<Key>,
    parameters: &Parameters,
    c: u8,
    u: u8,
    a: u8,
) -> Result<(), Fail> {
    push_key(keys, parameters, Key::Edge { i: c, j: u, a })?;
    push_key(keys, parameters, Key::Flag { c, u, a })?;
    push_key(keys, parameters, Key::Tip { c, u, a })?;
    for class in 0..parameters.classes.len().min(512) {
        let class = class as u16;
        push_key(
            keys,
            parameters,
            Key::ClassEdge {
                class,
                i: c,
                j: u,
                a,
            },
        )?;
        push_key(keys, parameters, Key::ClassVertex { class, c, s: a })?;
    }
    for c2 in 0..parameters.setup.rank() + 1 {
        for a2 in 1..parameters.degree.saturating_add(1) {
            let key = Key::Pair {
                c,
                c1: u,
                a1: a,
                c2,
                a2,
            };
            push_key(keys, parameters, key)?;
        }
    }
    Ok(())
}

fn push_key(keys: &mut Vec<Key>, parameters: &Parameters, key: Key) -> Result<(), Fail> {
    if parameters.has_key(key) {
        keys.push(key)?;
    }
    Ok(())
}

// How many answers agreed with those of the plain calls, and how many did not.
#[derive(Clone, Copy, Debug, PartialEq, Eq, Drop)]
struct Agreement {
    agreed: u64,
    differed: u64,
}

// Asks for a key by the call of its kind.
fn ask_by_kind(table: &FactorTable, seat: &mut FactorSeat, key: Key, index: u8) -> Option<u64>
    requires seat { IsSeatOf seat.old table.now }
    requires key { IsKeyOf (parameters_of table.now) key }
    requires index { index < length (parameters_of table.now).moduli }
    ensures { IsSeatOf seat.new table.now }
{
    match key {
        Key::Edge { i, j, a } => table.edge(seat, i, j, a, index).ok(),
        Key::Flag { c, u, a } => table.flag(seat, c, u, a, index).ok(),
        Key::Tangent { c } => Some(table.tangent(seat, c, index)),
        Key::Pair { c, c1, a1, c2, a2 } => table.pair(seat, c, c1, a1, c2, a2, index).ok(),
        Key::ClassEdge { class, i, j, a } => table.class_edge(seat, class, i, j, a, index).ok(),
        Key::ClassVertex { class, c, s } => table.class_vertex(seat, class, c, s, index).ok(),
        Key::Tip { c, u, a } => table.tip(seat, c, u, a, index).ok(),
    }
}

// Asks for a key by both calls, and compares the answers with that of the plain call.
fn compare(
    table: &FactorTable,
    seat: &mut FactorSeat,
    key: Key,
    index: u8,
    so_far: Agreement,
) -> Agreement
    requires { IsSeatOf seat.old table.now }
    ensures { IsSeatOf seat.new table.now }
{
    let parameters = table.parameters();
    if !parameters.has_key(key)
        || index as usize >= parameters.moduli.len()
        || parameters.degree > 10
    {
        return Agreement {
            agreed: so_far.agreed,
            differed: so_far.differed.wrapping_add(1),
        };
    }
    let plain = parameters
        .factor(key, parameters.moduli.get(index as usize))
        .ok();
    let found = table.factor(seat, &key, index).ok();
    let by_kind = ask_by_kind(table, seat, key, index);
    if found == plain && by_kind == plain {
        Agreement {
            agreed: so_far.agreed.wrapping_add(1),
            differed: so_far.differed,
        }
    } else {
        Agreement {
            agreed: so_far.agreed,
            differed: so_far.differed.wrapping_add(1),
        }
    }
}

// Compares all keys modulo all moduli, from the first on or from the last back.
fn compare_all(
    table: &FactorTable,
    seat: &mut FactorSeat,
    keys: &[Key],
    backwards: bool,
) -> Agreement
    requires { IsSeatOf seat.old table.now }
    ensures { IsSeatOf seat.new table.now }
{
    let mut so_far = Agreement {
        agreed: 0,
        differed: 0,
    };
    for index in 0..8 {
        if (index as usize) < table.parameters().moduli.len() {
            for place in 0..keys.len() {
                let place = if backwards {
                    keys.len() - 1 - place
                } else {
                    place
                };
                so_far = compare(table, seat, keys[place], index, so_far);
            }
        }
    }
    so_far
}

// The agreement of two threads, which fill one table from both ends.
fn compare_in_threads<R: Threads>(
    rt: &R,
    opened: &mut Opened,
    keys: &[Key],
) -> (Agreement, Agreement)
    requires { IsSeatOf opened.old.first opened.old.table × IsSeatOf opened.old.second opened.old.table }
{
    let table = &opened.table;
    let first = &mut opened.first;
    let second = &mut opened.second;
    let mut forwards = || -> Agreement
        requires { IsSeatOf first.now table.now }
        ensures { IsSeatOf first.exit.now table.entry.now }
    { compare_all(table, first, keys, false) };
    let mut backwards = || -> Agreement
        requires { IsSeatOf second.now table.now }
        ensures { IsSeatOf second.exit.now table.entry.now }
    { compare_all(table, second, keys, true) };
    join_mut(rt, &mut forwards, &mut backwards)
}

#[test]
fn two_threads_fill_and_read_one_table(rt: HostRuntime) -> Result<(), Fail> {
    let alloc = rt.alloc();
    let classes = [
        Class::Hypersurface { b: 5 },
        Class::Mark { mark: 1 },
        R1,
        Class::Contact,
        Class::Psi { mark: 2 },
    ];
    let mut opened = open(
        &rt,
        alloc,
        &[1, 10, -100, 1000, 7],
        4,
        &[1_000_000_007, 4_611_686_018_427_387_903, 9],
        &classes,
    )?;
    let keys = keys_of(alloc, opened.table.parameters())?;
    // 5 tangents, 80 edges, flags and tips each, 5 * 16 * 16 pairs, and the edges and vertices of 3 classes. Each
    // vertex comes once for each of the 5 colours.
    assert_eq!(rt; keys.len(), 5 + 3 * 80 + 1280 + 3 * 80 + 3 * 100);
    let agreement = compare_in_threads(&rt, &mut opened, keys.as_slice());
    let all = Agreement {
        agreed: 3 * 2065,
        differed: 0,
    };
    assert_eq!(rt; agreement, (all, all));
    Ok(())
}
