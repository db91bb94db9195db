//! A new table and its seats.

ghost use Rattle.std.specs.Prelude.{◌≡◌, ℕ, ◌+◌, ◌-◌, ◌<◌, ◌≤◌, ◌++◌, [], length, All, IfOk, OnOk, replicate, map};
ghost use Rattle.arithmetic.specs.Numbers.{reduce};
ghost use Rattle.factor_table.specs.KeyPlaces.{AreWithinLimits, first_factor, words_of};
ghost use Rattle.factor_table.specs.Factors.{parameters, sizes_of};
ghost use Rattle.factor_table.specs.Rule.{first_words, opening_view};
ghost use Rattle.factor_table.specs.Seats.{parameters_of, word_count, IsSeatOf, known_of, moves_of};

use crate::layout::Layout;
use crate::parameters::Parameters;
use crate::table::{Divide, FactorSeat, FactorTable, View, Words};
use atomic_table::{Seat, Table};
use residue::{Class, Moduli, NoMemory, Setup};
use std::alloc::Global;

impl FactorTable {
    /// A table in which no word is filled, and so many seats of it. All of its memory is taken here.
    ///
    /// The degree is from 1 to 10, there are 1 to 8 moduli and at most 512 classes, and 1 to 64 seats. The table has
    /// fewer than 9,300,000 words of 8 bytes, and as many as these sizes ask for. It keeps copies of what it is given.
    /// While it is made, its words are in memory twice.
    ///
    /// # Errors
    /// `NoMemory` if there is no memory for the table or the seats.
    pub fn new(
        alloc: Global,
        setup: &Setup,
        degree: u8,
        moduli: &Moduli,
        classes: &[Class],
        seats: u32,
    ) -> Result<(FactorTable, Vec<FactorSeat>), NoMemory>
        requires degree { (1 ≤ degree) × (degree ≤ 10) }
        requires moduli { (1 ≤ length moduli.now) × (length moduli.now ≤ 8) }
        requires classes { length classes.now ≤ 512 }
        requires seats { (1 ≤ seats) × (seats ≤ 64) }
        ensures parameters { IfOk result (λ r.
            parameters_of r.0 ≡ parameters setup.now degree moduli.now classes.now) }
        ensures words { IfOk result (λ r.
            word_count r.0 ≡ words_of (sizes_of (parameters setup.now degree moduli.now classes.now))) }
        ensures limited { IfOk result (λ r. word_count r.0 < 9300000) }
        ensures seats { IfOk result (λ r. length r.1.items ≡ seats) }
        ensures seated { IfOk result (λ r. All (λ s. IsSeatOf s r.0 × (known_of s ≡ []) × (moves_of s ≡ [])) r.1.items) }
    {
        let parameters = Parameters::copied(alloc, setup, degree, moduli, classes)?;
        let layout = Layout::new(parameters.sizes());
        let mut dealt = Vec::with_capacity(alloc, seats as usize)?;
        let (table, mut dealer) = open(alloc, &parameters, &layout)?;
        for _ in 0..seats {
            let seat = table.shared.split_seat::<Divide>(&mut dealer);
            dealt.push_reserved(FactorSeat { seat });
        }
        let factors = FactorTable {
            table,
            parameters,
            layout,
        };
        Ok((factors, dealt))
    }
}

// The words of a table in which none is filled, and a seat that knows none.
fn open(
    alloc: Global,
    parameters: &Parameters,
    layout: &Layout,
) -> Result<(Words, Seat<(), View>), NoMemory>
    requires { layout.now.sizes ≡ sizes_of parameters.now }
    ensures table { IfOk result (λ r. (r.0.shared.key ≡ parameters.now)
        × (r.0.shared.table_id.words ≡ words_of (sizes_of parameters.now)) × (r.0.shared.table_id.slots ≡ 0)) }
    ensures seat { IfOk result (λ r. (r.1.table_id ≡ r.0.shared.table_id)
        × (r.1.me ≡ (opening_view parameters.now, []))) }
{
    let words = blank_words(alloc, parameters, layout)?;
    let opened = Table::of_words(alloc, words.as_slice(), parameters)?;
    Ok(opened)
}

// The weights, the moduli and as many zeros as there are words for factors.
fn blank_words(
    alloc: Global,
    parameters: &Parameters,
    layout: &Layout,
) -> Result<Vec<u64>, NoMemory>
    requires { layout.now.sizes ≡ sizes_of parameters.now }
    ensures { IfOk result (λ words. words.items ≡ first_words parameters.now
        ++ replicate (words_of (sizes_of parameters.now) - first_factor (sizes_of parameters.now)) 0) }
{
    let count = layout.words();
    let mut words = Vec::with_capacity(alloc, count)?;
    push_weights(&mut words, &parameters.setup)?;
    push_moduli(&mut words, &parameters.moduli)?;
    for _ in words.len()..count {
        words.push(0)?;
    }
    Ok(words)
}

// Appends the weights modulo 2^64.
fn push_weights(words: &mut Vec<u64>, setup: &Setup) -> Result<(), NoMemory>
    ensures { OnOk result (words.new.items ≡ words.old.items ++ map (reduce 18446744073709551616) setup.now) }
{
    for colour in 0..setup.rank() + 1 {
        words.push(word_of_weight(setup.weight(colour)))?;
    }
    Ok(())
}

// Appends the moduli.
fn push_moduli(words: &mut Vec<u64>, moduli: &Moduli) -> Result<(), NoMemory>
    ensures { OnOk result (words.new.items ≡ words.old.items ++ moduli.now) }
{
    for index in 0..moduli.len() {
        words.push(moduli.get(index).get())?;
    }
    Ok(())
}

// A weight modulo 2^64.
#[tactic(auto, unfolding(arithmetic::specs::Numbers::reduce))]
fn word_of_weight(weight: i64) -> u64
    ensures { result ≡ reduce 18446744073709551616 weight }
{
    if weight >= 0 {
        weight as u64
    } else {
        u64::MAX - (-(weight + 1)) as u64
    }
}
