//! Copies of the parameters of a table.

ghost use Rattle.std.specs.Prelude.{◌≡◌, ℕ, ◌<◌, ◌^◌, length, slice_index, IfOk};
ghost use Rattle.factor_table.specs.Factors.{parameters, sizes_of};

use crate::layout::Sizes;
use crate::parameters::{Classes, Parameters};
use residue::{Class, Items, Moduli, Modulus, NoMemory, Setup};
use std::alloc::Global;

impl Parameters {
    /// Parameters of their own, equal to these.
    ///
    /// # Errors
    /// `NoMemory` if there is no memory for them.
    pub fn copied(
        alloc: Global,
        setup: &Setup,
        degree: u8,
        moduli: &Moduli,
        classes: &[Class],
    ) -> Result<Self, NoMemory>
        ensures copied { IfOk result (λ p. p ≡ parameters setup.now degree moduli.now classes.now) }
        ensures limited { IfOk result (λ p. (index : ℕ) → index < length moduli.now
            → slice_index moduli.now index < 2 ^ 62) }
    {
        let setup = setup_like(alloc, setup)?;
        let moduli = moduli_like(alloc, moduli)?;
        let classes = classes_like(alloc, classes)?;
        Ok(Parameters {
            setup,
            degree,
            moduli,
            classes,
        })
    }

    /// How many there are of each.
    pub fn sizes(&self) -> Sizes
        ensures { result ≡ sizes_of self.now }
    {
        Sizes {
            colours: self.setup.rank() as usize + 1,
            degree: self.degree as usize,
            moduli: self.moduli.len(),
            classes: self.classes.len(),
        }
    }
}

// The same weights.
fn setup_like(alloc: Global, setup: &Setup) -> Result<Setup, NoMemory>
    ensures { IfOk result (λ copy. copy ≡ setup.now) }
{
    let mut weights = Vec::new(alloc);
    for colour in 0..setup.rank() + 1 {
        weights.push(setup.weight(colour))?;
    }
    match Setup::new(&weights) {
        Ok(copy) => Ok(copy),
        Err(_) => unreachable!(),
    }
}

// The same moduli, which are below 2^62.
fn moduli_like(alloc: Global, moduli: &Moduli) -> Result<Moduli, NoMemory>
    ensures copied { IfOk result (λ copy. copy ≡ moduli.now) }
    ensures limited { IfOk result (λ _. (index : ℕ) → index < length moduli.now
        → slice_index moduli.now index < 2 ^ 62) }
{
    let mut copies = Vec::new(alloc);
    for index in 0..moduli.len() {
        copies.push(modulus_like(moduli.get(index)))?;
    }
    Ok(Items::of(copies))
}

// The same modulus.
fn modulus_like(modulus: &Modulus) -> Modulus
    ensures copied { result ≡ modulus.now }
    ensures limited { result < 2 ^ 62 }
{
    match Modulus::new(modulus.get()) {
        Ok(copy) => copy,
        Err(_) => unreachable!(),
    }
}

// The same classes.
fn classes_like(alloc: Global, classes: &[Class]) -> Result<Classes, NoMemory>
    ensures { IfOk result (λ copy. copy ≡ classes.now) }
{
    let mut copies = Vec::new(alloc);
    for class in classes {
        copies.push(*class)?;
    }
    Ok(Items::of(copies))
}
