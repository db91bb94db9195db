//! The value of a term at a tree.

ghost use Rattle.std.specs.Prelude.{◌<◌, length, All};
ghost use Rattle.arithmetic.specs.Fractions.{product_of_fractions};
ghost use Rattle.residue.specs.Ratios.{IsRatioOf};
ghost use Rattle.localisation.specs.ClassValue.{term_value};
ghost use Rattle.classes.specs.Classes.{IsPowerFor};
ghost use Rattle.class_factor.specs.Powers.{value_of_powers};

use crate::whole::whole_ratio;
use residue::{Modulus, Power, Ratio, Setup, Term};
use tree_parts::TreeParts;

/// The residues of the top and the bottom of the value of a term at a tree, without a division: the coefficient times
/// the product of the values of its classes, each to its power.
///
/// The rank of the tree is at most that of the weights, and the parameter and the mark of each class, if it has one,
/// are within their limits.
pub fn term_ratio(setup: &Setup, term: &Term, parts: &TreeParts, modulus: &Modulus) -> Ratio
    requires classes { All (IsPowerFor parts.now.shape.marks) term.now.classes }
    requires rank { parts.now.shape.rank < length setup.now }
    ensures { IsRatioOf modulus.now (term_value setup.now term.now parts.now.tree) result }
{
    let number = term.coefficient;
    let coefficient = Ratio::whole(modulus.of_i64(number), modulus);
    let classes = powers_ratio(setup, term.classes.as_slice(), parts, modulus);
    coefficient.times(classes, modulus)
}

/// The product of the values of classes, each to its power.
fn powers_ratio(setup: &Setup, powers: &[Power], parts: &TreeParts, modulus: &Modulus) -> Ratio
    requires classes { All (IsPowerFor parts.now.shape.marks) powers.now }
    requires rank { parts.now.shape.rank < length setup.now }
    ensures { IsRatioOf modulus.now (value_of_powers setup.now parts.now.tree powers.now) result }
{
    let mut product = Ratio::whole(modulus.of_u64(1), modulus);
    for power in powers {
        let value = whole_ratio(setup, &power.class, parts, modulus);
        product = product.times(value.power(power.power as u64, modulus), modulus);
    }
    product
}
