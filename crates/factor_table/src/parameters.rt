//! What fixes the factors of a table.

use residue::{Class, Items, Moduli, Setup};

/// A list of classes, in order.
pub type Classes = Items<Class>;

/// What the factors of a table are of.
#[derive(Debug, Drop)]
pub struct Parameters {
    /// The weights, one for each colour.
    pub setup: Setup,
    /// The greatest degree of an edge and the greatest valence of a vertex, from 1 to 10.
    pub degree: u8,
    /// 1 to 8 moduli.
    pub moduli: Moduli,
    /// At most 512 classes.
    pub classes: Classes,
}
