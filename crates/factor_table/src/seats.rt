//! What a table is of, and how seats pass on what they know.

ghost use Rattle.std.specs.Prelude.{◌≡◌, ℕ, ◌<◌, ◌≤◌, ◌++◌, [], ◌∷◌, length};
ghost use Rattle.factor_table.specs.declared.key.Key.{Key};
ghost use Rattle.factor_table.specs.declared.table.Move.{Move};
ghost use Rattle.factor_table.specs.KeyPlaces.{IsKeyWithin, first_factor};
ghost use Rattle.factor_table.specs.Factors.{sizes_of};
ghost use Rattle.factor_table.specs.Seats.{parameters_of, word_count, place_in, IsSeatOf, known_of, moves_of};

use crate::key::Key;
use crate::parameters::Parameters;
use crate::table::{Divide, FactorSeat, FactorTable, Gather};

impl FactorTable {
    /// What the factors are of.
    pub fn parameters(&self) -> &Parameters
        ensures { result.now ≡ parameters_of self.now }
    {
        &self.parameters
    }

    /// How many words the table has.
    pub fn words(&self) -> usize
        ensures value { result ≡ word_count self.now }
        ensures limited { result < 9300000 }
    {
        self.layout.words()
    }

    /// The place of the word of a key for the modulus at an index. No other key and index of the table have it.
    pub fn place(&self, key: Key, modulus: u8) -> usize
        requires key { IsKeyWithin (sizes_of (parameters_of self.now)) key }
        requires modulus { modulus < length (parameters_of self.now).moduli }
        ensures value { result ≡ place_in self.now key modulus }
        ensures within { (first_factor (sizes_of (parameters_of self.now)) ≤ result) × (result < word_count self.now) }
        ensures one_to_one { (other : Key) (index : ℕ) → IsKeyWithin (sizes_of (parameters_of self.now)) other
            → index < length (parameters_of self.now).moduli
            → place_in self.now other index ≡ result → (other ≡ key) × (index ≡ modulus) }
    {
        self.layout.place(key, modulus)
    }

    /// A new seat of the table, which knows the words that `seat` knows.
    pub fn split_seat(&self, seat: &mut FactorSeat) -> FactorSeat
        requires { IsSeatOf seat.old self.now }
        ensures seat { IsSeatOf seat.new self.now }
        ensures new_seat { IsSeatOf result self.now }
        ensures known { known_of seat.new ≡ known_of seat.old }
        ensures new_known { known_of result ≡ known_of seat.old }
        ensures moves { moves_of seat.new ≡ moves_of seat.old ++ Move.Split ∷ [] }
        ensures new_moves { moves_of result ≡ [] }
    {
        let other = self.table.shared.split_seat::<Divide>(&mut seat.seat);
        FactorSeat { seat: other }
    }

    /// Lets `seat` know the words that `other` knows too, and ends `other`.
    pub fn join_seat(&self, seat: &mut FactorSeat, other: FactorSeat)
        requires seat { IsSeatOf seat.old self.now }
        requires other { IsSeatOf other self.now }
        ensures seat { IsSeatOf seat.new self.now }
        ensures known { known_of seat.new ≡ known_of seat.old ++ known_of other }
        ensures moves { moves_of seat.new ≡ moves_of seat.old ++ Move.Join ∷ [] }
    {
        let FactorSeat { seat: other } = other;
        self.table.shared.join_seat::<Gather>(&mut seat.seat, other);
    }
}
