//! How a worker asks the table for a factor.
//!
//! Each call loads one word. Exactly if it finds 0, the factor is computed and the word is filled by one
//! `compare_exchange`. If another worker has filled it meanwhile, the word is the same. No call takes memory.

ghost use Rattle.std.specs.Prelude.{◌≡◌, ℕ, ◌+◌, ◌<◌, ◌^◌, [], ◌∷◌, ◌++◌, length, pos, IfOk};
ghost use Rattle.arithmetic.specs.Fractions.{Fraction, fraction, IsResidue};
ghost use Rattle.residue.specs.Answers.{GivesResidue};
ghost use Rattle.localisation.specs.Weights.{tangent_product};
ghost use Rattle.localisation.specs.EdgeFraction.{edge_fraction};
ghost use Rattle.localisation.specs.VertexFraction.{plain_vertex};
ghost use Rattle.localisation.specs.ClassValue.{class_edge, class_vertex};
ghost use Rattle.vertex_factor.specs.Ends.{end, flag_fraction};
ghost use Rattle.factor_table.specs.declared.key.Key.{Key};
ghost use Rattle.factor_table.specs.declared.table.Move.{Move};
ghost use Rattle.factor_table.specs.Factors.{modulus_in, class_at, IsKeyOf, tip_fraction, IsWordOf, answer_word};
ghost use Rattle.factor_table.specs.Seats.{parameters_of, IsSeatOf, IsFactorIn, known_of, moves_of, place_in, LooksOnce};

use crate::key::Key;
use crate::table::{FactorSeat, FactorTable, Fill, Look};
use residue::NoUnit;

impl FactorTable {
    /// The residue of the factor of a key for the modulus at an index. Afterwards the seat knows its word.
    ///
    /// # Errors
    /// `NoUnit` exactly if the bottom of the factor's fraction and the modulus have a common divisor above 1.
    pub fn factor(&self, seat: &mut FactorSeat, key: &Key, modulus: u8) -> Result<u64, NoUnit>
        requires seat { IsSeatOf seat.old self.now }
        requires key { IsKeyOf (parameters_of self.now) key.now }
        requires modulus { modulus < length (parameters_of self.now).moduli }
        ensures value { IsFactorIn self.now key.now modulus result }
        ensures seat { IsSeatOf seat.new self.now }
        ensures known { known_of seat.new ≡ known_of seat.old ++ place_in self.now key.now modulus ∷ [] }
        ensures moves { LooksOnce (place_in self.now key.now modulus) seat.old seat.new }
    {
        let place = self.layout.place(*key, modulus);
        self.at_place(seat, place, *key, modulus)
    }

    /// The factor of the edge of degree `a` between vertices of the colours `i` and `j`, as `factor` gives it.
    ///
    /// # Errors
    /// `NoUnit` exactly if the bottom of the factor's fraction and the modulus have a common divisor above 1.
    #[inline]
    pub fn edge(
        &self,
        seat: &mut FactorSeat,
        i: u8,
        j: u8,
        a: u8,
        modulus: u8,
    ) -> Result<u64, NoUnit>
        requires seat { IsSeatOf seat.old self.now }
        requires key { IsKeyOf (parameters_of self.now) (Key.Edge i j a) }
        requires modulus { modulus < length (parameters_of self.now).moduli }
        ensures value { GivesResidue (modulus_in (parameters_of self.now) modulus)
            (edge_fraction (parameters_of self.now).setup i j a) result }
        ensures seat { IsSeatOf seat.new self.now }
        ensures known { known_of seat.new
            ≡ known_of seat.old ++ place_in self.now (Key.Edge i j a) modulus ∷ [] }
        ensures moves { LooksOnce (place_in self.now (Key.Edge i j a) modulus) seat.old seat.new }
    {
        let place = self.layout.edge(i, j, a, modulus);
        self.at_place(seat, place, Key::Edge { i, j, a }, modulus)
    }

    /// The factor of the flag of an edge of degree `a` at a vertex of colour `c`, whose other end has the colour `u`,
    /// as `factor` gives it.
    ///
    /// # Errors
    /// `NoUnit` exactly if the bottom of the factor's fraction and the modulus have a common divisor above 1.
    #[inline]
    pub fn flag(
        &self,
        seat: &mut FactorSeat,
        c: u8,
        u: u8,
        a: u8,
        modulus: u8,
    ) -> Result<u64, NoUnit>
        requires seat { IsSeatOf seat.old self.now }
        requires key { IsKeyOf (parameters_of self.now) (Key.Flag c u a) }
        requires modulus { modulus < length (parameters_of self.now).moduli }
        ensures value { GivesResidue (modulus_in (parameters_of self.now) modulus)
            (flag_fraction (parameters_of self.now).setup c u a) result }
        ensures seat { IsSeatOf seat.new self.now }
        ensures known { known_of seat.new
            ≡ known_of seat.old ++ place_in self.now (Key.Flag c u a) modulus ∷ [] }
        ensures moves { LooksOnce (place_in self.now (Key.Flag c u a) modulus) seat.old seat.new }
    {
        let place = self.layout.flag(c, u, a, modulus);
        self.at_place(seat, place, Key::Flag { c, u, a }, modulus)
    }

    /// The factor of the vertex of colour `c` with one mark, under a psi class to the power 1, and one edge of degree
    /// `a` to a vertex of colour `u`, as `factor` gives it.
    ///
    /// # Errors
    /// `NoUnit` exactly if the degree and the modulus have a common divisor above 1.
    #[inline]
    pub fn tip(
        &self,
        seat: &mut FactorSeat,
        c: u8,
        u: u8,
        a: u8,
        modulus: u8,
    ) -> Result<u64, NoUnit>
        requires seat { IsSeatOf seat.old self.now }
        requires key { IsKeyOf (parameters_of self.now) (Key.Tip c u a) }
        requires modulus { modulus < length (parameters_of self.now).moduli }
        ensures value { GivesResidue (modulus_in (parameters_of self.now) modulus)
            (tip_fraction (parameters_of self.now).setup c u a) result }
        ensures seat { IsSeatOf seat.new self.now }
        ensures known { known_of seat.new
            ≡ known_of seat.old ++ place_in self.now (Key.Tip c u a) modulus ∷ [] }
        ensures moves { LooksOnce (place_in self.now (Key.Tip c u a) modulus) seat.old seat.new }
    {
        let place = self.layout.tip(c, u, a, modulus);
        self.at_place(seat, place, Key::Tip { c, u, a }, modulus)
    }

    /// The factor of the vertex of colour `c` without marks and with two edges, of the degrees `a1` and `a2` to
    /// vertices of the colours `c1` and `c2`, as `factor` gives it.
    ///
    /// # Errors
    /// `NoUnit` exactly if the bottom of the factor's fraction and the modulus have a common divisor above 1.
    #[inline]
    pub fn pair(
        &self,
        seat: &mut FactorSeat,
        c: u8,
        c1: u8,
        a1: u8,
        c2: u8,
        a2: u8,
        modulus: u8,
    ) -> Result<u64, NoUnit>
        requires seat { IsSeatOf seat.old self.now }
        requires key { IsKeyOf (parameters_of self.now) (Key.Pair c c1 a1 c2 a2) }
        requires modulus { modulus < length (parameters_of self.now).moduli }
        ensures value { GivesResidue (modulus_in (parameters_of self.now) modulus)
            (plain_vertex (parameters_of self.now).setup c (end c1 a1 ∷ end c2 a2 ∷ []) 0) result }
        ensures seat { IsSeatOf seat.new self.now }
        ensures known { known_of seat.new
            ≡ known_of seat.old ++ place_in self.now (Key.Pair c c1 a1 c2 a2) modulus ∷ [] }
        ensures moves { LooksOnce (place_in self.now (Key.Pair c c1 a1 c2 a2) modulus) seat.old seat.new }
    {
        let place = self.layout.pair(c, c1, a1, c2, a2, modulus);
        self.at_place(seat, place, Key::Pair { c, c1, a1, c2, a2 }, modulus)
    }

    /// The part of the class at an index at the edge of degree `a` between vertices of the colours `i` and `j`, as
    /// `factor` gives it.
    ///
    /// # Errors
    /// `NoUnit` exactly if the bottom of the factor's fraction and the modulus have a common divisor above 1.
    #[inline]
    pub fn class_edge(
        &self,
        seat: &mut FactorSeat,
        class: u16,
        i: u8,
        j: u8,
        a: u8,
        modulus: u8,
    ) -> Result<u64, NoUnit>
        requires seat { IsSeatOf seat.old self.now }
        requires key { IsKeyOf (parameters_of self.now) (Key.ClassEdge class i j a) }
        requires modulus { modulus < length (parameters_of self.now).moduli }
        ensures value { GivesResidue (modulus_in (parameters_of self.now) modulus)
            (class_edge (parameters_of self.now).setup (class_at (parameters_of self.now) class) i j a) result }
        ensures seat { IsSeatOf seat.new self.now }
        ensures known { known_of seat.new
            ≡ known_of seat.old ++ place_in self.now (Key.ClassEdge class i j a) modulus ∷ [] }
        ensures moves { LooksOnce (place_in self.now (Key.ClassEdge class i j a) modulus) seat.old seat.new }
    {
        let place = self.layout.class_edge(class, i, j, a, modulus);
        self.at_place(seat, place, Key::ClassEdge { class, i, j, a }, modulus)
    }

    /// The part of the class at an index at a vertex of colour `c` with `s` edges, as `factor` gives it.
    ///
    /// # Errors
    /// `NoUnit` exactly if the bottom of the factor's fraction and the modulus have a common divisor above 1.
    #[inline]
    pub fn class_vertex(
        &self,
        seat: &mut FactorSeat,
        class: u16,
        c: u8,
        s: u8,
        modulus: u8,
    ) -> Result<u64, NoUnit>
        requires seat { IsSeatOf seat.old self.now }
        requires key { IsKeyOf (parameters_of self.now) (Key.ClassVertex class c s) }
        requires modulus { modulus < length (parameters_of self.now).moduli }
        ensures value { GivesResidue (modulus_in (parameters_of self.now) modulus)
            (class_vertex (parameters_of self.now).setup (class_at (parameters_of self.now) class) c s) result }
        ensures seat { IsSeatOf seat.new self.now }
        ensures known { known_of seat.new
            ≡ known_of seat.old ++ place_in self.now (Key.ClassVertex class c s) modulus ∷ [] }
        ensures moves { LooksOnce (place_in self.now (Key.ClassVertex class c s) modulus) seat.old seat.new }
    {
        let place = self.layout.class_vertex(class, c, s, modulus);
        self.at_place(seat, place, Key::ClassVertex { class, c, s }, modulus)
    }

    /// The residue of the product of the differences of the weight of `c` to those of the other colours, which it
    /// always has.
    #[inline]
    pub fn tangent(&self, seat: &mut FactorSeat, c: u8, modulus: u8) -> u64
        requires seat { IsSeatOf seat.old self.now }
        requires key { IsKeyOf (parameters_of self.now) (Key.Tangent c) }
        requires modulus { modulus < length (parameters_of self.now).moduli }
        ensures value { IsResidue (modulus_in (parameters_of self.now) modulus)
            (fraction (tangent_product (parameters_of self.now).setup c) (pos 1)) result }
        ensures seat { IsSeatOf seat.new self.now }
        ensures known { known_of seat.new
            ≡ known_of seat.old ++ place_in self.now (Key.Tangent c) modulus ∷ [] }
        ensures moves { LooksOnce (place_in self.now (Key.Tangent c) modulus) seat.old seat.new }
    {
        let place = self.layout.tangent(c, modulus);
        match self.at_place(seat, place, Key::Tangent { c }, modulus) {
            Ok(residue) => residue,
            Err(NoUnit) => unreachable!(),
        }
    }

    // The factor of a key whose word is at this place.
    #[inline]
    fn at_place(
        &self,
        seat: &mut FactorSeat,
        place: usize,
        key: Key,
        modulus: u8,
    ) -> Result<u64, NoUnit>
        requires seat { IsSeatOf seat.old self.now }
        requires key { IsKeyOf (parameters_of self.now) key }
        requires modulus { modulus < length (parameters_of self.now).moduli }
        requires place { place ≡ place_in self.now key modulus }
        ensures value { IsFactorIn self.now key modulus result }
        ensures seat { IsSeatOf seat.new self.now }
        ensures known { known_of seat.new ≡ known_of seat.old ++ place_in self.now key modulus ∷ [] }
        ensures moves { LooksOnce (place_in self.now key modulus) seat.old seat.new }
    {
        let found = self.table.shared.load::<Look>(&mut seat.seat, place);
        if found == 0 {
            self.fill(seat, place, key, modulus)
        } else {
            answer_of(found)
        }
    }

    // Computes the factor of a key and fills its word, which is at this place.
    #[cold]
    #[inline(never)]
    fn fill(
        &self,
        seat: &mut FactorSeat,
        place: usize,
        key: Key,
        modulus: u8,
    ) -> Result<u64, NoUnit>
        requires seat { IsSeatOf seat.old self.now }
        requires key { IsKeyOf (parameters_of self.now) key }
        requires modulus { modulus < length (parameters_of self.now).moduli }
        requires place { place ≡ place_in self.now key modulus }
        ensures value { IsFactorIn self.now key modulus result }
        ensures seat { IsSeatOf seat.new self.now }
        ensures known { known_of seat.new ≡ known_of seat.old ++ place_in self.now key modulus ∷ [] }
        ensures moves { moves_of seat.new ≡ moves_of seat.old ++ Move.Fill place ∷ [] }
    {
        let modulo = self.parameters.moduli.get(modulus as usize);
        let answer = self.parameters.factor(key, modulo);
        let word = word_for(answer, modulo.get());
        self.table
            .shared
            .compare_exchange::<Fill>(&mut seat.seat, place, 0, word);
        answer
    }
}

// The word of an answer below the modulus.
fn word_for(answer: Result<u64, NoUnit>, modulus: u64) -> u64
    requires modulus { modulus < 2 ^ 62 }
    requires answer { IfOk answer (λ x. x < modulus) }
    ensures { result ≡ answer_word answer }
{
    match answer {
        Ok(residue) => residue + 1,
        Err(NoUnit) => u64::MAX,
    }
}

// The answer that a word stands for which is not 0.
#[inline]
fn answer_of(word: u64) -> Result<u64, NoUnit>
    requires { 0 < word }
    ensures { (m : ℕ) (f : Fraction) → m < 2 ^ 62 → IsWordOf m f word → GivesResidue m f result }
{
    if word == u64::MAX {
        Err(NoUnit)
    } else {
        Ok(word - 1)
    }
}
