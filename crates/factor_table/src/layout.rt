//! Where the word of each key stands in a table.

ghost use Rattle.std.specs.Prelude.{◌≡◌, ℕ, ◌+◌, ◌-◌, ◌*◌, ◌<◌, ◌≤◌, ◌^◌};
ghost use Rattle.factor_table.specs.declared.key.Key.{Key};
ghost use Rattle.factor_table.specs.declared.layout.Sizes.{Sizes};
ghost use Rattle.factor_table.specs.KeyPlaces.{AreWithinLimits, AreStrides, IsEnd, IsKeyWithin, ends, flags, end_number, flag_number, first_factor, words_of_modulus, words_of, word_place};

use crate::key::Key;

/// How many of each a table is of.
#[derive(Clone, Copy, Debug, PartialEq, Eq, Drop)]
pub struct Sizes {
    /// The number of colours, from 1 to 13.
    pub colours: usize,
    /// The greatest degree, at most 10.
    pub degree: usize,
    /// The number of moduli, at most 8.
    pub moduli: usize,
    /// The number of classes, at most 512.
    pub classes: usize,
}

// Products of the sizes, and the places of the first words of each kind for the modulus at index 0.
#[derive(Clone, Copy, Debug, Drop)]
pub struct Strides {
    ends: usize,
    flags: usize,
    first_edge: usize,
    first_flag: usize,
    first_tip: usize,
    first_tangent: usize,
    first_pair: usize,
    first_class_edge: usize,
    first_class_vertex: usize,
    words_of_modulus: usize,
}

/// The places of the words of a table: the place of a key is the index of its word.
///
/// A place is a sum of a few products by strides, which are computed once.
#[derive(Debug, Drop)]
pub struct Layout {
    /// The sizes of the table, within their limits.
    pub sizes: Sizes,
    strides: Strides,
    pub ghost limits: { AreWithinLimits sizes },
    ghost laid: { AreStrides sizes strides },
}

impl Layout {
    /// The layout of a table of these sizes, which are within their limits.
    pub fn new(sizes: Sizes) -> Self
        requires { AreWithinLimits sizes }
        ensures { result.sizes ≡ sizes }
    {
        let ends = sizes.colours * sizes.degree;
        let flags = sizes.colours * ends;
        let first_edge = sizes.colours + sizes.moduli;
        let first_flag = first_edge + flags;
        let first_tip = first_flag + flags;
        let first_tangent = first_tip + flags;
        let first_pair = first_tangent + sizes.colours;
        let first_class_edge = first_pair + flags * ends;
        let first_class_vertex = first_class_edge + sizes.classes * flags;
        let end = first_class_vertex + sizes.classes * ends;
        Layout {
            sizes,
            strides: Strides {
                ends,
                flags,
                first_edge,
                first_flag,
                first_tip,
                first_tangent,
                first_pair,
                first_class_edge,
                first_class_vertex,
                words_of_modulus: end - first_edge,
            },
        }
    }

    /// How many words the table has.
    #[tactic(auto, unfolding(crate::specs::KeyPlaces::words_of))]
    pub fn words(&self) -> usize
        ensures value { result ≡ words_of self.now.sizes }
        ensures limited { result < 9300000 }
    {
        self.strides.first_edge + self.sizes.moduli * self.strides.words_of_modulus
    }

    /// The place of the word of a key for the modulus at an index. No other key and modulus of the table have it.
    pub fn place(&self, key: Key, modulus: u8) -> usize
        requires key { IsKeyWithin self.now.sizes key }
        requires modulus { modulus < self.now.sizes.moduli }
        ensures value { result ≡ word_place self.now.sizes key modulus }
        ensures within { (first_factor self.now.sizes ≤ result) × (result < words_of self.now.sizes) }
        ensures one_to_one { (other : Key) (n : ℕ) → IsKeyWithin self.now.sizes other → n < self.now.sizes.moduli
            → word_place self.now.sizes other n ≡ result → (other ≡ key) × (n ≡ modulus) }
    {
        self.place_by_kind(key, modulus)
    }

    // The same place, kind by kind.
    fn place_by_kind(&self, key: Key, modulus: u8) -> usize
        requires key { IsKeyWithin self.now.sizes key }
        requires modulus { modulus < self.now.sizes.moduli }
        ensures { result ≡ word_place self.now.sizes key modulus }
    {
        match key {
            Key::Edge { i, j, a } => self.edge(i, j, a, modulus),
            Key::Flag { c, u, a } => self.flag(c, u, a, modulus),
            Key::Tangent { c } => self.tangent(c, modulus),
            Key::Pair { c, c1, a1, c2, a2 } => self.pair(c, c1, a1, c2, a2, modulus),
            Key::ClassEdge { class, i, j, a } => self.class_edge(class, i, j, a, modulus),
            Key::ClassVertex { class, c, s } => self.class_vertex(class, c, s, modulus),
            Key::Tip { c, u, a } => self.tip(c, u, a, modulus),
        }
    }

    /// The place of `Key::Edge`.
    #[inline]
    #[tactic(auto, unfolding(crate::specs::KeyPlaces::word_place))]
    pub fn edge(&self, i: u8, j: u8, a: u8, modulus: u8) -> usize
        requires key { IsKeyWithin self.now.sizes (Key.Edge i j a) }
        requires modulus { modulus < self.now.sizes.moduli }
        ensures { result ≡ word_place self.now.sizes (Key.Edge i j a) modulus }
    {
        let number = self.flag_number(i, j, a);
        self.at(self.strides.first_edge, number, modulus)
    }

    /// The place of `Key::Flag`.
    #[inline]
    #[tactic(auto, unfolding(crate::specs::KeyPlaces::word_place))]
    pub fn flag(&self, c: u8, u: u8, a: u8, modulus: u8) -> usize
        requires key { IsKeyWithin self.now.sizes (Key.Flag c u a) }
        requires modulus { modulus < self.now.sizes.moduli }
        ensures { result ≡ word_place self.now.sizes (Key.Flag c u a) modulus }
    {
        let number = self.flag_number(c, u, a);
        self.at(self.strides.first_flag, number, modulus)
    }

    /// The place of `Key::Tip`.
    #[inline]
    #[tactic(auto, unfolding(crate::specs::KeyPlaces::word_place))]
    pub fn tip(&self, c: u8, u: u8, a: u8, modulus: u8) -> usize
        requires key { IsKeyWithin self.now.sizes (Key.Tip c u a) }
        requires modulus { modulus < self.now.sizes.moduli }
        ensures { result ≡ word_place self.now.sizes (Key.Tip c u a) modulus }
    {
        let number = self.flag_number(c, u, a);
        self.at(self.strides.first_tip, number, modulus)
    }

    /// The place of `Key::Tangent`.
    #[inline]
    #[tactic(auto, unfolding(crate::specs::KeyPlaces::word_place))]
    pub fn tangent(&self, c: u8, modulus: u8) -> usize
        requires key { IsKeyWithin self.now.sizes (Key.Tangent c) }
        requires modulus { modulus < self.now.sizes.moduli }
        ensures { result ≡ word_place self.now.sizes (Key.Tangent c) modulus }
    {
        self.at(self.strides.first_tangent, c as usize, modulus)
    }

    /// The place of `Key::Pair`.
    #[inline]
    #[tactic(auto, unfolding(crate::specs::KeyPlaces::word_place))]
    pub fn pair(&self, c: u8, c1: u8, a1: u8, c2: u8, a2: u8, modulus: u8) -> usize
        requires key { IsKeyWithin self.now.sizes (Key.Pair c c1 a1 c2 a2) }
        requires modulus { modulus < self.now.sizes.moduli }
        ensures { result ≡ word_place self.now.sizes (Key.Pair c c1 a1 c2 a2) modulus }
    {
        let second = self.end_number(c2, a2);
        let number = joined(self.flag_number(c, c1, a1), self.strides.ends, second);
        self.at(self.strides.first_pair, number, modulus)
    }

    /// The place of `Key::ClassEdge`.
    #[inline]
    #[tactic(auto, unfolding(crate::specs::KeyPlaces::word_place))]
    pub fn class_edge(&self, class: u16, i: u8, j: u8, a: u8, modulus: u8) -> usize
        requires key { IsKeyWithin self.now.sizes (Key.ClassEdge class i j a) }
        requires modulus { modulus < self.now.sizes.moduli }
        ensures { result ≡ word_place self.now.sizes (Key.ClassEdge class i j a) modulus }
    {
        let flag = self.flag_number(i, j, a);
        let number = joined(class as usize, self.strides.flags, flag);
        self.at(self.strides.first_class_edge, number, modulus)
    }

    /// The place of `Key::ClassVertex`.
    #[inline]
    #[tactic(auto, unfolding(crate::specs::KeyPlaces::word_place))]
    pub fn class_vertex(&self, class: u16, c: u8, s: u8, modulus: u8) -> usize
        requires key { IsKeyWithin self.now.sizes (Key.ClassVertex class c s) }
        requires modulus { modulus < self.now.sizes.moduli }
        ensures { result ≡ word_place self.now.sizes (Key.ClassVertex class c s) modulus }
    {
        let end = self.end_number(c, s);
        let number = joined(class as usize, self.strides.ends, end);
        self.at(self.strides.first_class_vertex, number, modulus)
    }

    // The number of an end.
    #[inline]
    fn end_number(&self, u: u8, a: u8) -> usize
        requires { IsEnd self.now.sizes u a }
        ensures value { result ≡ end_number self.now.sizes u a }
        ensures limited { result < 2 ^ 33 }
    {
        joined(u as usize, self.sizes.degree, a as usize - 1)
    }

    // The number of a flag.
    #[inline]
    fn flag_number(&self, c: u8, u: u8, a: u8) -> usize
        requires colour { c < self.now.sizes.colours }
        requires end { IsEnd self.now.sizes u a }
        ensures value { result ≡ flag_number self.now.sizes c u a }
        ensures limited { result < 65536 }
    {
        joined(c as usize, self.strides.ends, self.end_number(u, a))
    }

    // The place of a number among the words of a kind, of which the first is at `first` for the modulus at index 0.
    #[inline]
    fn at(&self, first: usize, number: usize, modulus: u8) -> usize
        requires first { first < 2 ^ 40 }
        requires number { number < 2 ^ 40 }
        requires modulus { modulus < self.now.sizes.moduli }
        ensures { result ≡ modulus * words_of_modulus self.now.sizes + first + number }
    {
        modulus as usize * self.strides.words_of_modulus + first + number
    }
}

// The number with the digit `high` before the digit `low`, whose base is `base`.
#[inline]
#[tactic(auto, using(crate::proofs::Strides::small_product))]
fn joined(high: usize, base: usize, low: usize) -> usize
    requires high { high < 65536 }
    requires base { base < 65536 }
    requires low { low < 2 ^ 33 }
    ensures value { result ≡ high * base + low }
    ensures limited { result < 2 ^ 34 }
{
    high * base + low
}
