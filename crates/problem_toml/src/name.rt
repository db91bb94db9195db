//! The keys of the format.

ghost use Rattle.std.specs.Prelude.{◌≡◌};
ghost use Rattle.problem_toml.specs.Keys.{key_of};

/// The keys of the format.
#[derive(Clone, Copy, Debug, PartialEq, Eq, Drop)]
pub enum Name {
    Version,
    Rank,
    Degree,
    Marks,
    Weights,
    Moduli,
    NumeratorBound,
    DenominatorBound,
    Term,
    Integral,
    Coefficient,
    Classes,
    Kind,
    Mark,
    B,
    Q,
    K,
    Power,
}

impl Name {
    /// The key as it is written.
    pub fn key(self) -> &'static str
        ensures { result.now ≡ key_of self }
    {
        match self {
            Name::Version => "version",
            Name::Rank => "rank",
            Name::Degree => "degree",
            Name::Marks => "marks",
            Name::Weights => "weights",
            Name::Moduli => "moduli",
            Name::NumeratorBound => "numerator_bound",
            Name::DenominatorBound => "denominator_bound",
            Name::Term => "term",
            Name::Integral => "integral",
            Name::Coefficient => "coefficient",
            Name::Classes => "classes",
            Name::Kind => "kind",
            Name::Mark => "mark",
            Name::B => "b",
            Name::Q => "q",
            Name::K => "k",
            Name::Power => "power",
        }
    }
}
