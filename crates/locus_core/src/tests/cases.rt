//! Problems, and what the top call writes of each: the status and the output, then `|` and standard error.

/// Conics in the projective line.
pub const CONICS: &str =
    "version = 1\nrank = 1\ndegree = 2\nweights = [1, 3]\nmoduli = [101, 1001]\n\
    numerator_bound = 100\ndenominator_bound = 100\n\n[[term]]\nclasses = [{ kind = \"r1\", k = 1, power = 2 }]\n";

const LINE: &str = "0 trees 2\nresidue 101 1\nfraction 1/1\n|";

/// Cubics on a quintic threefold.
pub const CUBICS: &str = "version = 1\nrank = 4\ndegree = 3\nweights = [1, 10, 100, 1000, 10000]\n\
    moduli = [1000000007, 1000000009]\nnumerator_bound = 20000000000000\ndenominator_bound = 1000\n\
    [[term]]\nclasses = [{ kind = \"hypersurface\", b = 5 }]\n";

pub const CUBIC_SUM: &str =
    "0 trees 5620\nresidue 1000000007 132021295\nresidue 1000000009 169058332\nfraction 8564575000/27\n|";

/// Quartics on a quintic threefold (Candelas, de la Ossa, Green and Parkes 1991).
pub const QUARTICS: &str =
    "version = 1\nrank = 4\ndegree = 4\nweights = [1, 10, 100, 1000, 10000]\n\
    moduli = [1000000007, 1000000009]\nnumerator_bound = 20000000000000\ndenominator_bound = 1000\n\
    [[term]]\nclasses = [{ kind = \"hypersurface\", b = 5 }]\n";

pub const QUARTIC_SUM: &str =
    "0 trees 176100\nresidue 1000000007 14479504\nresidue 1000000009 670729025\nfraction 15517926796875/64\n|";

/// The problem of the lines in the projective line, whole.
pub const ONE_LINE: &str = "version = 1\nrank = 1\ndegree = 1\nweights = [1, 3]\nmoduli = [101]\n\
    numerator_bound = 10\ndenominator_bound = 4\n[[term]]\nclasses = []\n";

/// What runs tell, and how many shares they have with what sum: one share for each worker, and one for each block of 64
/// trees. The cubics have 88 blocks.
pub const SHARES: [(&[&str], &str, &str, (usize, u64)); 6] = [
    (
        &["locus", "run", "f", "--workers", "64"],
        ONE_LINE,
        LINE,
        (64, 1),
    ),
    (&["locus", "run", "f"], CUBICS, CUBIC_SUM, (1, 88)),
    (
        &["locus", "run", "f", "--workers=2"],
        CUBICS,
        CUBIC_SUM,
        (2, 88),
    ),
    (
        &["locus", "run", "f", "--workers", "7"],
        CUBICS,
        CUBIC_SUM,
        (7, 88),
    ),
    (
        &["locus", "soak", "0", "--workers", "3"],
        "",
        "0 soak 0\ntrees 5620\nresidue 1000000007 132021295\nresidue 1000000009 169058332\nfraction 8564575000/27\n|",
        (3, 88),
    ),
    (
        &["locus", "run", "f", "--workers", "3"],
        "",
        "3 |problem refused 3 MissingKey top version\n",
        (0, 0),
    ),
];

/// The digest of the checkpoint of the conics behind three trees, as SHA-256 gives it.
pub const DIGEST: &str = "a7bd2318184b6f94e9c1099d3dfccbb36e436f91ba5cc7aee076a56099504b35";
