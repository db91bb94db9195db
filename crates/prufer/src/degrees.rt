//! How many edges are at each vertex.

ghost use Rattle.std.specs.Prelude.{◌≡◌, ℕ, suc, ◌<◌, ◌≤◌, ◌==◌, ◌&&◌, nat_lt, if◌then◌else◌, length, position, slice_index, All, IfSome, IsTrue};
ghost use Rattle.std.specs.List.{list_all};
ghost use Rattle.lists.specs.Members.{count_in};
ghost use Rattle.trees.specs.Words.{degree_of};

/// The degrees in the tree of a word on `n` vertices: a vertex has one edge more than the word has its letters.
pub(crate) fn degrees_of_word(n: u8, letters: &[u8]) -> [u8; 11]
    requires most { n ≤ 11 }
    requires short { length letters.now ≤ 9 }
    requires within { All (λ letter. letter < n) letters.now }
    ensures long { length result ≡ 11 }
    ensures degrees { (v : ℕ) → v < 11
        → slice_index result v ≡ (if nat_lt v n then suc (count_in v letters.now) else 0) }
{
    let mut degrees = [0; 11];
    degrees[..n as usize].fill(1);
    for letter in letters {
        degrees[*letter as usize] += 1;
    }
    degrees
}

/// The degrees in a set of edges.
pub(crate) fn degrees_of_edges(edges: &[(u8, u8)]) -> [u8; 11]
    requires short { length edges.now ≤ 10 }
    requires within { IsTrue (list_all (λ e. nat_lt e.0 e.1 && nat_lt e.1 11) edges.now) }
    ensures long { length result ≡ 11 }
    ensures degrees { (v : ℕ) → v < 11 → slice_index result v ≡ degree_of v edges.now }
{
    let mut degrees = [0; 11];
    for edge in edges {
        degrees[edge.0 as usize] += 1;
        degrees[edge.1 as usize] += 1;
    }
    degrees
}

/// The first vertex with one edge.
pub(crate) fn first_leaf(degrees: &[u8; 11]) -> Option<u8>
    ensures { result ≡ position (λ degree. degree == 1) degrees.now }
{
    let place = place_of_one(degrees)?;
    Some(place as u8)
}

/// The first index that holds 1.
fn place_of_one(degrees: &[u8; 11]) -> Option<usize>
    ensures first { result ≡ position (λ degree. degree == 1) degrees.now }
    ensures within { IfSome result (λ place. place < 11) }
{
    degrees.iter().position(|degree| *degree == 1)
}
