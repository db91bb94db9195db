//! The tree of a word, and the word of a tree.

ghost use Rattle.std.specs.Prelude.{◌≡◌, ℕ, List, false, ◌+◌, ◌<◌, ◌≤◌, ◌↔◌, nat_lt, length, All, ◌&&◌, ◌==◌, IsTrue, IsOk, IsErr, IfOk, IfSome, IfNone};
ghost use Rattle.std.specs.List.{list_all};
ghost use Rattle.trees.specs.Edges.{is_tree};
ghost use Rattle.trees.specs.Words.{edge_between, decoded, encoded};
ghost use Rattle.prufer.specs.EdgeLists.{is_edge_list};
ghost use Rattle.prufer.specs.Correspondence.{IsWordOver, WordsAreTrees};

use crate::degrees::{degrees_of_edges, degrees_of_word, first_leaf};
use crate::edges::Edges;
use crate::pairs::Pairs;
use crate::word::Word;

/// The edges are not a tree on the vertices 0 to n - 1.
#[derive(Clone, Copy, Debug, PartialEq, Eq)]
pub struct NotATree;

/// The tree on the vertices 0 to `n` - 1 that a word stands for.
///
/// `n` is from 2 to 11, and the word has `n` - 2 letters, each below `n`. To each letter in turn the smallest remaining
/// leaf is joined, and the last two vertices are joined at the end (Prüfer 1918).
pub fn decode(n: u8, word: &Word) -> Edges
    requires least { 2 ≤ n }
    requires most { n ≤ 11 }
    requires letters { length word.now + 2 ≡ n }
    requires within { All (λ letter. letter < n) word.now }
    ensures edges { result ≡ decoded n word.now }
    ensures tree { IsTrue (is_tree n result) }
{
    let letters = word.as_slice();
    let mut degrees = degrees_of_word(n, letters);
    let mut edges = Pairs::empty();
    for letter in letters {
        let leaf = first_leaf(&degrees).unwrap();
        edges = edges.with(edge_between(leaf, *letter));
        degrees[leaf as usize] = 0;
        degrees[*letter as usize] -= 1;
    }
    let first = first_leaf(&degrees).unwrap();
    degrees[first as usize] = 0;
    let last = first_leaf(&degrees).unwrap();
    Edges::from_pairs(edges.with(edge_between(first, last)))
}

/// The word of a tree on the vertices 0 to `n` - 1, or [`NotATree`] exactly if the edges are none.
///
/// `n` is from 2 to 11. While more than two vertices remain, the number of the neighbour of the smallest leaf is
/// written, and the leaf is removed (Prüfer 1918). The word is the only one that decodes to the edges.
pub fn encode(n: u8, edges: &Edges) -> Result<Word, NotATree>
    requires least { 2 ≤ n }
    requires most { n ≤ 11 }
    ensures not_a_tree { IsErr result ↔ (is_tree n edges.now ≡ false) }
    ensures tree { IsOk result ↔ IsTrue (is_tree n edges.now) }
    ensures value { IfOk result (λ word. word ≡ encoded n edges.now) }
    ensures fits { IfOk result (λ word. IsWordOver n word) }
    ensures decodes { IfOk result (λ word. decoded n word ≡ edges.now) }
    ensures only { IfOk result (λ word. (other : List ℕ)
        → IsWordOver n other → decoded n other ≡ edges.now → other ≡ word) }

    // The theorem behind these clauses, which holds for every n from 2 on.
    ensures one_to_one { WordsAreTrees n }
{
    let pairs = edges.pairs();
    if !can_be_tree(n, pairs.as_slice()) {
        return Err(NotATree);
    }
    word_of(n, pairs).ok_or(NotATree)
}

/// The word of the edges if they are a tree. Their number and their ends are those of a tree.
fn word_of(n: u8, edges: Pairs) -> Option<Word>
    requires least { 2 ≤ n }
    requires most { n ≤ 11 }
    requires form { IsTrue (is_edge_list edges) }
    requires count { length edges + 1 ≡ n }
    requires below { IsTrue (list_all (λ e. nat_lt e.1 n) edges) }
    ensures none { IfNone result (is_tree n edges ≡ false) }
    ensures some { IfSome result (λ word. IsTrue (is_tree n edges) × (word ≡ encoded n edges)) }
{
    let mut left = edges;
    let mut degrees = degrees_of_edges(left.as_slice());
    let mut word = Word::empty();
    for _ in 2..n {
        let leaf = first_leaf(&degrees)?;
        let neighbour = left.neighbour(leaf);
        word.push(neighbour);
        left = left.without_edge_at(leaf);
        degrees[leaf as usize] = 0;
        degrees[neighbour as usize] -= 1;
    }
    Some(word)
}

/// The edge between two vertices, with its smaller end first.
fn edge_between(u: u8, v: u8) -> (u8, u8)
    ensures { result ≡ edge_between u v }
{
    if u < v { (u, v) } else { (v, u) }
}

/// Whether there is one edge less than vertices, and each edge ends below `n`, as in each tree.
fn can_be_tree(n: u8, edges: &[(u8, u8)]) -> bool
    requires { length edges.now ≤ 10 }
    ensures { result ≡ ((length edges.now + 1 == n) && list_all (λ e. nat_lt e.1 n) edges.now) }
{
    edges.len() + 1 == n as usize && are_below(n, edges)
}

/// Whether the second end of each edge is below `n`.
fn are_below(n: u8, edges: &[(u8, u8)]) -> bool
    ensures { result ≡ list_all (λ e. nat_lt e.1 n) edges.now }
{
    edges.iter().all(|edge| edge.1 < n)
}
