//! Trees and words that are known from outside.

use crate::{Edges, NotATree, Word, decode, encode};

/// The tree of a word, if the word fits the number of vertices.
fn tree_of(n: u8, word: &Word) -> Option<Edges> {
    if n < 2 || n > 11 || word.len() + 2 != n as usize {
        return None;
    }
    if !word.as_slice().iter().all(|letter| *letter < n) {
        return None;
    }
    Some(decode(n, word))
}

/// The word of a tree, if the number of vertices is within its limits.
fn word_of(n: u8, edges: &Edges) -> Option<Result<Word, NotATree>> {
    if n < 2 || n > 11 {
        return None;
    }
    Some(encode(n, edges))
}

/// Whether the word and the pairs stand for each other.
fn stand_for_each_other(n: u8, letters: &[u8], pairs: &[(u8, u8)]) -> bool {
    let Some(word) = Word::of(letters) else {
        return false;
    };
    let Some(edges) = Edges::of(pairs) else {
        return false;
    };
    tree_of(n, &word) == Some(edges) && word_of(n, &edges) == Some(Ok(word))
}

#[test]
fn words_and_their_trees(rt: HostRuntime) {
    // Each word was read from its tree by hand, leaf by leaf.
    let table: [(u8, &[u8], &[(u8, u8)]); 5] = [
        (2, &[], &[(0, 1)]),
        (3, &[0], &[(0, 1), (0, 2)]),
        (4, &[1, 2], &[(0, 1), (1, 2), (2, 3)]),
        (4, &[3, 0], &[(0, 2), (0, 3), (1, 3)]),
        (6, &[3, 3, 3, 4], &[(0, 3), (1, 3), (2, 3), (3, 4), (4, 5)]),
    ];
    for (n, letters, pairs) in table {
        assert!(rt; stand_for_each_other(n, letters, pairs), "at {n}");
    }
}
