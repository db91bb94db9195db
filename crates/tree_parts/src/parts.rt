//! A decorated tree as its factors read it.

ghost use Rattle.std.specs.Prelude.{◌≡◌, ◌≤◌, sum};

use crate::edges::{ColouredEdge, coloured_edges};
use crate::ends::{Ends, ends_by_vertex};
use crate::marks::{Marks, marks_by_vertex};
use decorated_tree::Tree;
use std::marker::Model;

/// A decorated tree of some shape, with its edges, ends and marks as the factors of a contribution read them. Its sum
/// of degrees is at most 10, and it has at most 12 marks.
///
/// Contracts see the shape and the decorated tree. Every value is one: its edges are a tree, the colours of neighbours
/// differ and are at most the rank, each degree is positive, and each mark is at one of the vertices.
#[derive(Drop)]
pub struct TreeParts {
    tree: Tree,
    rank: u8,
    degree: u8,
    /// The edges, n - 1 entries of 10.
    edges: [ColouredEdge; 10],
    /// The ends at each vertex, n entries of 11.
    ends: [Ends; 11],
    /// The marks at each vertex, n entries of 11.
    marks: [Marks; 11],
}

impl Model for TreeParts {
    ghost use Rattle.tree_parts.specs.Parts.{ShapedTree};

    ghost Value = { ShapedTree };

    ghost use Rattle.tree_parts.specs.PartsFields.{shaped_from, IsShaped};

    ghost view = { shaped_from };

    ghost invariant = { IsShaped };
}

impl TreeParts {
    ghost use Rattle.std.specs.Prelude.{◌≡◌, ℕ, ◌+◌, ◌-◌, ◌<◌, ◌≤◌, IsTrue, All, length, slice_index};
    ghost use Rattle.trees.specs.Decorated.{TreeShape, is_decorated};
    ghost use Rattle.decorated_tree.specs.Trees.{tree_view, is_tree_of};
    ghost use Rattle.localisation.specs.ClassValue.{at_edges, colour_of, ends_at, marks_at};
    ghost use Rattle.tree_parts.specs.Edges.{coloured_edge, IsEdgeOf};
    ghost use Rattle.tree_parts.specs.Ends.{ends_of, IsEndOf};
    ghost use Rattle.tree_parts.specs.Trees.{IsTreeOfRank};

    /// The parts of a decorated tree whose colours are at most `rank`, of at most 11 vertices and 12 marks. It takes no
    /// memory.
    pub fn of(tree: &Tree, rank: u8) -> Self
        requires { IsTreeOfRank rank tree.now }
        ensures tree { result.tree ≡ tree_view tree.now }
        ensures rank { result.shape.rank ≡ rank }
        ensures marks { result.shape.marks ≡ tree.now.m }
        ensures shape { (s : TreeShape) → s.rank ≡ rank → IsTrue (is_tree_of s tree.now) → result.shape ≡ s }
    {
        let vertices = tree.n as usize;
        let pairs = tree.edges.as_slice();
        let colours = &tree.colours[..vertices];
        let degrees = &tree.degrees[..vertices - 1];
        TreeParts {
            tree: *tree,
            rank,
            degree: total(degrees),
            edges: coloured_edges(pairs, colours, degrees),
            ends: ends_by_vertex(pairs, colours, degrees),
            marks: marks_by_vertex(&tree.marks[..tree.m as usize]),
        }
    }

    /// The rank, which is at least each colour.
    pub fn rank(&self) -> u8
        ensures { result ≡ self.now.shape.rank }
    {
        self.rank
    }

    /// The number of vertices, from 2 to 11.
    pub fn vertices(&self) -> u8
        ensures value { result ≡ self.now.tree.vertices }
        ensures least { 2 ≤ result }
        ensures most { result ≤ self.now.shape.degree + 1 }
        ensures limited { result ≤ 11 }
        ensures tree { IsTrue (is_decorated self.now.shape self.now.tree) }
    {
        self.tree.n
    }

    /// The edges, in their order.
    pub fn edges(&self) -> &[ColouredEdge]
        ensures value { result.now ≡ at_edges coloured_edge self.now.tree }
        ensures each { All (IsEdgeOf self.now.shape) result.now }
        ensures limited { self.now.shape.degree ≤ 10 }
    {
        &self.edges[..self.tree.n as usize - 1]
    }

    /// The colour of a vertex, at most the rank.
    pub fn colour(&self, vertex: u8) -> u8
        requires { vertex < self.now.tree.vertices }
        ensures value { result ≡ colour_of self.now.tree vertex }
        ensures within { result ≤ self.now.shape.rank }
    {
        self.tree.colours[vertex as usize]
    }

    /// The ends of edges at a vertex, in the order of the edges: for each the colour of the neighbour and the degree of
    /// the edge. There is at least one, and at most 10.
    pub fn ends_at(&self, vertex: u8) -> &[(u8, u8)]
        requires { vertex < self.now.tree.vertices }
        ensures value { ends_of result.now ≡ ends_at self.now.tree vertex }
        ensures each { All (IsEndOf self.now.shape (colour_of self.now.tree vertex)) result.now }
        ensures some { 1 ≤ length result.now }
        ensures most { length result.now ≤ self.now.shape.degree }
        ensures limited { self.now.shape.degree ≤ 10 }
    {
        let ends = &self.ends[vertex as usize];
        ends.as_slice()
    }

    /// How many edges there are at a vertex: at least one, and at most 10.
    pub fn valence(&self, vertex: u8) -> u8
        requires { vertex < self.now.tree.vertices }
        ensures value { result ≡ length (ends_at self.now.tree vertex) }
        ensures some { 1 ≤ result }
        ensures most { result ≤ self.now.shape.degree }
        ensures limited { result ≤ 10 }
    {
        self.ends_at(vertex).len() as u8
    }

    /// The number of marks, at most 12.
    pub fn mark_count(&self) -> u8
        ensures value { result ≡ length self.now.tree.marks }
        ensures shape { self.now.shape.marks ≡ result }
        ensures limited { result ≤ 12 }
    {
        self.tree.m
    }

    /// The marks at a vertex, in their order. They are counted from 1.
    pub fn marks_at(&self, vertex: u8) -> &[u8]
        requires { vertex < self.now.tree.vertices }
        ensures value { result.now ≡ marks_at self.now.tree vertex }
        ensures limited { length result.now ≤ 12 }
    {
        let marks = &self.marks[vertex as usize];
        marks.as_slice()
    }

    /// The vertex of a mark, which is counted from 1.
    pub fn vertex_of(&self, mark: u8) -> u8
        requires least { 1 ≤ mark }
        requires most { mark ≤ self.now.shape.marks }
        ensures value { result ≡ slice_index self.now.tree.marks (mark - 1) }
        ensures within { result < self.now.tree.vertices }
    {
        self.tree.marks[mark as usize - 1]
    }
}

/// The sum of the degrees of edges.
fn total(degrees: &[u8]) -> u8
    requires { sum degrees.now ≤ 10 }
    ensures { result ≡ sum degrees.now }
{
    let total: u64 = degrees.iter().map(|degree| *degree as u64).sum();
    total as u8
}
