//! Reading the text of a tree.

ghost use Rattle.std.specs.Prelude.{◌≡◌, ◌≤◌, ◌↔◌, true, false, length, IsOk, IfOk, IfErr, IfSome, IsNone, IsTrue, IsErrOf};
ghost use Rattle.std.specs.Result.{IsOkAnd};
ghost use Rattle.lists.specs.Padding.{padded};
ghost use Rattle.trees.specs.Decorated.{DecoratedTree, is_decorated};
ghost use Rattle.trees.specs.Texts.{tree_text};
ghost use Rattle.decorated_tree.specs.Trees.{tree_view, is_tree_of};
ghost use Rattle.prufer.specs.EdgeLists.{is_edge_list};
ghost use Rattle.tree_text.specs.Grammar.{HasText, IsTextOfTree};
ghost use Rattle.tree_text.specs.Refusals.{IsRefusal};
ghost use Rattle.tree_text.specs.Steps.{parts_view, tree_of_parts, IsTextOfParts, IsRefusedAt};

use crate::error::TreeTextError;
use crate::parts::Parts;
use crate::reader::Reader;
use decorated_tree::{Shape, Tree};
use prufer::Edges;

/// Reads the text of a decorated tree of the shape. It takes no memory.
///
/// # Errors
/// [`TreeTextError::Syntax`] exactly if the text is not of the grammar, and [`TreeTextError::NotOfShape`] exactly if it is of
/// the grammar and the text of no decorated tree of the shape.
pub fn read(text: &[u8], shape: &Shape) -> Result<Tree, TreeTextError>
    // What is read is a decorated tree of the shape with this text, and what is refused is refused for its cause.
    ensures tree { IfOk result (λ tree. IsTrue (is_tree_of shape.now tree)) }
    ensures text { IfOk result (λ tree. text.now ≡ tree_text (tree_view tree)) }
    ensures refusal { IfErr result (λ error. IsRefusal shape.now text.now error) }
    // A text of a decorated tree of the shape is read as that tree, and a text with a refusal is refused so.
    ensures only_tree { (g : DecoratedTree) → is_decorated shape.now g ≡ true → text.now ≡ tree_text g →
        IsOkAnd result (λ tree. tree_view tree ≡ g) }
    ensures only_refusal { (error : TreeTextError) → IsRefusal shape.now text.now error → IsErrOf result error }
    ensures accepted { IsOk result ↔ IsTextOfTree shape.now text.now }
{
    prove!(shape.d() <= 10);
    let parts = match parts(text) {
        Ok(parts) => parts,
        Err(place) => return Err(TreeTextError::Syntax { place }),
    };
    match tree_of(&parts, shape) {
        Some(tree) => Ok(tree),
        None => Err(TreeTextError::NotOfShape),
    }
}

/// The parts of a text of the grammar, or how many bytes of the text begin one.
fn parts(text: &[u8]) -> Result<Parts, u32>
    ensures parts { IfOk result (λ parts. IsTextOfParts text.now parts) }
    ensures refused { IfErr result (λ place. IsRefusedAt text.now place) }
{
    let mut reader = Reader::new();
    for (place, byte) in text.iter().enumerate() {
        match reader.after(*byte) {
            Some(next) => reader = next,
            None => return Err(place as u32),
        }
    }
    match reader.finished() {
        Some(parts) => Ok(parts),
        None => Err(text.len() as u32),
    }
}

/// The decorated tree of the shape with these parts, if they are those of one.
fn tree_of(parts: &Parts, shape: &Shape) -> Option<Tree>
    requires { HasText (parts_view parts.now) }
    ensures tree { IfSome result (λ tree. IsTrue (is_tree_of shape.now tree)) }
    ensures parts { IfSome result (λ tree. tree_view tree ≡ parts_view parts.now) }
    ensures none { IsNone result → is_decorated shape.now (parts_view parts.now) ≡ false }
{
    let tree = with_zeros(parts)?;
    if shape.number(&tree).is_err() {
        return None;
    }
    Some(tree)
}

/// The parts in a tree with a vertex for each colour, if the edges are pairs u < v in order.
fn with_zeros(parts: &Parts) -> Option<Tree>
    requires { HasText (parts_view parts.now) }
    ensures some { IfSome result (λ tree. tree ≡ tree_of_parts parts.now) }
    ensures none { IsNone result → is_edge_list parts.now.edges ≡ false }
{
    let edges = Edges::of(parts.edges.as_slice())?;
    Some(Tree {
        n: parts.colours.len() as u8,
        edges,
        colours: colours(parts.colours.as_slice()),
        degrees: degrees(parts.degrees.as_slice()),
        m: parts.marks.len() as u8,
        marks: marks(parts.marks.as_slice()),
    })
}

/// The colours, and zeros after them.
fn colours(numbers: &[u8]) -> [u8; 11]
    requires { length numbers.now ≤ 11 }
    ensures { result ≡ padded 0 11 numbers.now }
{
    let mut colours = [0; 11];
    colours[..numbers.len()].copy_from_slice(numbers);
    colours
}

/// The degrees, and zeros after them.
fn degrees(numbers: &[u8]) -> [u8; 10]
    requires { length numbers.now ≤ 10 }
    ensures { result ≡ padded 0 10 numbers.now }
{
    let mut degrees = [0; 10];
    degrees[..numbers.len()].copy_from_slice(numbers);
    degrees
}

/// The vertices of the marks, and zeros after them.
fn marks(numbers: &[u8]) -> [u8; 12]
    requires { length numbers.now ≤ 12 }
    ensures { result ≡ padded 0 12 numbers.now }
{
    let mut marks = [0; 12];
    marks[..numbers.len()].copy_from_slice(numbers);
    marks
}
