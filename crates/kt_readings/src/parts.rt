//! What a line is put together from.

use kc_text::{Memory, Text};
use kc_tree::{Arg, Branch, CatchPart, Cond, Expr, LocalName, Piece, Type, TypeArg, Word};

/// A part of a line: what is written as it stands, or a node.
#[derive(Clone, Copy)]
pub enum Part<'t> {
    Sign(&'static str),
    Number(u64),
    /// A name by its number.
    Name(usize),
    Units(&'t Text),
    Node(Node<'t>),
}

/// A part of a tree.
#[derive(Clone, Copy)]
pub enum Node<'t> {
    Expr(&'t Expr),
    Piece(&'t Piece),
    Arg(&'t Arg),
    Cond(&'t Cond),
    Branch(&'t Branch),
    Catch(&'t CatchPart),
    Local(&'t LocalName),
    Type(&'t Type),
    TypeArg(&'t TypeArg),
}

/// The parts of a node in the order in which they are written.
pub type Parts<'t> = Vec<Part<'t>>;

/// An expression or a statement as a part.
pub fn expr(of: &Expr) -> Part<'_> {
    Part::Node(Node::Expr(of))
}

/// A type as a part.
pub fn type_(of: &Type) -> Part<'_> {
    Part::Node(Node::Type(of))
}

pub fn local(of: &LocalName) -> Part<'_> {
    Part::Node(Node::Local(of))
}

/// A sign, a node and a sign behind it.
pub fn around<'t>(
    parts: &mut Parts<'t>,
    before: &'static str,
    node: Part<'t>,
    after: &'static str,
) -> Result<(), Memory> {
    parts.extend_from_slice(&[Part::Sign(before), node, Part::Sign(after)])?;
    Ok(())
}

/// A sign and two nodes in brackets.
pub fn bracketed<'t>(
    parts: &mut Parts<'t>,
    sign: &'static str,
    first: Part<'t>,
    second: Part<'t>,
) -> Result<(), Memory> {
    parts.extend_from_slice(&[
        Part::Sign("("),
        Part::Sign(sign),
        Part::Sign(" "),
        first,
        Part::Sign(" "),
        second,
        Part::Sign(")"),
    ])?;
    Ok(())
}

/// A sign alone.
pub fn sign(parts: &mut Parts<'_>, sign: &'static str) -> Result<(), Memory> {
    parts.push(Part::Sign(sign))?;
    Ok(())
}

/// A label with `@` behind it, where there is one.
pub fn label(parts: &mut Parts<'_>, label: &Option<Word>) -> Result<(), Memory> {
    if let Some(word) = label {
        parts.extend_from_slice(&[Part::Name(word.name), Part::Sign("@")])?;
    }
    Ok(())
}

/// A sign with `@` and a label behind it, where there is one.
pub fn labelled(
    parts: &mut Parts<'_>,
    before: &'static str,
    label: &Option<Word>,
) -> Result<(), Memory> {
    sign(parts, before)?;
    if let Some(word) = label {
        parts.extend_from_slice(&[Part::Sign("@"), Part::Name(word.name)])?;
    }
    Ok(())
}
