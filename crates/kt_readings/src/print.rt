//! Trees as lines.

use crate::expressions::{
    arg_parts, branch_parts, catch_parts, cond_parts, expr_parts, piece_parts,
};
use crate::parts::{Node, Part, Parts, expr};
use crate::types::{local_parts, type_argument_parts, type_parts};
use kc_text::{Memory, Names, Text};
use kc_tree::Expr;
use std::alloc::Global;

fn write_text(alloc: Global, line: &mut String, text: &Text) -> Result<(), Memory> {
    let bytes = text.to_utf8(alloc)?;
    match std::str::from_utf8(bytes.as_slice()) {
        Ok(text) => line.push_str(text)?,
        Err(_) => line.push_str("?")?,
    }
    Ok(())
}

fn write_number(alloc: Global, line: &mut String, value: u64) -> Result<(), Memory> {
    let digits = format!(in alloc; "{}", value)?;
    line.push_str(digits.as_str())?;
    Ok(())
}

fn write_name(alloc: Global, names: &Names, line: &mut String, name: usize) -> Result<(), Memory> {
    if name < names.len() {
        return write_text(alloc, line, names.text(name));
    }
    line.push_str("?")?;
    Ok(())
}

fn write_sign(line: &mut String, sign: &str) -> Result<(), Memory> {
    line.push_str(sign)?;
    Ok(())
}

/// What a node is put together from.
fn parts_of(alloc: Global, node: Node<'_>) -> Result<Parts<'_>, Memory> {
    let mut parts = Vec::new(alloc);
    fill(&mut parts, node)?;
    Ok(parts)
}

fn fill<'t>(parts: &mut Parts<'t>, node: Node<'t>) -> Result<(), Memory> {
    match node {
        Node::Expr(of) => expr_parts(parts, of),
        Node::Piece(of) => piece_parts(parts, of),
        Node::Arg(of) => arg_parts(parts, of),
        Node::Cond(of) => cond_parts(parts, of),
        Node::Branch(of) => branch_parts(parts, of),
        Node::Catch(of) => catch_parts(parts, of),
        Node::Local(of) => local_parts(parts, of),
        Node::Type(of) => type_parts(parts, of),
        Node::TypeArg(of) => type_argument_parts(parts, of),
    }
}

/// Writes a part at the line's end. Where it is nested deeper than `depth`, memory is wanting.
fn write(
    alloc: Global,
    names: &Names,
    line: &mut String,
    depth: usize,
    part: Part<'_>,
) -> Result<(), Memory> {
    match part {
        Part::Sign(sign) => write_sign(line, sign),
        Part::Number(value) => write_number(alloc, line, value),
        Part::Name(name) => write_name(alloc, names, line, name),
        Part::Units(text) => write_text(alloc, line, text),
        Part::Node(node) => {
            if depth == 0 {
                return Err(Memory);
            }
            let parts = parts_of(alloc, node)?;
            for inner in parts.as_slice() {
                write(alloc, names, line, depth - 1, *inner)?;
            }
            Ok(())
        }
    }
}

/// Parts as a line. Want of memory is also what nests deeper than 500.
pub fn line_of_parts(alloc: Global, names: &Names, parts: &[Part<'_>]) -> Result<String, Memory> {
    let mut line = String::new(alloc);
    for part in parts {
        write(alloc, names, &mut line, 500, *part)?;
    }
    Ok(line)
}

/// An expression or a statement as a line: a sign and its operands in brackets. Want of memory is also what nests deeper than 500.
pub fn line_of(alloc: Global, names: &Names, of: &Expr) -> Result<String, Memory> {
    line_of_parts(alloc, names, &[expr(of)])
}
