//! Nodes of elaborated trees that have no names in them.

ghost use Rattle.std.specs.Prelude.{◌≡◌, IfOk};
ghost use Rattle.form_elaboration.specs.Nodes as nodes;

use form_parser::Place;
use kc_core::tree::{Core, Kind, Native, Span, TypeTree};
use kc_text::Text;
use sqlite_items::{Boxed, Items};
use std::alloc::{AllocError, Global};

pub fn span(file: usize, place: Place) -> Span
    ensures { result ≡ nodes.span file place }
{
    Span {
        file,
        start: place.start,
        end: place.end,
    }
}

pub fn node(file: usize, place: Place, ty: TypeTree, kind: Kind) -> Core
    ensures { result ≡ nodes.node file place ty kind }
{
    Core {
        span: span(file, place),
        ty,
        kind,
    }
}

pub fn same_type(left: TypeTree, right: TypeTree) -> bool
    ensures { result ≡ nodes.same_type left right }
{
    match (left, right) {
        (TypeTree::Int, TypeTree::Int)
        | (TypeTree::Boolean, TypeTree::Boolean)
        | (TypeTree::String, TypeTree::String)
        | (TypeTree::Unit, TypeTree::Unit) => true,
        _ => false,
    }
}

/// Whether two Ints are equal, or whether they are not.
pub fn equality(
    alloc: Global,
    file: usize,
    place: Place,
    equal: bool,
    left: Boxed<Core>,
    right: Boxed<Core>,
) -> Result<Core, AllocError>
    ensures { IfOk result (λ e. e ≡ nodes.equality file place equal left right) }
{
    let same = node(file, place, TypeTree::Boolean, Kind::Equal { left, right });
    if equal {
        return Ok(same);
    }
    let same = Boxed::new(alloc, same)?;
    Ok(node(file, place, TypeTree::Boolean, Kind::Not(same)))
}

// The text of one line feed, unit 10.
fn line_feed(alloc: Global, file: usize, place: Place) -> Result<Core, AllocError>
    ensures { IfOk result (λ e. e ≡ nodes.line_feed file place) }
{
    let text = Text::from_units(alloc, Vec::from_slice(alloc, &[10])?)?;
    Ok(node(file, place, TypeTree::String, Kind::StrLit(text)))
}

// The value's text and a line feed.
fn line(alloc: Global, file: usize, place: Place, value: Core) -> Result<Core, AllocError>
    ensures { IfOk result (λ e. e ≡ nodes.line file place value) }
{
    let mut parts = Items::new(alloc);
    parts.push(value)?;
    parts.push(line_feed(alloc, file, place)?)?;
    Ok(node(file, place, TypeTree::String, Kind::Concat(parts)))
}

/// A value's text and a line feed, written to the standard output.
pub fn printing(alloc: Global, file: usize, place: Place, value: Core) -> Result<Core, AllocError>
    ensures { IfOk result (λ e. e ≡ nodes.printing file place value) }
{
    let mut values = Items::new(alloc);
    values.push(line(alloc, file, place, value)?)?;
    let native = Native::ConsoleWrite;
    Ok(node(
        file,
        place,
        TypeTree::Unit,
        Kind::CallNative { native, values },
    ))
}
