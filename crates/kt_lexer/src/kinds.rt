//! What a token holds.
ghost use Rattle.std.specs.Prelude.{◌≤◌, ◌<◌, ◌-◌, ◌+◌, length, take, drop, IfOk};
ghost use Rattle.kc_text.specs.NameList.{KeepsNumbers};
ghost use Rattle.kt_lexer.specs.Cut.{IsKind, Numbers};

use crate::pieces::Shape;
use crate::strings::text_units;
use crate::token::TokenKind;
use kc_text::{Memory, Names, Text};
use std::alloc::Global;

/// The number of this name, which goes to the list's end if it is not there yet. It takes memory only for a new name, and where
/// the scratch text has too little.
fn number_of_name(
    alloc: Global,
    scratch: &mut Text,
    names: &mut Names,
    name: &[u16],
) -> Result<usize, Memory>
    ensures number { IfOk result (λ number. Numbers names.new number name.now) }
    ensures keeps { KeepsNumbers names.old names.new }
{
    scratch.refill(name)?;
    if let Some(number) = names.find(scratch) {
        return Ok(number);
    }
    let units = Vec::from_slice(alloc, name)?;
    names.add(Text::from_units(alloc, units)?)
}

/// The kind of the token of this shape and length in front of a text. The scratch text may hold anything.
pub fn kind_of(
    alloc: Global,
    scratch: &mut Text,
    names: &mut Names,
    text: &[u16],
    shape: Shape,
    count: usize,
) -> Result<TokenKind, Memory>
    requires some { 1 ≤ count }
    requires within { count ≤ length text.now }
    ensures kind { IfOk result (λ kind. IsKind names.new text.now count shape kind) }
    ensures keeps { KeepsNumbers names.old names.new }
{
    match shape {
        Shape::Word(keyword) => Ok(TokenKind::Word(keyword)),
        Shape::Name => {
            let name = number_of_name(alloc, scratch, names, &text[..count])?;
            Ok(TokenKind::Name(name))
        }
        Shape::Label => {
            let name = number_of_name(alloc, scratch, names, &text[..count - 1])?;
            Ok(TokenKind::Label(name))
        }
        Shape::LabelUse => {
            let name = number_of_name(alloc, scratch, names, &text[1..count])?;
            Ok(TokenKind::LabelUse(name))
        }
        Shape::Number { value, long } => Ok(TokenKind::Number { value, long }),
        Shape::CharLiteral(unit) => Ok(TokenKind::CharLiteral(unit)),
        Shape::StringOpen => Ok(TokenKind::StringOpen),
        Shape::StringText => {
            let units = text_units(alloc, text)?;
            Ok(TokenKind::StringText(units))
        }
        Shape::StringName => {
            let name = number_of_name(alloc, scratch, names, &text[1..count])?;
            Ok(TokenKind::StringName(name))
        }
        Shape::HoleOpen => Ok(TokenKind::HoleOpen),
        Shape::HoleClose => Ok(TokenKind::HoleClose),
        Shape::StringClose => Ok(TokenKind::StringClose),
        Shape::Op(operator) => Ok(TokenKind::Op(operator)),
    }
}
