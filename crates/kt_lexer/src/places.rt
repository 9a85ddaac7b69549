//! Places between two pieces.
ghost use Rattle.std.specs.Prelude.{◌≡◌, ◌≤◌, ◌<◌, ◌+◌, length, OnOk};
ghost use Rattle.kt_lexer.specs.Places as spec;
ghost use Rattle.kt_lexer.specs.Cut.{front as front_of};

use crate::openings::Openings;
use crate::pieces::{Lead, Open, Piece, Shape, piece_of};
use crate::token::{Keyword, Operator};
use crate::words::is_spelled;
use std::alloc::AllocError;

/// A place between two pieces of a text.
#[derive(Drop)]
pub struct Place {
    /// The unit, counted from the start of the text.
    pub at: usize,
    /// The brackets that are open. A string counts as a bracket from its opening quote to its closing one, and so does a hole.
    pub openings: Openings,
    /// What the token before says of the next one.
    pub before: Lead,
    /// A line ends between the token before and this place.
    pub on_new_line: bool,
}

fn is_round(inside: Option<Open>) -> bool
    ensures { result ≡ spec.is_round inside }
{
    matches!(inside, Some(Open::Round))
}

fn is_square(inside: Option<Open>) -> bool
    ensures { result ≡ spec.is_square inside }
{
    matches!(inside, Some(Open::Square))
}

fn is_brace(inside: Option<Open>) -> bool
    ensures { result ≡ spec.is_brace inside }
{
    matches!(inside, Some(Open::Brace))
}

fn in_line(inside: Option<Open>) -> bool
    ensures { result ≡ spec.in_line inside }
{
    is_round(inside) || is_square(inside)
}

fn follows_block(word: &[u16]) -> bool
    ensures { result ≡ spec.follows_block word.now }
{
    is_spelled(word, b"catch") || is_spelled(word, b"finally")
}

/// Before this token a line's end is no mark.
fn joins_lines(shape: Shape, spelling: &[u16]) -> bool
    ensures { result ≡ spec.joins_lines shape spelling.now }
{
    match shape {
        Shape::Op(Operator::And) => true,
        Shape::Op(Operator::Or) => true,
        Shape::Op(Operator::Elvis) => true,
        Shape::Op(Operator::Dot) => true,
        Shape::Op(Operator::SafeDot) => true,
        Shape::Op(Operator::CloseRound) => true,
        Shape::Op(Operator::CloseSquare) => true,
        Shape::Op(Operator::CloseBrace) => true,
        Shape::HoleClose => true,
        Shape::Word(Keyword::Else) => true,
        Shape::Name => follows_block(spelling),
        _ => false,
    }
}

/// What a token that ends at this unit says of the next one.
fn lead_of(shape: Shape, end: usize) -> Lead
    ensures { result ≡ spec.lead_of shape end }
{
    match shape {
        Shape::Op(Operator::Minus) => Lead::Minus,
        Shape::Op(Operator::Dot) => Lead::Dot,
        Shape::Word(Keyword::Break) => Lead::Jump(end),
        Shape::Word(Keyword::Continue) => Lead::Jump(end),
        Shape::Word(Keyword::Return) => Lead::Jump(end),
        _ => Lead::Other,
    }
}

/// Closes the innermost bracket where it fits.
fn close_if(fits: bool, openings: &mut Openings)
    ensures { openings.new ≡ spec.closes fits openings.old }
{
    if fits {
        openings.pop();
    }
}

/// What a token that begins at this unit does to the open brackets.
fn open_behind(shape: Shape, at: usize, openings: &mut Openings) -> Result<(), AllocError>
    ensures { OnOk result (openings.new ≡ spec.open_behind shape at openings.old) }
{
    let inside = openings.innermost();
    match shape {
        Shape::Op(Operator::OpenRound) => openings.push(Open::Round)?,
        Shape::Op(Operator::OpenSquare) => openings.push(Open::Square)?,
        Shape::Op(Operator::OpenBrace) => openings.push(Open::Brace)?,
        Shape::StringOpen => openings.push(Open::Quote(at))?,
        Shape::HoleOpen => openings.push(Open::Hole)?,
        Shape::Op(Operator::CloseRound) => close_if(is_round(inside), openings),
        Shape::Op(Operator::CloseSquare) => close_if(is_square(inside), openings),
        Shape::Op(Operator::CloseBrace) => close_if(is_brace(inside), openings),
        Shape::HoleClose => openings.pop(),
        Shape::StringClose => openings.pop(),
        _ => {}
    }
    Ok(())
}

impl Place {
    /// The piece in front of the text that goes on here.
    pub fn front(&self, text: &[u16]) -> Piece
        requires { self.now.at + length text.now < 9223372036854775808 }
        ensures { result ≡ front_of self.now text.now }
    {
        piece_of(self.openings.innermost(), self.before, self.at, text)
    }

    /// A token of this shape and spelling is marked here.
    pub fn is_marked(&self, shape: Shape, spelling: &[u16]) -> bool
        ensures { result ≡ spec.is_marked self.now shape spelling.now }
    {
        self.on_new_line && !(in_line(self.openings.innermost()) || joins_lines(shape, spelling))
    }

    pub fn pass_gap(&mut self, length: usize)
        requires { self.old.at + length < 9223372036854775808 }
        ensures { self.new ≡ spec.behind_gap self.old length }
    {
        self.at += length;
    }

    pub fn pass_line(&mut self)
        requires { self.old.at < 9223372036854775807 }
        ensures { self.new ≡ spec.behind_line self.old }
    {
        self.at += 1;
        self.on_new_line = true;
    }

    pub fn pass_token(&mut self, shape: Shape, length: usize) -> Result<(), AllocError>
        requires { self.old.at + length < 9223372036854775808 }
        ensures { OnOk result (self.new ≡ spec.behind_token self.old shape length) }
    {
        open_behind(shape, self.at, &mut self.openings)?;
        self.at += length;
        self.before = lead_of(shape, self.at);
        self.on_new_line = false;
        Ok(())
    }
}
