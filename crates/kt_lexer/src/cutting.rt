//! The cut of a text into tokens (Kotlin Language Specification 1.9, "Lexical grammar").
ghost use Rattle.std.specs.Prelude.{◌≡◌, ◌≤◌, ◌<◌, ◌+◌, ℕ, List, [], length, drop, take, IfOk, OnErr};
ghost use Rattle.kc_text.specs.Fail.{IfFound};
ghost use Rattle.kc_text.specs.NameList.{KeepsNumbers};
ghost use Rattle.kt_lexer.specs.Cut as cut;
ghost use Rattle.kt_lexer.specs.Cut.{IsCut, HasFault, HasNoCut};
ghost use Rattle.kt_lexer.specs.declared.token.Token.{Token as TokenValue};

use crate::characters::{text_from, unit_at};
use crate::kinds::kind_of;
use crate::openings::Openings;
use crate::pieces::{Lead, Piece, Shape};
use crate::places::Place;
use crate::token::{LexFault, Token};
use kc_text::{Fail, Memory, Names, Text};
use kc_tree::{Code, Span};
use sqlite_items::Items;
use std::alloc::Global;

/// The place before the first piece, behind a byte order mark that stands first.
fn beginning(alloc: Global, text: &[u16]) -> Place
    ensures { result ≡ cut.beginning text.now }
{
    let at = if unit_at(text, 0) == 65279 { 1 } else { 0 };
    Place {
        at,
        openings: Openings::new(alloc),
        before: Lead::Other,
        on_new_line: false,
    }
}

/// The token of this shape in front of the text that goes on at a place.
fn token_of(
    alloc: Global,
    scratch: &mut Text,
    names: &mut Names,
    file: usize,
    place: &Place,
    text: &[u16],
    shape: Shape,
    count: usize,
) -> Result<Token, Memory>
    requires some { 1 ≤ count }
    requires within { count ≤ length text.now }
    requires fits { place.now.at + count < 9223372036854775808 }
    ensures token { IfOk result (λ token. cut.IsToken names.new file place.now text.now shape count token) }
    ensures keeps { KeepsNumbers names.old names.new }
{
    let marked = place.is_marked(shape, &text[..count]);
    let kind = kind_of(alloc, scratch, names, text, shape, count)?;
    let span = Span {
        file,
        start: place.at,
        end: place.at + count,
    };
    Ok(Token { kind, span, marked })
}

/// What the text's end is at a place outside of strings.
fn fault_at_end(place: &Place) -> Option<LexFault>
    ensures { result ≡ cut.fault_at_end place.now }
{
    match place.openings.open_quote() {
        Some(at) => Some(LexFault {
            at,
            code: Code::UnclosedString,
        }),
        None => None,
    }
}

/// The one cut of the file with number `file` into tokens. Spans are in UTF-16 units. Each name of a token is numbered in `names`,
/// where all numbers that were there before keep their names, also where there is no cut.
///
/// # Errors
///
/// `Found` where the text has no cut: with the first unit that begins no token, comment or white space, or with the opening that
/// stays unclosed. `BadChar`, `BadNumber`, `LiteralTooWide`, `BadEscape`, `BadCharLiteral`, `UnclosedString` or `UnclosedComment`.
pub fn tokens(
    alloc: Global,
    text: &Text,
    file: usize,
    names: &mut Names,
) -> Result<Items<Token>, Fail<LexFault>>
    ensures ok { IfOk result (λ tokens. IsCut names.new file text.now tokens) }
    ensures fault { IfFound result (λ fault. HasFault text.now fault) }
    ensures no_cut { IfFound result (λ _. HasNoCut text.now) }
    ensures keeps { KeepsNumbers names.old names.new }
{
    let units = text.units();
    let mut place = beginning(alloc, units);
    let mut tokens = Items::new(alloc);
    let mut scratch = Text::new(alloc);
    'pieces: loop {
        let rest = text_from(units, place.at);
        match place.front(rest) {
            Piece::Gap(length) => place.pass_gap(length),
            Piece::LineEnd => place.pass_line(),
            Piece::Token(shape, count) => {
                let token = token_of(alloc, &mut scratch, names, file, &place, rest, shape, count)?;
                tokens.push(token)?;
                place.pass_token(shape, count)?;
            }
            Piece::Bad(fault) => return Err(Fail::Found(fault)),
            Piece::End => match fault_at_end(&place) {
                Some(fault) => return Err(Fail::Found(fault)),
                None => return Ok(tokens),
            },
        }
    }
}
