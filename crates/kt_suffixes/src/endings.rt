//! Where the type arguments end that each `<` opens, from the last one back.
ghost use Rattle.std.specs.Prelude.{◌≡◌, ◌<◌, List, IfOk, length, slice_set, []};
ghost use Rattle.kt_lexer.specs.declared.token.Token.{Token};
ghost use Rattle.kt_grammar.specs.Lookahead as lookahead;
ghost use Rattle.kt_suffixes.specs.Suffixes as spec;

use crate::moves::{Ending, Move, advance};
use kt_grammar::{Frame, Frames, Mode, Place, is_op_at};
use kt_lexer::{Operator, Token};
use sqlite_items::Items;
use std::alloc::{AllocError, Global};

fn opened(alloc: Global) -> Result<Place, AllocError>
    ensures { IfOk result (λ place. place ≡ spec.opened []) }
{
    let frames = Frames::new(alloc).push(Frame::Angle)?;
    Ok(Place {
        frames,
        mode: Mode::Argument(false),
    })
}

fn is_closed(place: &Place) -> bool
    ensures { result ≡ lookahead.is_closed place.now.mode }
{
    match place.mode {
        Mode::Closed => true,
        _ => false,
    }
}

// Where the type arguments end that a `<` opens, by what is known of the ones behind it.
fn ending(
    alloc: Global,
    tokens: &[Token],
    endings: &[Ending],
    start: usize,
) -> Result<Ending, AllocError>
    requires known { spec.AreEndings tokens.now endings.now }
    requires within { start < length tokens.now }
    ensures { IfOk result (λ ending. spec.IsEnding tokens.now start ending) }
{
    let mut place = opened(alloc)?;
    let mut at = start + 1;
    while at < tokens.len() {
        match advance(tokens, endings, place, at)? {
            Move::Stop(look) => return Ok(Ending::Fails(look.end)),
            Move::To(next, behind) => {
                if is_closed(&next) {
                    return Ok(Ending::Closes(behind));
                }
                place = next;
                at = behind;
            }
        }
    }
    Ok(Ending::Fails(at))
}

fn unknown(alloc: Global, count: usize) -> Result<Items<Ending>, AllocError>
    ensures { IfOk result (λ endings. (tokens : List Token) → spec.AreEndings tokens endings) }
{
    let mut all = Items::new(alloc);
    for _ in 0..count {
        all.push(Ending::Unknown)?;
    }
    Ok(all)
}

fn put(mut all: Items<Ending>, at: usize, ending: Ending) -> Items<Ending>
    ensures { result ≡ slice_set all at ending }
{
    if at < all.len() {
        all.set(at, ending);
    }
    all
}

// What is known once the token at a place has been looked at.
fn known_at(
    alloc: Global,
    tokens: &[Token],
    all: Items<Ending>,
    at: usize,
) -> Result<Items<Ending>, AllocError>
    requires known { spec.AreEndings tokens.now all }
    requires within { at < length tokens.now }
    ensures { IfOk result (λ endings. spec.AreEndings tokens.now endings) }
{
    if !is_op_at(tokens, at, Operator::Less) {
        return Ok(all);
    }
    let ending = ending(alloc, tokens, all.as_slice(), at)?;
    Ok(put(all, at, ending))
}

/// Where the type arguments end that each `<` opens.
pub fn endings_of(alloc: Global, tokens: &[Token]) -> Result<Items<Ending>, AllocError>
    ensures { IfOk result (λ endings. spec.AreEndings tokens.now endings) }
{
    let mut all = unknown(alloc, tokens.len())?;
    let mut at = tokens.len();
    while 0 < at {
        at -= 1;
        all = known_at(alloc, tokens, all, at)?;
    }
    Ok(all)
}
