//! The table of what follows an operand at each place.
ghost use Rattle.std.specs.Prelude.{◌≡◌, ◌+◌, IfOk, drop};
ghost use Rattle.kt_grammar.specs.Lookahead as lookahead;
ghost use Rattle.kt_suffixes.specs.Suffixes as spec;

use crate::endings::endings_of;
use crate::moves::{Ending, Move, advance};
use kt_grammar::{Frames, Look, Mode, Place, suffix_follows};
use kt_lexer::Token;
use sqlite_items::Items;
use std::alloc::{AllocError, Global};

// What follows at a place, in the time of two steps where the end of the type arguments is known.
fn look_at(
    alloc: Global,
    tokens: &[Token],
    endings: &[Ending],
    at: usize,
) -> Result<Look, AllocError>
    requires { spec.AreEndings tokens.now endings.now }
    ensures { IfOk result (λ look. look ≡ spec.suffix tokens.now at) }
{
    let frames = Frames::new(alloc);
    let start = Place {
        frames,
        mode: Mode::Operand,
    };
    let (place, next) = match advance(tokens, endings, start, at)? {
        Move::Stop(look) => return Ok(look),
        Move::To(place, next) => (place, next),
    };
    if let Move::Stop(look) = advance(tokens, endings, place, next)? {
        return Ok(look);
    }
    suffix_follows(alloc, tokens, at)
}

fn looks_of(alloc: Global, tokens: &[Token], endings: &[Ending]) -> Result<Items<Look>, AllocError>
    requires { spec.AreEndings tokens.now endings.now }
    ensures { IfOk result (λ looks. spec.IsTable tokens.now looks) }
{
    let mut looks = Items::new(alloc);
    for at in 0..tokens.len() {
        let look = look_at(alloc, tokens, endings, at)?;
        looks.push(look)?;
    }
    Ok(looks)
}

/// Whether a member, an index, a call or a postfix operator follows an operand, for each place at which it may end (Kotlin Language
/// Specification 1.9, "Syntax grammar").
///
/// The time is linear in the tokens.
///
/// # Errors
///
/// Out of memory.
pub fn suffix_table(alloc: Global, tokens: &[Token]) -> Result<Items<Look>, AllocError>
    ensures { IfOk result (λ looks. spec.IsTable tokens.now looks) }
{
    let endings = endings_of(alloc, tokens)?;
    looks_of(alloc, tokens, endings.as_slice())
}

/// The table's answer at a place. Behind the tokens nothing follows (Kotlin Language Specification 1.9, "Syntax grammar").
pub fn suffix_at(tokens: &[Token], looks: &[Look], at: usize) -> Look
    requires { spec.IsTable tokens.now looks.now }
    ensures { (result.holds ≡ lookahead.suffix_follows.holds (drop at tokens.now)) × (result.end ≡ at + lookahead.suffix_follows.far (drop at tokens.now)) }
{
    match looks.get(at) {
        Some(look) => *look,
        None => Look {
            holds: false,
            end: at,
        },
    }
}
