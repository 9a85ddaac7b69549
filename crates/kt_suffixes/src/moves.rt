//! A step over the tokens, by where the type arguments end that are known already.
ghost use Rattle.std.specs.Prelude.{◌≡◌, IfOk, drop, get_or};
ghost use Rattle.kt_suffixes.specs.Moves as spec;
ghost use Rattle.kt_suffixes.specs.declared.moves.Ending.TheVariants as ending_of;

use kt_grammar::{Frame, Frames, Goal, Look, Mode, Next, Place, step};
use kt_lexer::Token;
use std::alloc::AllocError;

/// Where the type arguments end that a `<` opens.
#[derive(Clone, Copy, Debug, PartialEq, Eq)]
pub enum Ending {
    /// Nobody has looked.
    Unknown,
    /// The tokens form no type arguments, by the token at the place.
    Fails(usize),
    /// The place behind the last `>`.
    Closes(usize),
}

/// Where a step leads.
#[derive(Drop)]
pub enum Move {
    To(Place, usize),
    Stop(Look),
}

fn stop(end: usize) -> Move
    ensures { result ≡ spec.failed end }
{
    Move::Stop(Look { holds: false, end })
}

fn to(frames: Frames, mode: Mode, next: usize) -> Move
    ensures { result ≡ spec.to frames mode next }
{
    Move::To(Place { frames, mode }, next)
}

fn enter(frames: Frames, frame: Frame, next: usize) -> Result<Move, AllocError>
    ensures { IfOk result (λ m. m ≡ spec.enter frames frame next) }
{
    let frames = frames.push(frame)?;
    Ok(to(frames, Mode::Argument(false), next))
}

// Behind type arguments that are closed.
fn closed(frames: Frames, next: usize) -> Move
    ensures { result ≡ spec.closed frames next }
{
    if frames.is_empty() {
        to(frames, Mode::Closed, next)
    } else {
        to(frames, Mode::Complete, next)
    }
}

// Behind `<`, with the brackets around it.
fn skip(outer: Frames, ending: Ending, next: usize) -> Result<Move, AllocError>
    ensures { IfOk result (λ m. m ≡ spec.skip outer ending next) }
{
    match ending {
        Ending::Unknown => enter(outer, Frame::Angle, next),
        Ending::Fails(end) => Ok(stop(end)),
        Ending::Closes(behind) => {
            if next < behind {
                return Ok(closed(outer, behind));
            }
            enter(outer, Frame::Angle, next)
        }
    }
}

// Before a type argument.
fn over(frames: Frames, ending: Ending, next: usize) -> Result<Move, AllocError>
    ensures { IfOk result (λ m. m ≡ spec.over frames ending next) }
{
    if frames.is_empty() {
        return Ok(to(frames, Mode::Argument(false), next));
    }
    match frames.pop() {
        (None, _) => Ok(stop(next)),
        (Some(Frame::Angle), outer) => skip(outer, ending, next),
        (Some(frame), outer) => enter(outer, frame, next),
    }
}

fn jump(place: Place, ending: Ending, next: usize) -> Result<Move, AllocError>
    ensures { IfOk result (λ m. m ≡ spec.jump place ending next) }
{
    let Place { frames, mode } = place;
    match mode {
        Mode::Argument(false) => over(frames, ending, next),
        _ => Ok(to(frames, mode, next)),
    }
}

fn ending_at(endings: &[Ending], at: usize) -> Ending
    ensures { result ≡ get_or endings.now at ending_of.Unknown }
{
    match endings.get(at) {
        Some(ending) => *ending,
        None => Ending::Unknown,
    }
}

fn pass(
    endings: &[Ending],
    place: Place,
    token: &Token,
    at: usize,
    next: usize,
) -> Result<Move, AllocError>
    ensures { IfOk result (λ m. m ≡ spec.pass endings.now place token.now at next) }
{
    match step(Goal::BeforeCall, place, token)? {
        Next::Go(place) => jump(place, ending_at(endings, at), next),
        Next::Stop(holds) => Ok(Move::Stop(Look { holds, end: at })),
    }
}

/// The step from a place.
pub fn advance(
    tokens: &[Token],
    endings: &[Ending],
    place: Place,
    at: usize,
) -> Result<Move, AllocError>
    ensures { IfOk result (λ m. m ≡ spec.advance endings.now place at (drop at tokens.now)) }
{
    match tokens.get(at) {
        Some(token) => pass(endings, place, token, at, at + 1),
        None => Ok(stop(at)),
    }
}
