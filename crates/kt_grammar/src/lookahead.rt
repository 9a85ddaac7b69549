//! What stands behind the next token: whether tokens form type arguments or a function type, and whether `else` follows a body.
ghost use Rattle.std.specs.Prelude.{◌≡◌, ◌≤◌, ◌+◌, ◌∷◌, [], List, ◌↔◌, IfOk, IsTrue, MatchOption, drop, length, reverse};
ghost use Rattle.grammars.specs.Automata.{accepts};
ghost use Rattle.kt_grammar.specs.Lookahead as spec;
ghost use Rattle.kt_grammar.specs.Steps.{as_step, Looks};
ghost use Rattle.kt_grammar.specs.Tokens as tokens_of;
ghost use Rattle.kt_grammar.specs.declared.lookahead.Frame.TheVariants as frames_of;

use crate::tokens::{class, eat_op, eat_word, is_op, is_op_at, keyword_class};
use kt_lexer::{Keyword, Operator, Token};
use std::alloc::{AllocError, Global};
use std::marker::Model;

/// What is open: `<`, or `(` with at most one type so far, or `(` with a comma behind a type.
#[derive(Clone, Copy, Debug, PartialEq, Eq)]
pub enum Frame {
    Angle,
    Round,
    List,
}

/// Where in a type the tokens have come to.
#[derive(Clone, Copy, Debug, PartialEq, Eq)]
pub enum Mode {
    /// Behind an operand, or the name of a type.
    Operand,
    /// Before `->`.
    Arrow,
    /// Before a type argument, or where the flag is set `>`.
    Argument(bool),
    /// Before the type behind `in` or `out`.
    Projected,
    /// Before a type.
    Wanted,
    /// Before a type in brackets, or `)`.
    Item,
    /// Before a name behind `.`.
    Part,
    /// Behind a name.
    Named,
    /// Behind a type that is whole but for `?`.
    Complete,
    /// Behind `*`.
    Star,
    /// Behind one type in brackets.
    Grouped,
    /// Behind brackets that want `->`.
    Listed,
    /// Behind the last `>`.
    Closed,
}

/// What is looked for.
#[derive(Clone, Copy, Debug, PartialEq, Eq)]
pub enum Goal {
    /// Type arguments before a call, or else what follows an operand.
    BeforeCall,
    /// Type arguments.
    Anywhere,
    /// `->` and a type before a further `->` or `,`.
    BeforeArrow,
}

/// The brackets that are open, the innermost first.
#[derive(Drop)]
pub struct Frames {
    open: Vec<Frame>,
}

impl Model for Frames {
    ghost use Rattle.std.specs.Prelude.{List, reverse};
    ghost use Rattle.kt_grammar.specs.declared.lookahead.Frame.{Frame};

    ghost Value = { List Frame };

    ghost view = { λ frames. reverse frames.open.items };
}

/// What is open, and where in a type the tokens have come to.
#[derive(Drop)]
pub struct Place {
    pub frames: Frames,
    pub mode: Mode,
}

/// What a test says of the tokens at a place.
#[derive(Clone, Copy, Debug, PartialEq, Eq)]
pub struct Look {
    pub holds: bool,
    /// The place of the farthest token that it looks at, or the number of tokens.
    pub end: usize,
}

/// What a token does: it leads to a place, or settles the test.
#[derive(Drop)]
pub enum Next {
    Go(Place),
    Stop(bool),
}

impl Frames {
    /// No brackets.
    pub fn new(alloc: Global) -> Frames
        ensures { result ≡ [] }
    {
        Frames {
            open: Vec::new(alloc),
        }
    }

    /// Whether no bracket is open.
    pub fn is_empty(&self) -> bool
        ensures { IsTrue result ↔ (self.now ≡ []) }
    {
        self.open.is_empty()
    }

    /// One more bracket inside.
    pub fn push(self, frame: Frame) -> Result<Frames, AllocError>
        ensures { IfOk result (λ frames. frames ≡ frame ∷ self) }
    {
        let Frames { mut open } = self;
        open.push(frame)?;
        Ok(Frames { open })
    }

    /// The innermost bracket, and those around it.
    pub fn pop(self) -> (Option<Frame>, Frames)
        ensures { MatchOption result.0 (self ≡ []) (λ frame. self ≡ frame ∷ result.1) }
    {
        let Frames { mut open } = self;
        let last = open.pop();
        (last, Frames { open })
    }
}

fn go(frames: Frames, mode: Mode) -> Next
    ensures { as_step result ≡ spec.at frames mode }
{
    Next::Go(Place { frames, mode })
}

fn enter(frames: Frames, frame: Frame, mode: Mode) -> Result<Next, AllocError>
    ensures { IfOk result (λ next. as_step next ≡ spec.at (frame ∷ frames) mode) }
{
    Ok(go(frames.push(frame)?, mode))
}

fn behind_comma(frames: Frames) -> Result<Next, AllocError>
    ensures { IfOk result (λ next. as_step next ≡ spec.behind_comma frames) }
{
    match frames.pop() {
        (None, _) => Ok(Next::Stop(false)),
        (Some(Frame::Angle), frames) => enter(frames, Frame::Angle, Mode::Argument(true)),
        (Some(_), frames) => enter(frames, Frame::List, Mode::Item),
    }
}

fn behind_greater(goal: Goal, frames: Frames) -> Next
    ensures { as_step result ≡ spec.behind_greater goal frames }
{
    match frames.pop() {
        (Some(Frame::Angle), frames) => {
            if !frames.is_empty() {
                return go(frames, Mode::Complete);
            }
            match goal {
                Goal::BeforeArrow => go(frames, Mode::Complete),
                _ => go(frames, Mode::Closed),
            }
        }
        _ => Next::Stop(false),
    }
}

fn behind_round(frames: Frames) -> Next
    ensures { as_step result ≡ spec.behind_round frames }
{
    match frames.pop() {
        (Some(Frame::Round), frames) => go(frames, Mode::Grouped),
        (Some(Frame::List), frames) => go(frames, Mode::Listed),
        _ => Next::Stop(false),
    }
}

fn behind_empty(frames: Frames) -> Next
    ensures { as_step result ≡ spec.behind_empty frames }
{
    match frames.pop() {
        (Some(Frame::Round), frames) => go(frames, Mode::Listed),
        (Some(Frame::List), frames) => go(frames, Mode::Listed),
        _ => Next::Stop(false),
    }
}

fn behind_type(goal: Goal, frames: Frames, token: &Token) -> Result<Next, AllocError>
    ensures { IfOk result (λ next. as_step next ≡ spec.behind_type goal frames token.now) }
{
    if is_op(token, Operator::Question) {
        return Ok(go(frames, Mode::Complete));
    }
    if is_op(token, Operator::Comma) {
        return behind_comma(frames);
    }
    if is_op(token, Operator::Greater) {
        return Ok(behind_greater(goal, frames));
    }
    if is_op(token, Operator::CloseRound) {
        return Ok(behind_round(frames));
    }
    Ok(Next::Stop(false))
}

fn is_outermost(goal: Goal, token: &Token) -> bool
    ensures { result ≡ spec.outermost goal token.now }
{
    match goal {
        Goal::BeforeArrow => is_op(token, Operator::Arrow) || is_op(token, Operator::Comma),
        _ => false,
    }
}

fn type_end(goal: Goal, frames: Frames, token: &Token) -> Result<Next, AllocError>
    ensures { IfOk result (λ next. as_step next ≡ spec.type_end goal frames token.now) }
{
    if frames.is_empty() && is_outermost(goal, token) {
        return Ok(Next::Stop(true));
    }
    behind_type(goal, frames, token)
}

fn group_end(goal: Goal, frames: Frames, token: &Token) -> Result<Next, AllocError>
    ensures { IfOk result (λ next. as_step next ≡ spec.group_end goal frames token.now) }
{
    if frames.is_empty() && is_outermost(goal, token) {
        return Ok(Next::Stop(true));
    }
    if is_op(token, Operator::Arrow) {
        return Ok(go(frames, Mode::Wanted));
    }
    behind_type(goal, frames, token)
}

/// Whether a call, or its lambda, begins with the token.
fn begins_call(token: &Token) -> bool
    ensures { result ≡ spec.begins_call token.now }
{
    !token.marked
        && (is_op(token, Operator::OpenRound)
            || is_op(token, Operator::OpenBrace)
            || class(&token.kind) == 74)
}

/// Whether the token follows an operand, whatever stands behind it.
fn follows_operand(token: &Token) -> bool
    ensures { result ≡ spec.follows_operand token.now }
{
    is_op(token, Operator::Dot)
        || is_op(token, Operator::SafeDot)
        || begins_call(token)
        || (!token.marked
            && (is_op(token, Operator::Increment)
                || is_op(token, Operator::Decrement)
                || is_op(token, Operator::NotNull)
                || is_op(token, Operator::OpenSquare)))
}

fn behind_operand(goal: Goal, frames: Frames, token: &Token) -> Result<Next, AllocError>
    ensures { IfOk result (λ next. as_step next ≡ spec.behind_operand goal frames token.now) }
{
    match goal {
        Goal::BeforeCall => {
            if follows_operand(token) {
                return Ok(Next::Stop(true));
            }
            if token.marked {
                return Ok(Next::Stop(false));
            }
        }
        _ => {}
    }
    if is_op(token, Operator::Less) {
        return enter(frames, Frame::Angle, Mode::Argument(false));
    }
    Ok(Next::Stop(false))
}

fn is_name(token: &Token) -> bool
    ensures { result ≡ tokens_of.is_name token.now }
{
    class(&token.kind) > 83
}

fn type_start(frames: Frames, token: &Token) -> Result<Next, AllocError>
    ensures { IfOk result (λ next. as_step next ≡ spec.type_start frames token.now) }
{
    if is_name(token) {
        return Ok(go(frames, Mode::Named));
    }
    if is_op(token, Operator::OpenRound) {
        return enter(frames, Frame::Round, Mode::Item);
    }
    Ok(Next::Stop(false))
}

fn argument_start(frames: Frames, token: &Token) -> Result<Next, AllocError>
    ensures { IfOk result (λ next. as_step next ≡ spec.argument_start frames token.now) }
{
    if is_op(token, Operator::Times) {
        return Ok(go(frames, Mode::Star));
    }
    if class(&token.kind) == keyword_class(Keyword::In) {
        return Ok(go(frames, Mode::Wanted));
    }
    if class(&token.kind) == 86 {
        return Ok(go(frames, Mode::Projected));
    }
    type_start(frames, token)
}

fn behind_name(goal: Goal, frames: Frames, token: &Token) -> Result<Next, AllocError>
    ensures { IfOk result (λ next. as_step next ≡ spec.behind_name goal frames token.now) }
{
    if is_op(token, Operator::Dot) {
        return Ok(go(frames, Mode::Part));
    }
    if is_op(token, Operator::Less) {
        return enter(frames, Frame::Angle, Mode::Argument(false));
    }
    type_end(goal, frames, token)
}

fn argument(goal: Goal, close: bool, frames: Frames, token: &Token) -> Result<Next, AllocError>
    ensures { IfOk result (λ next. as_step next ≡ spec.behind_argument goal close frames token.now) }
{
    if close && is_op(token, Operator::Greater) {
        return Ok(behind_greater(goal, frames));
    }
    argument_start(frames, token)
}

fn projected(goal: Goal, frames: Frames, token: &Token) -> Result<Next, AllocError>
    ensures { IfOk result (λ next. as_step next ≡ spec.projected goal frames token.now) }
{
    if is_name(token) || is_op(token, Operator::OpenRound) {
        return type_start(frames, token);
    }
    behind_name(goal, frames, token)
}

fn item(frames: Frames, token: &Token) -> Result<Next, AllocError>
    ensures { IfOk result (λ next. as_step next ≡ spec.item frames token.now) }
{
    if is_op(token, Operator::CloseRound) {
        return Ok(behind_empty(frames));
    }
    type_start(frames, token)
}

fn behind_star(goal: Goal, frames: Frames, token: &Token) -> Result<Next, AllocError>
    ensures { IfOk result (λ next. as_step next ≡ spec.behind_star goal frames token.now) }
{
    if is_op(token, Operator::Comma) {
        return behind_comma(frames);
    }
    if is_op(token, Operator::Greater) {
        return Ok(behind_greater(goal, frames));
    }
    Ok(Next::Stop(false))
}

/// Whether what is looked for is found where type arguments are closed before the token.
fn ends_arguments(goal: Goal, token: &Token) -> bool
    ensures { result ≡ spec.arguments_end goal token.now }
{
    match goal {
        Goal::BeforeCall => begins_call(token),
        _ => true,
    }
}

/// To the mode, where the test holds.
fn go_if(holds: bool, frames: Frames, mode: Mode) -> Next
    ensures { as_step result ≡ spec.go_if holds frames mode }
{
    if holds {
        go(frames, mode)
    } else {
        Next::Stop(false)
    }
}

/// What a token does at a place.
pub fn step(goal: Goal, place: Place, token: &Token) -> Result<Next, AllocError>
    ensures { IfOk result (λ next. as_step next ≡ spec.step goal place token.now) }
{
    let Place { frames, mode } = place;
    match mode {
        Mode::Operand => behind_operand(goal, frames, token),
        Mode::Arrow => Ok(go_if(is_op(token, Operator::Arrow), frames, Mode::Wanted)),
        Mode::Argument(close) => argument(goal, close, frames, token),
        Mode::Projected => projected(goal, frames, token),
        Mode::Wanted => type_start(frames, token),
        Mode::Item => item(frames, token),
        Mode::Part => Ok(go_if(is_name(token), frames, Mode::Named)),
        Mode::Named => behind_name(goal, frames, token),
        Mode::Complete => type_end(goal, frames, token),
        Mode::Star => behind_star(goal, frames, token),
        Mode::Grouped => group_end(goal, frames, token),
        Mode::Listed => Ok(go_if(is_op(token, Operator::Arrow), frames, Mode::Wanted)),
        Mode::Closed => Ok(Next::Stop(ends_arguments(goal, token))),
    }
}

fn is_found_at_end(goal: Goal, mode: Mode) -> bool
    ensures { result ≡ spec.found_at_end goal mode }
{
    match goal {
        Goal::Anywhere => mode == Mode::Closed,
        _ => false,
    }
}

/// Whether what is looked for begins at the place.
fn scan(
    alloc: Global,
    goal: Goal,
    mode: Mode,
    tokens: &[Token],
    at: usize,
) -> Result<Look, AllocError>
    ensures { IfOk result (λ look. Looks goal mode tokens.now at look) }
{
    let frames = Frames::new(alloc);
    let mut place = Place { frames, mode };
    let mut at = at;
    while let Some(token) = tokens.get(at) {
        match step(goal, place, token)? {
            Next::Go(next) => place = next,
            Next::Stop(holds) => return Ok(Look { holds, end: at }),
        }
        at += 1;
    }
    let holds = is_found_at_end(goal, place.mode);
    Ok(Look { holds, end: at })
}

/// Whether a member, an index, a call or a postfix operator follows an operand that ends before the place.
pub fn suffix_follows(alloc: Global, tokens: &[Token], at: usize) -> Result<Look, AllocError>
    ensures { IfOk result (λ look. (look.holds ≡ spec.suffix_follows.holds (drop at tokens.now)) × (look.end ≡ at + spec.suffix_follows.far (drop at tokens.now))) }
{
    scan(alloc, Goal::BeforeCall, Mode::Operand, tokens, at)
}

/// Whether the tokens form type arguments behind the name of a type.
pub fn arguments_form(alloc: Global, tokens: &[Token], at: usize) -> Result<Look, AllocError>
    ensures { IfOk result (λ look. (look.holds ≡ spec.arguments_form.holds (drop at tokens.now)) × (look.end ≡ at + spec.arguments_form.far (drop at tokens.now))) }
{
    scan(alloc, Goal::Anywhere, Mode::Operand, tokens, at)
}

/// Whether `->` and a type stand before a further `->` or `,`.
pub fn result_follows(alloc: Global, tokens: &[Token], at: usize) -> Result<Look, AllocError>
    ensures { IfOk result (λ look. (look.holds ≡ spec.result_follows.holds (drop at tokens.now)) × (look.end ≡ at + spec.result_follows.far (drop at tokens.now))) }
{
    scan(alloc, Goal::BeforeArrow, Mode::Arrow, tokens, at)
}

/// `else` that is followed by no `->`.
fn is_else(tokens: &[Token], at: usize) -> bool
    ensures { result ≡ accepts spec.else_step spec.else_at_end (drop at tokens.now) spec.semicolon }
{
    match eat_word(tokens, at, Keyword::Else) {
        Some(next) => !is_op_at(tokens, next, Operator::Arrow),
        None => false,
    }
}

/// The `else` of an `if` whose body ends before the place, with at most one `;` before it.
pub fn else_follows(tokens: &[Token], at: usize) -> bool
    ensures { result ≡ spec.else_follows.holds (drop at tokens.now) }
{
    match eat_op(tokens, at, Operator::Semicolon) {
        Some(next) => is_else(tokens, next),
        None => is_else(tokens, at),
    }
}
