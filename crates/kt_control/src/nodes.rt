//! Nodes of jumps, conditionals, declarations and loops, each from its parts.
ghost use Rattle.std.specs.Prelude.{◌≡◌, drop};
ghost use Rattle.grammars.specs.Grammar.{first};
ghost use Rattle.kc_tree.specs.declared.expr.ExprKind.TheVariants as kinds;
ghost use Rattle.kt_control.specs.Conditionals as conditionals;
ghost use Rattle.kt_control.specs.Jumps as jumps;
ghost use Rattle.kt_control.specs.Locals as locals;
ghost use Rattle.kt_control.specs.Places as places;
ghost use Rattle.kt_grammar.specs.Built as built;

use crate::conditionals::Arms;
use crate::locals::Declared;
use crate::loops::Head;
use kc_tree::{Expr, ExprKind, Span, Word};
use kt_lexer::{Keyword, Token, TokenKind};
use sqlite_items::Boxed;

/// Where the token at a place stands.
pub fn place_at(tokens: &[Token], at: usize) -> Span
    ensures { result ≡ places.place_of (first (drop at tokens.now)) }
{
    match tokens.get(at) {
        Some(token) => token.span,
        None => Span {
            file: 0,
            start: 0,
            end: 0,
        },
    }
}

/// From the start of the token at a place to the end of what stands at `last`.
pub fn across(tokens: &[Token], start: usize, last: Span) -> Span
    ensures { result ≡ built.across (places.place_of (first (drop start tokens.now))) last }
{
    let begin = place_at(tokens, start);
    Span {
        file: begin.file,
        start: begin.start,
        end: last.end,
    }
}

/// A `return` that stands at `span`.
pub fn returned(span: Span, label: Option<Word>, value: Option<Boxed<Expr>>) -> Expr
    ensures { result ≡ record { span = span; kind = kinds.Return label value } }
{
    Expr {
        span,
        kind: ExprKind::Return { label, value },
    }
}

/// A `throw` that stands at `span`.
pub fn thrown(span: Span, value: Boxed<Expr>) -> Expr
    ensures { result ≡ record { span = span; kind = kinds.Throw value } }
{
    Expr {
        span,
        kind: ExprKind::Throw(value),
    }
}

fn jump_kind(kind: &TokenKind, label: Option<Word>) -> ExprKind
    ensures { result ≡ built.jump_kind kind.now label }
{
    match kind {
        TokenKind::Word(Keyword::Continue) => ExprKind::Continue(label),
        _ => ExprKind::Break(label),
    }
}

/// What the word at a place does to a loop: `continue` or `break`.
fn jump_kind_at(tokens: &[Token], at: usize, label: Option<Word>) -> ExprKind
    ensures { result ≡ jumps.kind_at (first (drop at tokens.now)) label }
{
    match tokens.get(at) {
        Some(token) => jump_kind(&token.kind, label),
        None => ExprKind::Break(label),
    }
}

/// A `break` or `continue` that stands at `span`, whose word is the token at a place.
pub fn broken(tokens: &[Token], at: usize, span: Span, label: Option<Word>) -> Expr
    ensures { result ≡ record { span = span; kind = jumps.kind_at (first (drop at tokens.now)) label } }
{
    Expr {
        span,
        kind: jump_kind_at(tokens, at, label),
    }
}

/// The place of the last body of an `if`.
pub fn last_place(arms: &Arms) -> Span
    ensures { result ≡ conditionals.last_place arms.now.held arms.now.failed }
{
    match &arms.failed {
        Some(failed) => failed.get().span,
        None => arms.held.get().span,
    }
}

/// An `if` that stands at `span`.
pub fn conditional_node(span: Span, test: Boxed<Expr>, arms: Arms) -> Expr
    ensures { result ≡ record { span = span; kind = kinds.If test arms.held arms.failed } }
{
    let Arms { held, failed } = arms;
    Expr {
        span,
        kind: ExprKind::If { test, held, failed },
    }
}

/// Where an expression stands.
pub fn span_of(of: &Boxed<Expr>) -> Span
    ensures { result ≡ of.now.span }
{
    of.get().span
}

fn is_var(kind: &TokenKind) -> bool
    ensures { result ≡ built.is_var kind.now }
{
    match kind {
        TokenKind::Word(Keyword::Var) => true,
        _ => false,
    }
}

/// Whether the word at a place is `var`.
fn is_var_at(tokens: &[Token], at: usize) -> bool
    ensures { result ≡ locals.var_at (first (drop at tokens.now)) }
{
    match tokens.get(at) {
        Some(token) => is_var(&token.kind),
        None => false,
    }
}

/// A declaration of local variables that stands at `span`, whose word is the token at a place.
pub fn local_node(tokens: &[Token], at: usize, span: Span, declared: Declared) -> Expr
    ensures { result ≡ record { span = span; kind = kinds.Local (locals.var_at (first (drop at tokens.now))) declared.names declared.brackets declared.value } }
{
    let Declared {
        names,
        brackets,
        value,
        last: _,
    } = declared;
    Expr {
        span,
        kind: ExprKind::Local {
            is_var: is_var_at(tokens, at),
            names,
            brackets,
            value,
        },
    }
}

/// A `for` that stands at `span`.
pub fn for_node(span: Span, label: Option<Word>, head: Head, body: Boxed<Expr>) -> Expr
    ensures { result ≡ record { span = span; kind = kinds.For label head.names head.brackets head.token head.range body } }
{
    let Head {
        names,
        brackets,
        token,
        range,
    } = head;
    Expr {
        span,
        kind: ExprKind::For {
            label,
            names,
            brackets,
            token,
            range,
            body,
        },
    }
}

/// A `while` that stands at `span`.
pub fn while_node(span: Span, label: Option<Word>, test: Boxed<Expr>, body: Boxed<Expr>) -> Expr
    ensures { result ≡ record { span = span; kind = kinds.While label test body } }
{
    Expr {
        span,
        kind: ExprKind::While { label, test, body },
    }
}

/// A `do` with its `while` that stands at `span`.
pub fn do_node(span: Span, label: Option<Word>, body: Boxed<Expr>, test: Boxed<Expr>) -> Expr
    ensures { result ≡ record { span = span; kind = kinds.DoWhile label body test } }
{
    Expr {
        span,
        kind: ExprKind::DoWhile { label, body, test },
    }
}
