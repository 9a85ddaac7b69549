//! Labels before loops and behind jumps (Kotlin Language Specification 1.9, "Labels").
ghost use Rattle.std.specs.Prelude.{◌≡◌, ◌≤◌, length, drop};
ghost use Rattle.grammars.specs.Grammar.{first};
ghost use Rattle.kt_control.specs.Labels as spec;
ghost use Rattle.kt_grammar.specs.Built as built;
ghost use Rattle.kt_grammar.specs.Parsed.{Advanced};
ghost use Rattle.kt_grammar.specs.Tokens.{is_label, is_label_use};

use kc_tree::Word;
use kt_grammar::Cursor;
use kt_lexer::{Token, TokenKind};

/// The label behind the word of a jump.
fn label_use_at(tokens: &[Token], at: usize) -> Option<Word>
    ensures { spec.LabelAt is_label_use (first (drop at tokens.now)) result }
{
    match tokens.get(at) {
        Some(token) => match token.kind {
            TokenKind::LabelUse(name) => Some(Word {
                span: token.span,
                name,
            }),
            _ => None,
        },
        None => None,
    }
}

/// The label behind the word of a jump, where one is written, and the place behind it.
pub fn label_use(tokens: &[Token], at: Cursor) -> (Option<Word>, Cursor)
    requires { at.at ≤ length tokens.now }
    ensures { Advanced spec.label_use built.label_of tokens.now at result.1 result.0 }
{
    match label_use_at(tokens, at.at) {
        Some(label) => (Some(label), at.to(at.at + 1)),
        None => (None, at),
    }
}

/// The label before a loop.
fn label_at(tokens: &[Token], at: usize) -> Option<Word>
    ensures { spec.LabelAt is_label (first (drop at tokens.now)) result }
{
    match tokens.get(at) {
        Some(token) => match token.kind {
            TokenKind::Label(name) => Some(Word {
                span: token.span,
                name,
            }),
            _ => None,
        },
        None => None,
    }
}

/// The label before a loop, where one is written, and the place behind it.
pub fn label(tokens: &[Token], at: Cursor) -> (Option<Word>, Cursor)
    requires { at.at ≤ length tokens.now }
    ensures { Advanced spec.label built.label_of tokens.now at result.1 result.0 }
{
    match label_at(tokens, at.at) {
        Some(found) => (Some(found), at.to(at.at + 1)),
        None => (None, at),
    }
}
