//! Comments (Kotlin Language Specification 1.9, "Whitespace and comments").
ghost use Rattle.std.specs.Prelude.{◌≡◌, ◌≤◌, length, IfSome};
ghost use Rattle.kt_lexer.specs.Comments as spec;

use crate::characters::{is_front, is_line_end, text_from};

/// How many units stand before the next line's end.
pub fn line_length(text: &[u16]) -> usize
    ensures { result ≡ spec.line_length text.now }
{
    text.iter().take_while(|unit| !is_line_end(**unit)).count()
}

/// What stands in front within a comment.
#[derive(Clone, Copy)]
pub enum Mark {
    Opens,
    Closes,
    /// One unit.
    Plain,
    /// Not two units are left.
    End,
}

fn in_front(text: &[u16]) -> Mark
    ensures { result ≡ spec.in_front text.now }
{
    if is_front(b"*/", text) {
        return Mark::Closes;
    }
    if is_front(b"/*", text) {
        return Mark::Opens;
    }
    Mark::Plain
}

fn mark_of(text: &[u16]) -> Mark
    ensures { result ≡ spec.mark_of text.now }
{
    if text.len() < 2 {
        return Mark::End;
    }
    in_front(text)
}

/// How many units there are up to the end of the comment, from within it.
pub fn close(text: &[u16]) -> Option<usize>
    ensures value { result ≡ spec.close 0 text.now }
    ensures within { IfSome result (λ n. n ≤ length text.now) }
{
    let mut at = 0;
    let mut depth: usize = 0;
    loop {
        match mark_of(text_from(text, at)) {
            Mark::Closes => {
                at += 2;
                if depth == 0 {
                    return Some(at);
                }
                depth -= 1;
            }
            Mark::Opens => {
                at += 2;
                depth += 1;
            }
            Mark::Plain => at += 1,
            Mark::End => return None,
        }
    }
}
