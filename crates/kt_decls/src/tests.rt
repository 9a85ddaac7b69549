//! The deepest levels of small texts.
use super::*;
use crate::levels::first_above;
use kc_text::{Names, Text};
use kt_lexer::{Token, tokens};
use sqlite_items::Items;
use std::alloc::Global;
use std::test::Fail as Failed;

fn cut(alloc: Global, source: &str) -> Result<Items<Token>, Failed> {
    let mut names = Names::new(alloc);
    let text = Text::from_str(alloc, source)?;
    match tokens(alloc, &text, 0, &mut names) {
        Ok(found) => Ok(found),
        Err(_) => Ok(Items::new(alloc)),
    }
}

/// The least level, of at most 8, that no token of the text is above.
fn deepest(alloc: Global, source: &str) -> Result<usize, Failed> {
    let found = cut(alloc, source)?;
    for most in 0..8usize {
        if first_above(alloc, found.as_slice(), most)?.is_none() {
            return Ok(most);
        }
    }
    Ok(8)
}

#[test]
fn counts_what_nests(rt: HostRuntime) -> Result<(), Failed> {
    let table = [
        ("", 0),
        ("a", 0),
        ("a + b", 1),
        ("a + b * c", 2),
        ("f(a)", 1),
        ("f(g(h(x)))", 3),
        ("f(a + b, c + d)", 2),
        ("f(a, b, c)", 1),
        ("f(a)(b)", 2),
        ("{ a; b + c }", 2),
        ("a + b\nc + d", 2),
        ("a +\nb + c", 2),
        ("a + b\n\nval c", 1),
        ("a foo b", 2),
        ("\na foo b", 1),
        ("1 foo true", 2),
        ("if (a) b else c", 4),
        ("\"${a + b}\"", 2),
        ("\"x\" foo 1", 1),
        ("a[b] c", 2),
        ("(]a + b", 3),
        (") + a", 1),
    ];
    for (source, expected) in table {
        assert_eq!(rt; deepest(rt.alloc(), source)?, expected, "of {source:?}");
    }
    Ok(())
}

#[test]
fn tells_the_first_token_too_deep(rt: HostRuntime) -> Result<(), Failed> {
    let mut source = String::new(rt.alloc());
    for _ in 0..256 {
        source.push_str("(")?;
    }
    let most = cut(rt.alloc(), source.as_str())?;
    assert!(rt; first_too_deep(rt.alloc(), most.as_slice())?.is_none());
    source.push_str("a ((")?;
    let deeper = cut(rt.alloc(), source.as_str())?;
    let found = first_too_deep(rt.alloc(), deeper.as_slice())?;
    assert_eq!(rt;
        found,
        Some(TooDeep {
            at: 257,
            level: 257
        })
    );
    Ok(())
}
