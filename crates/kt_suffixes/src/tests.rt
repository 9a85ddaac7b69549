//! What follows operands in small texts.
use crate::{suffix_at, suffix_table};
use kc_text::{Names, Text};
use kt_grammar::suffix_follows;
use kt_lexer::{Token, tokens};
use sqlite_items::Items;
use std::alloc::Global;
use std::process::Abort;
use std::test::Fail as Failed;

fn cut(alloc: Global, source: &str) -> Result<Items<Token>, Failed> {
    let mut names = Names::new(alloc);
    for word in ["catch", "finally", "out"] {
        names.add(Text::from_str(alloc, word)?)?;
    }
    let text = Text::from_str(alloc, source)?;
    match tokens(alloc, &text, 0, &mut names) {
        Ok(found) => Ok(found),
        Err(_) => Ok(Items::new(alloc)),
    }
}

/// The places before which an operand may end that something follows, and where each look ends that goes on.
fn shown(alloc: Global, source: &str) -> Result<String, Failed> {
    let found = cut(alloc, source)?;
    let tokens = found.as_slice();
    let looks = suffix_table(alloc, tokens)?;
    let mut line = String::new(alloc);
    for at in 0..tokens.len() {
        let look = suffix_at(tokens, looks.as_slice(), at);
        if look.holds {
            line.push_str(&format!(in alloc; " {}", at)?)?;
        }
        if look.end != at {
            line.push_str(&format!(in alloc; " {}-{}", at, look.end)?)?;
        }
    }
    Ok(line)
}

/// Whether the table says at each place what the scan from there says.
fn is_asked(alloc: Global, source: &str) -> Result<bool, Failed> {
    let found = cut(alloc, source)?;
    let tokens = found.as_slice();
    let looks = suffix_table(alloc, tokens)?;
    for at in 0..tokens.len() + 2 {
        if suffix_at(tokens, looks.as_slice(), at) != suffix_follows(alloc, tokens, at)? {
            return Ok(false);
        }
    }
    Ok(true)
}

#[test]
fn shows_suffixes(rt: HostRuntime) -> Result<(), Failed> {
    let table = [
        ("", ""),
        ("a", ""),
        ("a < b", " 1-3"),
        ("a<b>(c)", " 1 1-4 4"),
        ("f(a < b, c < d)", " 1 3-9 7-9"),
        ("f(a < b, c > (d))", " 1 3 3-8 8"),
        ("a < b < c > > (d)", " 1 1-7 3-6 7"),
        ("a < b < c > (d)", " 1-6 3 3-6 6"),
        ("a < (b < c) -> d > { }", " 1-6 2 4-6 10"),
        ("a < (b < c >) -> d > { }", " 1 1-11 2 4-7 11"),
        ("a < (b, c < d >, *", " 1-10 2 6-9"),
        ("a.b++[c]!!", " 1 3 4 7"),
        ("a\n<b>(c)", " 4"),
        ("a<b\n<c>>(d)", " 1 1-7 7"),
    ];
    for (source, places) in table {
        assert_eq!(rt; shown(rt.alloc(), source)?.as_str(), places);
        assert!(rt; is_asked(rt.alloc(), source)?);
    }
    Ok(())
}
