//! Small texts, and their tokens.

use kc_text::{Fail, Memory, Names, Text};
use kt_lexer::{Token, tokens};
use sqlite_items::Items;
use std::alloc::Global;

/// The tokens of a text, where it has a cut.
pub fn cut(alloc: Global, source: &str, names: &mut Names) -> Result<Option<Items<Token>>, Memory> {
    let text = Text::from_str(alloc, source)?;
    match tokens(alloc, &text, 0, names) {
        Ok(found) => Ok(Some(found)),
        Err(Fail::Found(_)) => Ok(None),
        Err(Fail::Memory) => Err(Memory),
    }
}

/// The text, with a line's end in place of each `¶`.
pub fn with_lines(alloc: Global, source: &str) -> Result<String, Memory> {
    let mut text = String::new(alloc);
    for c in source.chars() {
        text.push(if c == '¶' { '\n' } else { c })?;
    }
    Ok(text)
}
