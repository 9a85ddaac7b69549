//! That words have their numbers.
use crate::reserved_names;
use kc_text::Text;
use std::test::Fail as Failed;

#[test]
fn words_have_their_numbers(rt: HostRuntime) -> Result<(), Failed> {
    let alloc = rt.alloc();
    let names = reserved_names(alloc)?;
    assert_eq!(rt; names.len(), 26);
    for (word, number) in [("catch", 0), ("out", 2), ("data", 15), ("reified", 25)] {
        assert_eq!(rt; names.find(&Text::from_str(alloc, word)?), Some(number));
    }
    assert_eq!(rt; names.find(&Text::from_str(alloc, "class")?), None);
    Ok(())
}
