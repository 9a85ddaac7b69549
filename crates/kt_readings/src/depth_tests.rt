//! Texts that nest deep.

use crate::readings::{Goal, shown};
use std::alloc::Global;
use std::process::Abort;
use std::test::Fail as Failed;

fn brackets(alloc: Global, count: usize) -> Result<String, Failed> {
    let mut source = String::new(alloc);
    for _ in 0..count {
        source.push_str("(")?;
    }
    Ok(source)
}

#[test]
fn wants_memory_for_what_nests_too_deep(rt: HostRuntime) -> Result<(), Failed> {
    let alloc = rt.alloc();
    for (count, expected) in [(30, "fault 30"), (50, "memory")] {
        let source = brackets(alloc, count)?;
        let found = shown(alloc, source.as_str(), Goal::Expression)?;
        assert_eq!(rt; found.as_str(), expected, "of {count}");
    }
    Ok(())
}
