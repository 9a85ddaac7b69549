//! Files whose tokens nest deep.

use crate::readings::shown;
use std::alloc::Global;
use std::process::Abort;
use std::test::Fail as Failed;

fn brackets(alloc: Global, count: usize) -> Result<String, Failed> {
    let mut source = String::new(alloc);
    source.push_str("val a = ")?;
    for _ in 0..count {
        source.push_str("(")?;
    }
    Ok(source)
}

#[test]
fn tells_what_nests_too_deep(rt: HostRuntime) -> Result<(), Failed> {
    let alloc = rt.alloc();
    for (count, expected) in [(254, "fault 257"), (255, "level 257 at 257")] {
        let source = brackets(alloc, count)?;
        let found = shown(alloc, source.as_str())?;
        assert_eq!(rt; found.as_str(), expected, "of {count}");
    }
    Ok(())
}
