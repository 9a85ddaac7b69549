use super::*;
use std::test::Fail;

#[test]
fn shares_a_front(rt: HostRuntime) -> Result<(), Fail> {
    let mut list = SharedList::new(rt.alloc())?;
    list.push(rt.alloc(), 1u8)?;
    list.push(rt.alloc(), 2)?;
    let mut other = list.share()?;
    other.take_last(1)?;
    other.push(rt.alloc(), 3)?;
    assert_eq!(rt; list.last().copied(), Some(2));
    assert_eq!(rt; other.last().copied(), Some(3));
    other.take_last(2)?;
    assert!(rt; other.last().is_none());
    assert_eq!(rt; list.len(), 2);
    Ok(())
}

// A list whose links are dropped one within the other would run out of stack here.
#[test]
fn drops_a_long_list(rt: HostRuntime) -> Result<(), Fail> {
    let mut list = SharedList::new(rt.alloc())?;
    for number in 0..1_000_000u32 {
        list.push(rt.alloc(), number)?;
    }
    let front = list.share()?;
    list.take_last(999_999)?;
    assert_eq!(rt; list.last().copied(), Some(0));
    assert_eq!(rt; front.len(), 1_000_000);
    assert_eq!(rt; front.last().copied(), Some(999_999));
    Ok(())
}

#[test]
fn keeps_the_order(rt: HostRuntime) -> Result<(), Fail> {
    let list = SharedList::from_slice(rt.alloc(), [3u8, 1, 2].as_slice())?;
    let all = list.in_order(rt.alloc())?;
    assert_eq!(rt; all.len(), 3);
    assert_eq!(rt; all.first().map(|first| **first), Some(3));
    let mut copy = Vec::new(rt.alloc());
    for element in all {
        copy.push(*element)?;
    }
    assert_eq!(rt; copy.as_slice(), [3, 1, 2].as_slice());
    Ok(())
}

#[test]
fn gives_the_last_ones(rt: HostRuntime) -> Result<(), Fail> {
    let list = SharedList::from_slice(rt.alloc(), [3u8, 1, 2].as_slice())?;
    let two = list.last_in_order(rt.alloc(), 2)?;
    assert_eq!(rt; two.len(), 2);
    assert_eq!(rt; two.first().map(|first| **first), Some(1));
    assert!(rt; list.last_in_order(rt.alloc(), 0)?.is_empty());
    assert_eq!(rt; list.last_in_order(rt.alloc(), 9)?.len(), 3);
    Ok(())
}
