//! The links of a list, the last one first.
ghost use Rattle.std.specs.Prelude.{◌≡◌, ◌-◌, IfOk, drop, length, map, reverse, take};
ghost use Rattle.shared_list.specs.Chains.{elements};

use kc_text::Memory;
use std::alloc::Global;
use std::rc::Rc;

/// A list from its end on. A link may belong to several lists.
pub enum Chain<T> {
    End,
    Link(T, Rc<Chain<T>>),
}

// A loop, since a derived drop calls itself for each link, and a long list would run out of stack.
impl<T: Drop> Drop for Chain<T> {
    fn drop(mut self) {
        loop {
            match self {
                Chain::End => return,
                Chain::Link(_, rest) => match Rc::into_inner(rest) {
                    Some(chain) => self = chain,
                    None => return,
                },
            }
        }
    }
}

/// What is left without the last links, so many of them.
pub fn without_last<T>(chain: &Rc<Chain<T>>, gone: usize) -> &Rc<Chain<T>>
    ensures { elements result.now.value ≡ take (length (elements chain.now.value) - gone) (elements chain.now.value) }
{
    let mut left = chain;
    for _ in 0..gone {
        match &**left {
            Chain::End => return left,
            Chain::Link(_, rest) => left = rest,
        }
    }
    left
}

/// The last elements, so many of them or all, the last one first.
pub fn from_the_end<T>(alloc: Global, chain: &Rc<Chain<T>>, count: usize) -> Result<Vec<&T>, Memory>
    ensures { IfOk result (λ all. map (λ element. element.now) all.items ≡ reverse (drop (length (elements chain.now.value) - count) (elements chain.now.value))) }
{
    let mut all = Vec::new(alloc);
    let mut left = &**chain;
    for _ in 0..count {
        match left {
            Chain::End => return Ok(all),
            Chain::Link(last, rest) => {
                all.push(last)?;
                left = rest;
            }
        }
    }
    Ok(all)
}
