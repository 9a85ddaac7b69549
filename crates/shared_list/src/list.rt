//! A list that grows and shrinks at its end and shares its front.
ghost use Rattle.std.specs.Prelude.{◌≡◌, ◌++◌, ◌∷◌, ◌-◌, [], List, length, take, drop, map, IfOk, OnOk, OnErr, MatchOption};
ghost use Rattle.shared_list.specs.Chains.{elements};

use crate::chain::{Chain, from_the_end, without_last};
use kc_text::Memory;
use std::alloc::{AllocError, Global};
use std::marker::Model;
use std::rc::Rc;

/// A list of which copies share the elements. A copy, and a change at the end, take the time and the memory of what changes,
/// whatever the list's length.
#[derive(Drop)]
pub struct SharedList<T> {
    len: usize,
    chain: Rc<Chain<T>>,
}

impl<T> Model for SharedList<T> {
    ghost use Rattle.std.specs.Prelude.{List, length, ◌≡◌};
    ghost use Rattle.std.specs.Coded.{coded_list};
    ghost use Rattle.shared_list.specs.Chains.{elements};

    ghost Value = { List T };

    ghost coded = { coded_list T.code };

    ghost view = { λ list. elements list.chain.value };

    ghost invariant = { λ list. list.len ≡ length (elements list.chain.value) };
}

impl<T: Drop> Clone for SharedList<T> {
    ghost is_clone = { λ list copy. copy ≡ list };

    fn clone(&self) -> Result<SharedList<T>, AllocError> {
        Ok(SharedList {
            len: self.len,
            chain: self.chain.clone()?,
        })
    }
}

impl<T: Drop> SharedList<T> {
    /// The list without elements.
    pub fn new(alloc: Global) -> Result<SharedList<T>, Memory>
        ensures { IfOk result (λ list. list ≡ []) }
    {
        Ok(SharedList {
            len: 0,
            chain: Rc::new(alloc, Chain::End)?,
        })
    }

    /// How many elements the list has.
    pub fn len(&self) -> usize
        ensures { result ≡ length self.now }
    {
        self.len
    }

    /// The same elements, in constant time.
    pub fn share(&self) -> Result<SharedList<T>, Memory>
        ensures { IfOk result (λ list. list ≡ self.now) }
    {
        Ok(self.clone()?)
    }

    /// The last element, if there is one, in constant time.
    pub fn last(&self) -> Option<&T>
        ensures { MatchOption result (self.now ≡ []) (λ last. (front : List T) × (self.now ≡ front ++ last.now ∷ [])) }
    {
        match &*self.chain {
            Chain::End => None,
            Chain::Link(value, _) => Some(value),
        }
    }

    /// Puts an element at the end, in constant time. Lists that shared the elements stay as they are.
    pub fn push(&mut self, alloc: Global, value: T) -> Result<(), Memory>
        ensures ok { OnOk result (self.new ≡ self.old ++ value ∷ []) }
        ensures err { OnErr result (self.new ≡ self.old) }
    {
        if self.len == usize::MAX {
            return Err(Memory);
        }
        let rest = self.chain.clone()?;
        self.chain = Rc::new(alloc, Chain::Link(value, rest))?;
        self.len += 1;
        Ok(())
    }

    /// Takes the last elements away, so many of them or all, in time linear in their number. Lists that shared them keep them.
    pub fn take_last(&mut self, gone: usize) -> Result<(), Memory>
        ensures ok { OnOk result (self.new ≡ take (length self.old - gone) self.old) }
        ensures err { OnErr result (self.new ≡ self.old) }
    {
        self.chain = without_last(&self.chain, gone).clone()?;
        self.len = self.len.saturating_sub(gone);
        Ok(())
    }

    /// The elements in their order, in time linear in their number.
    pub fn in_order(&self, alloc: Global) -> Result<Vec<&T>, Memory>
        ensures { IfOk result (λ all. map (λ element. element.now) all.items ≡ self.now) }
    {
        self.last_in_order(alloc, self.len)
    }

    /// The last elements in their order, so many of them or all, in time linear in their number.
    pub fn last_in_order(&self, alloc: Global, count: usize) -> Result<Vec<&T>, Memory>
        ensures { IfOk result (λ all. map (λ element. element.now) all.items ≡ drop (length self.now - count) self.now) }
    {
        let mut all = from_the_end(alloc, &self.chain, count)?;
        all.reverse();
        Ok(all)
    }
}

impl<T: Copy + Drop> SharedList<T> {
    /// A list of these elements.
    pub fn from_slice(alloc: Global, elements: &[T]) -> Result<SharedList<T>, Memory>
        ensures { IfOk result (λ list. list ≡ elements.now) }
    {
        let mut list = SharedList::new(alloc)?;
        for element in elements {
            list.push(alloc, *element)?;
        }
        Ok(list)
    }
}
