//! `Text`, a list of UTF-16 units.
ghost use Rattle.std.specs.Prelude.{◌≡◌, ℕ, ◌<◌, ◌↔◌, List, [], ◌∷◌, ◌++◌, length, nat_eq, slice_get, option_map, unwrap_or, IsTrue, IfOk, OnOk, OnErr};
ghost use Rattle.std.specs.Cmp.Lexicographic.{pointwise, nat_list_eq_equiv};
ghost use Rattle.std.specs.Cmp.{partial_equiv_from_equiv};
ghost use Rattle.std.specs.Hash as fed;
ghost use Rattle.std.specs.Cmp.Rules.{hashing};
ghost use Rattle.std.proofs.Common.{rules};

use crate::Memory;
use std::alloc::Global;
use std::hash::{Hash, Hasher};
use std::marker::Model;
use std::rc::Rc;

/// A text: a list of UTF-16 units, among which surrogates may stand alone.
///
/// Two texts are equal where their units are. A text is never normalized. A text and its copies share the units until one of them
/// changes.
#[derive(Debug, Drop)]
pub struct Text {
    alloc: Global,
    units: Option<Rc<Vec<u16>>>,
}

impl Model for Text {
    ghost Value = { List ℕ };

    ghost view = { λ text. unwrap_or (option_map (λ units. units.value.items) text.units) [] };
}

impl Text {
    /// The empty text, which takes no memory.
    pub fn new(alloc: Global) -> Text
        ensures { result ≡ [] }
    {
        Text { alloc, units: None }
    }

    /// The text of these units, in the memory that they have and a small block beside it.
    pub fn from_units(alloc: Global, units: Vec<u16>) -> Result<Text, Memory>
        ensures { IfOk result (λ text. text ≡ units.items) }
    {
        let units = Some(Rc::new(alloc, units)?);
        Ok(Text { alloc, units })
    }

    /// The text's units.
    pub fn units(&self) -> &[u16]
        ensures { result.now ≡ self.now }
    {
        match &self.units {
            Some(units) => units.as_slice(),
            None => &[],
        }
    }

    /// How many UTF-16 units the text has.
    pub fn len(&self) -> usize
        ensures { result ≡ length self.now }
    {
        self.units().len()
    }

    pub fn is_empty(&self) -> bool
        ensures { IsTrue result ↔ (self.now ≡ []) }
    {
        self.units().is_empty()
    }

    /// The UTF-16 unit at this index.
    pub fn unit_at(&self, at: usize) -> u16
        requires { at < length self.now }
        ensures { slice_get self.now at ≡ Some result }
    {
        self.units()[at]
    }

    /// Adds a unit at the end, in amortized constant time where no other text shares the units. Else this text gets its own.
    pub fn push(&mut self, unit: u16) -> Result<(), Memory>
        ensures ok { OnOk result (self.new ≡ self.old ++ unit ∷ []) }
        ensures err { OnErr result (self.new ≡ self.old) }
    {
        if let Some(units) = &mut self.units {
            if let Some(units) = Rc::get_mut(units) {
                units.push(unit)?;
                return Ok(());
            }
        }
        self.push_apart(&[unit])
    }

    /// Adds these units at the end, in amortized time linear in their number where no other text shares the units. Else this text
    /// gets its own.
    pub fn push_units(&mut self, units: &[u16]) -> Result<(), Memory>
        ensures ok { OnOk result (self.new ≡ self.old ++ units.now) }
        ensures err { OnErr result (self.new ≡ self.old) }
    {
        if let Some(own) = &mut self.units {
            if let Some(own) = Rc::get_mut(own) {
                own.extend_from_slice(units)?;
                return Ok(());
            }
        }
        self.push_apart(units)
    }

    /// Adds these units at the end of a copy of the text's, which the text then has alone.
    fn push_apart(&mut self, units: &[u16]) -> Result<(), Memory>
        ensures ok { OnOk result (self.new ≡ self.old ++ units.now) }
        ensures err { OnErr result (self.new ≡ self.old) }
    {
        let mut own = Vec::from_slice(self.alloc, self.units())?;
        own.extend_from_slice(units)?;
        self.units = Some(Rc::new(self.alloc, own)?);
        Ok(())
    }

    /// Puts these units in place of the text's, in the memory that it has where no other text shares it. Where memory runs out the
    /// text may hold anything.
    pub fn refill(&mut self, units: &[u16]) -> Result<(), Memory>
        ensures ok { OnOk result (self.new ≡ units.now) }
    {
        if let Some(own) = &mut self.units {
            if let Some(own) = Rc::get_mut(own) {
                own.clear();
                own.extend_from_slice(units)?;
                return Ok(());
            }
        }
        let own = Vec::from_slice(self.alloc, units)?;
        self.units = Some(Rc::new(self.alloc, own)?);
        Ok(())
    }

    /// A text with the same units, in constant time. The two share them.
    pub fn copy(&self, alloc: Global) -> Result<Text, Memory>
        ensures { IfOk result (λ copy. copy ≡ self.now) }
    {
        let units = match &self.units {
            Some(units) => Some(units.clone()?),
            None => None,
        };
        Ok(Text { alloc, units })
    }
}

impl PartialEq for Text {
    ghost eq = { pointwise nat_eq };

    ghost laws = { partial_equiv_from_equiv nat_list_eq_equiv };

    fn eq(&self, other: &Text) -> bool
        ensures value { result ≡ pointwise nat_eq self.now other.now }
        ensures same { IsTrue result ↔ (self.now ≡ other.now) }
    {
        self.units() == other.units()
    }
}

impl Eq for Text {
    ghost laws = { nat_list_eq_equiv };
}

impl Hash for Text {
    ghost hash_input = { fed.slice fed.u16 };

    ghost respects_eq = { Prim.search (hashing, rules) };

    fn hash<H: Hasher>(&self, state: &mut H) {
        self.units().hash(state);
    }
}
