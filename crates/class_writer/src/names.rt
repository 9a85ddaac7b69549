//! The indexes of names.
ghost use Rattle.std.specs.Prelude.{◌≡◌, ◌++◌, ◌<◌, ◌^◌, ℕ, List, OnOk, IfOk, length, nat_eq, None, Some};
ghost use Rattle.std.specs.Cmp.Lexicographic.{pointwise};
ghost use Rattle.std.specs.Option.{option_copied};
ghost use Rattle.indexmap.specs.IndexMap.{get};
ghost use Rattle.class_file.specs.Pools.{entry_at, text_in, name_in};
ghost use Rattle.class_file.specs.WrittenClass.{index_from, has_text, has_name, is_this, text_bytes, name_bytes, or_zero};
ghost use Rattle.class_writer.specs.Indexes.{AreFirst, slots_of, first_of, only_if};

use crate::numbers::put_u2;
use class_file::pool::{Entry, Pool};
use indexmap::IndexMap;
use kc_text::{Memory, Text};
use std::alloc::Global;

/// The first index of each text and of each class of a pool.
#[derive(Drop)]
pub struct Names<'a> {
    pub pool: &'a Pool,
    pub texts: IndexMap<Text, u16>,
    pub classes: IndexMap<Text, u16>,
}

impl<'a> Names<'a> {
    /// The names of a pool, in time linear in the pool and in the names of its classes.
    pub fn of(alloc: Global, pool: &'a Pool) -> Result<Names<'a>, Memory>
        requires { length pool.now < 2 ^ 16 }
        ensures first { IfOk result (λ names. AreFirst names) }
        ensures pool { IfOk result (λ names. slots_of names ≡ pool.now) }
    {
        let texts = texts_of(alloc, pool)?;
        let classes = classes_of(alloc, pool)?;
        Ok(Names {
            pool,
            texts,
            classes,
        })
    }

    /// Puts the index of a text at the end.
    pub fn put_text(&self, out: &mut Vec<u8>, text: &Text) -> Result<(), Memory>
        requires { AreFirst self.now }
        ensures { OnOk result (out.new.items ≡ out.old.items ++ text_bytes (slots_of self.now) text.now) }
    {
        put_u2(out, index_in(&self.texts, text))
    }

    /// Puts the index of a class or an array at the end.
    pub fn put_class(&self, out: &mut Vec<u8>, name: &Text) -> Result<(), Memory>
        requires { AreFirst self.now }
        ensures { OnOk result (out.new.items ≡ out.old.items ++ name_bytes (slots_of self.now) name.now) }
    {
        put_u2(out, index_in(&self.classes, name))
    }
}

fn index_in(indexes: &IndexMap<Text, u16>, name: &Text) -> u16
    ensures { result ≡ or_zero (get (pointwise nat_eq) indexes.now name.now) }
{
    match indexes.get(name) {
        Some(index) => *index,
        None => 0,
    }
}

// The text of a Utf8 entry.
fn text_at(pool: &Pool, index: usize) -> Option<&Text>
    ensures { option_copied result ≡ text_in (entry_at pool.now index) }
{
    match pool.get(index) {
        Some(Entry::Utf8(text)) => Some(text),
        _ => None,
    }
}

// The name of a Class entry.
fn class_at(pool: &Pool, index: usize) -> Option<&Text>
    ensures { option_copied result ≡ name_in pool.now (entry_at pool.now index) }
{
    match pool.get(index) {
        Some(Entry::Class(name)) => text_at(pool, *name as usize),
        _ => None,
    }
}

fn texts_of(alloc: Global, pool: &Pool) -> Result<IndexMap<Text, u16>, Memory>
    requires { length pool.now < 2 ^ 16 }
    ensures { IfOk result (λ texts. (t : List ℕ) → get (pointwise nat_eq) texts t ≡ index_from 0 (has_text t) pool.now) }
{
    let mut texts = IndexMap::new(alloc);
    for index in 0..pool.count() {
        note(alloc, &mut texts, text_at(pool, index), index as u16)?;
    }
    Ok(texts)
}

fn classes_of(alloc: Global, pool: &Pool) -> Result<IndexMap<Text, u16>, Memory>
    requires { length pool.now < 2 ^ 16 }
    ensures { IfOk result (λ classes. (t : List ℕ) → get (pointwise nat_eq) classes t ≡ index_from 0 (has_name pool.now t) pool.now) }
{
    let mut classes = IndexMap::new(alloc);
    for index in 0..pool.count() {
        note(alloc, &mut classes, class_at(pool, index), index as u16)?;
    }
    Ok(classes)
}

// Keeps an index of a name that has none yet.
fn note(
    alloc: Global,
    indexes: &mut IndexMap<Text, u16>,
    name: Option<&Text>,
    index: u16,
) -> Result<(), Memory>
    ensures { OnOk result ((t : List ℕ) → get (pointwise nat_eq) indexes.new t ≡ first_of (get (pointwise nat_eq) indexes.old t) (only_if (is_this t (option_copied name.entry)) index)) }
{
    let Some(name) = name else {
        return Ok(());
    };
    if indexes.get(name).is_some() {
        return Ok(());
    }
    indexes.insert(name.copy(alloc)?, index)?;
    Ok(())
}
