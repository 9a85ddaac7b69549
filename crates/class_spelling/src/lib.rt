//! What bytes are read as a class, which class bytes spell, and which bytes are written for a class.
#![tactic(auto)]

ghost use Rattle.class_spelling.specs.Laws.{SpelledIsRead, ReadIsSpelled, WrittenSpells, SpellingIsOfOneClass, RefusedWhereNoneSpells, UnspelledIsRefused, WrittenIsRead, WrittenIsNoLonger};

/// Bytes that spell a class are read as that class.
pub fn spelled_is_read()
    ensures { SpelledIsRead }
{}

/// Bytes that are read as a class spell it.
pub fn read_is_spelled()
    ensures { ReadIsSpelled }
{}

/// Where any bytes spell a class, the bytes that are written for it do.
pub fn written_spells()
    ensures { WrittenSpells }
{}

/// No bytes spell two classes.
pub fn spelling_is_of_one_class()
    ensures { SpellingIsOfOneClass }
{}

/// Bytes in which a fault is found spell no class.
pub fn refused_where_none_spells()
    ensures { RefusedWhereNoneSpells }
{}

/// In bytes that spell no class a fault is found.
pub fn unspelled_is_refused()
    ensures { UnspelledIsRefused }
{}

/// The bytes that are written for a class are read as that class.
pub fn written_is_read()
    ensures { WrittenIsRead }
{}

/// No bytes that spell a class are shorter than those that are written for it.
pub fn written_is_no_longer()
    ensures { WrittenIsNoLonger }
{}
