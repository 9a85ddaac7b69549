//! Grammars with rules: tests by which a grammar decides what its rows leave open. `R` stands for the rows of a grammar, and `A` for
//! its tokens.
#![tactic(auto)]

ghost use Rattle.bound_grammars.specs.Laws.{ReadingObeys, ObeyingDerives, FewerRules, NoRules, ObeyingIsRead, OneObeys, ReadingIsPreferred, StuckIsFault, ReadingIsFirst, MindingDerives, NoneMinded, FairWithNone, MindingIsRead, StuckIsNotMinded};

/// A reading obeys all rules.
pub fn reading_obeys<R, A>()
    ensures { ReadingObeys R A }
{}

/// What obeys rules is a derivation.
pub fn obeying_derives<R, A>()
    ensures { ObeyingDerives R A }
{}

/// What obeys rules obeys fewer of them.
pub fn fewer_are_obeyed<R, A>()
    ensures { FewerRules R A }
{}

/// Each derivation obeys no rules at all.
pub fn derivation_obeys_none<R, A>()
    ensures { NoRules R A }
{}

/// In a grammar that is clear but for its rules a derivation of a whole list that obeys them is the list's reading, and no other
/// reading of the list is there, nor of tokens with which it begins. Of other lists it says nothing.
pub fn obeying_is_read<R, A>()
    ensures { ObeyingIsRead R A }
{}

/// In such a grammar a whole list has one derivation at most that obeys the rules.
pub fn obeying_is_unique<R, A>()
    ensures { OneObeys R A }
{}

/// In a grammar whose tests are decided but for its rules the reading comes before each other derivation that obeys the rules.
pub fn reading_is_preferred<R, A>()
    ensures { ReadingIsPreferred R A }
{}

/// In a grammar that is clear but for its rules a row that is stuck is at a fault: no list that goes on with the token there has a
/// derivation that obeys the rules.
pub fn stuck_is_fault<R, A>()
    ensures { StuckIsFault R A }
{}

/// In a grammar whose tests are ordered but for those of two kinds the reading comes before each other derivation that takes no part
/// where a test of the first kind fails, and leaves none out where a test of the second kind holds. Other parts it may leave out.
pub fn reading_is_first<R, A>()
    ensures { ReadingIsFirst R A }
{}

/// What minds rules on what is taken and what is not left out is a derivation.
pub fn minding_derives<R, A>()
    ensures { MindingDerives R A }
{}

/// Each derivation minds no rules at all.
pub fn derivation_minds_none<R, A>()
    ensures { NoneMinded R A }
{}

/// A fair grammar is fair with no rules: there each derivation of a whole list will do.
pub fn fair_with_none<R, A>()
    ensures { FairWithNone R A }
{}

/// In a grammar that is fair but for its rules a whole list with a derivation that minds them has a reading. The reading may be another
/// derivation, where a turn can be taken within or without: it takes each turn within.
pub fn minding_is_read<R, A>()
    ensures { MindingIsRead R A }
{}

/// In such a grammar a row that is stuck is at a fault: no list that goes on with the token there has a derivation that minds the rules.
pub fn stuck_is_not_minded<R, A>()
    ensures { StuckIsNotMinded R A }
{}
