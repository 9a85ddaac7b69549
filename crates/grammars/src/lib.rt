//! Grammars as data: their derivations, the one reading that goes by the next tokens, the derivation that counts, and the fault of a
//! list that has none. `R` stands for the rows of a grammar, and `A` for its tokens.
#![tactic(auto)]

ghost use Rattle.grammars.specs.Laws.{ReadingDerives, OneReading, MoreMayFollow, ReadAlike, Progress, NotReadWhereStuck, WholeIsRead, ReadingIsPreferred, StuckIsFault, OneFault, DerivedOrFault, OneWay};
ghost use Rattle.grammars.specs.Example.{ElseIsInner};

/// A reading is a derivation.
pub fn reading_derives<R, A>()
    ensures { ReadingDerives R A }
{}

/// A part has one reading at most.
pub fn reading_is_unique<R, A>()
    ensures { OneReading R A }
{}

/// A derivation stays one with more tokens behind it.
pub fn more_may_follow<R, A>()
    ensures { MoreMayFollow R A }
{}

/// Tokens behind the next one that no test has looked at make no difference.
pub fn reads_alike<R, A>()
    ensures { ReadAlike R A }
{}

/// A part that cannot be empty takes a token.
pub fn takes_token<R, A>()
    ensures { Progress R A }
{}

/// Nothing is read where a part is stuck.
pub fn stuck_is_not_read<R, A>()
    ensures { NotReadWhereStuck R A }
{}

/// In a fair grammar a whole list with a derivation has a reading.
pub fn whole_is_read<R, A>()
    ensures { WholeIsRead R A }
{}

/// In a fair grammar the reading comes before each other derivation.
pub fn reading_is_preferred<R, A>()
    ensures { ReadingIsPreferred R A }
{}

/// In a fair grammar a row that is stuck is at the list's fault: no list goes on with the token there.
pub fn stuck_is_fault<R, A>()
    ensures { StuckIsFault R A }
{}

/// A list has one fault at most.
pub fn fault_is_unique<R, A>()
    ensures { OneFault R A }
{}

/// No list has a derivation and a fault.
pub fn derivation_excludes_fault<R, A>()
    ensures { DerivedOrFault R A }
{}

/// Of two derivations one alone comes before the other.
pub fn order_is_strict<A>()
    ensures { OneWay A }
{}

/// In a small grammar an `else` belongs to the innermost `if` that can take it.
pub fn else_is_inner()
    ensures { ElseIsInner }
{}
