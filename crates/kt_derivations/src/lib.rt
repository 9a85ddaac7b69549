//! The laws of the grammar for whole lists of tokens (Kotlin Language Specification 1.9, "Syntax grammar"): where a list has a
//! derivation that obeys the grammar's rules, the descent by the next tokens finds it. The rules are 29 tests by which the grammar
//! decides what its rows leave open.
#![tactic(auto)]

ghost use Rattle.kt_derivations.specs.Laws.{RowsAreClear, WholeIsRead, ReadingIsPreferred, StuckIsFault};
ghost use Rattle.kt_derivations.specs.Unread.{RulesDecide};

/// In every row of the grammar each test that is no rule holds wherever its part is derived, and fails wherever the other part of its
/// choice is derived and takes a token; and what stands behind a loop or an optional part whose test is no rule begins with tokens of
/// which that test fails. The first half also holds where only the ten rules that look farther than the next token are rules.
pub fn rows_are_clear()
    ensures { RowsAreClear }
{}

/// A whole list that has a derivation by a row, as that of files or of expressions, which obeys all 29 rules, has that derivation as
/// its reading; it has no other reading, nor has a front of it. Of lists whose derivations break a rule it says nothing.
pub fn whole_is_read()
    ensures { WholeIsRead }
{}

/// A reading by a row comes before each other derivation of the same tokens, or of others with which the list begins, that obeys the
/// ten rules that look farther than the next token. The 19 others need not be obeyed.
pub fn reading_is_preferred()
    ensures { ReadingIsPreferred }
{}

/// Where a row is stuck, the tokens before that place begin a list with a derivation, and no list that goes on with the token there,
/// or ends there, has a derivation that obeys the rules.
pub fn stuck_is_fault()
    ensures { StuckIsFault }
{}

/// Six small lists have a derivation and no reading, of no front either: `return a b`; `c as () -> a < b`; the branch `c is (a) -> b`;
/// a `try` with `finally { a -> b }` behind a clause; `if (c) val a: b < c`; and `if (c) a is (b) < c > ()`. So the rules are needed.
pub fn rules_decide()
    ensures { RulesDecide }
{}
