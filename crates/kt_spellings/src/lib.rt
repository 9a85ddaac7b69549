//! How each kind of token of Kotlin is spelled, and that the cut into tokens takes the longest spelling.
#![tactic(auto)]

ghost use Rattle.kt_spellings.specs.Laws.{TokenIsSpelled, TokenIsLongest, SpelledIsToken};
ghost use Rattle.kt_spellings.specs.Cut.{CutIsSpelled, SpelledIsCut};

/// A token is spelled by the units that it takes.
pub fn token_is_spelled()
    ensures { TokenIsSpelled }
{}

/// No longer front of the same text spells any token.
pub fn token_is_longest()
    ensures { TokenIsLongest }
{}

/// Where no comment begins, the longest spelling in front of a text is the token.
pub fn spelled_is_token()
    ensures { SpelledIsToken }
{}

/// Each token of a cut is the longest spelling at its place, and between them there are white space, line ends and comments.
pub fn cut_is_spelled()
    ensures { CutIsSpelled }
{}

/// Longest spellings, one behind the other with what is skipped between them, are the cut.
pub fn spelled_is_cut()
    ensures { SpelledIsCut }
{}

#[cfg(test)]
mod tests;
