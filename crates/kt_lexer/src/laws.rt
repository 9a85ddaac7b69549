//! What holds of every cut.
ghost use Rattle.kt_lexer.specs.Laws.{OneCut, CutOrFault, OneFault, GivesBack, AsciiByCategory, LongestOperator, LongestWord};

/// A text has one cut at most.
pub fn cut_is_unique()
    ensures { OneCut }
{}

/// No text has both a cut and a fault.
pub fn cut_excludes_fault()
    ensures { CutOrFault }
{}

/// A text has one fault at most.
pub fn fault_is_unique()
    ensures { OneFault }
{}

/// The spellings of a cut's tokens, with what is skipped between them, give the text back.
pub fn cut_gives_text_back()
    ensures { GivesBack }
{}

/// Below 128 the characters of identifiers are those of their general categories.
pub fn ascii_is_by_category()
    ensures { AsciiByCategory }
{}

/// The run of identifier characters that a word or a number is has no longer one in its place.
pub fn word_is_longest()
    ensures { LongestWord }
{}

/// No longer operator stands in the place of one.
pub fn operator_is_longest()
    ensures { LongestOperator }
{}
