//! Laws, each the contract of a function that does nothing.

ghost use Rattle.clc_lexer.specs.Laws.{HasAllMarks, HasAllWords, HasOneNumber, SaysOnce, HasOneSplit};
ghost use Rattle.clc_lexer.specs.Laws.{IsLexedOnce, TokensLieWithin, HasOneFirstFault, FaultsLieWithin, HasOneColumn};

/// The bytes of a token say one thing: so no two marks and no two words have one spelling, and a number has one value and
/// one type. Each mark and each word stands in its table.
pub fn law_tables()
    ensures marks { HasAllMarks }
    ensures words { HasAllWords }
    ensures numbers { HasOneNumber }
    ensures sayings { SaysOnce }
{}

/// A source is split into pieces in one way at most, so it has one list of tokens at most. They lie in the source.
pub fn law_tokens()
    ensures splits { HasOneSplit }
    ensures once { IsLexedOnce }
    ensures within { TokensLieWithin }
{}

/// A source has one first fault at most, and its place is that of a byte.
pub fn law_faults()
    ensures once { HasOneFirstFault }
    ensures within { FaultsLieWithin }
{}

/// A place has one column.
pub fn law_columns()
    ensures { HasOneColumn }
{}
