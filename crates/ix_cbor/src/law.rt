//! Laws of spelling and reading.

ghost use Rattle.ix_cbor.specs.Laws.{HasOneSpelling, SpellsNoOther, NoSpellingBeginsAnother, BeginsOnlyItself, DecodesWhatIsSpelled, FindsWhatIsSpelled, FailsAtFirstFault, HasOneFirstFault, NoFaultIfSpelled, IsSpelledOrFaulty, DecodesItsSpelling};

/// States that a node has at most one spelling, that no spelling begins another, and that reading
/// returns a node exactly if the bytes spell it.
pub fn spelling_is_unique()
    ensures one { HasOneSpelling }
    ensures same { SpellsNoOther }
    ensures prefix { NoSpellingBeginsAnother }
    ensures prefix_same { BeginsOnlyItself }
    ensures read { DecodesWhatIsSpelled }
    ensures found { FindsWhatIsSpelled }
{}

/// States that bytes spell a node or have a first error, never both and no two, and that reading
/// returns an error exactly if it is the first one.
pub fn fault_is_unique()
    ensures read { FailsAtFirstFault }
    ensures one { HasOneFirstFault }
    ensures apart { NoFaultIfSpelled }
    ensures either { IsSpelledOrFaulty }
{}

/// States that decoding what was encoded gives the same tree.
pub fn decoding_undoes_encoding()
    ensures { DecodesItsSpelling }
{}
