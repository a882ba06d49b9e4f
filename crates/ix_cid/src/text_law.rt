//! Laws that relate the texts of CIDs and their parsing.

ghost use Rattle.ix_cid.specs.Laws.{ReadsText, ReadsOnlyTexts, ReadsBase32, RefusesOtherLetters, IsBase32OfItsBytes};

/// States that `from_text` accepts exactly the texts of CIDv1s.
pub fn text_is_read_where_it_is_spelled()
    ensures read { ReadsText }
    ensures only { ReadsOnlyTexts }
{}

/// States that letters are read as base32 exactly under its three conditions, and no others spell
/// the same bytes.
pub fn base32_is_read_under_its_conditions()
    ensures read { ReadsBase32 }
    ensures refused { RefusesOtherLetters }
    ensures spelled { IsBase32OfItsBytes }
{}
