//! Laws that relate the reading of varints and CIDs to the tables that define them.

ghost use Rattle.ix_cid.specs.Laws.{HasVarint, HasNoOtherVarint, ReadsVarint, ReadsOnlyVarints, NoVarintBeginsAnother, ReadsCid, ReadsOnlyCids, ReadsFront, IsCidByTable, NoCidBeginsAnother, HasOneForm, HasItsVersion, HasItsCodec, HasItsHashCode, HasItsDigest, ReadsVersion1, ReadsOnlyVersion1};

/// States that each number below 2^63 has one varint, and no other number has any.
pub fn varint_has_one_spelling()
    ensures spelled { HasVarint }
    ensures one { HasNoOtherVarint }
{}

/// States that a varint at the front is read, whatever follows it, and nothing else is read.
pub fn varint_is_read_in_place()
    ensures read { ReadsVarint }
    ensures only { ReadsOnlyVarints }
{}

/// States that no varint begins another.
pub fn no_varint_begins_another()
    ensures { NoVarintBeginsAnother }
{}

/// States that a CID by the table is read at the front, whatever follows it, and nothing else is
/// read.
pub fn cid_is_read_in_place()
    ensures read { ReadsCid }
    ensures only { ReadsOnlyCids }
    ensures front { ReadsFront }
    ensures whole { IsCidByTable }
{}

/// States that no CID begins another, and each has one form.
pub fn no_cid_begins_another()
    ensures prefix { NoCidBeginsAnother }
    ensures one_parts { HasOneForm }
{}

/// States that the parts that are read of a CID are its parts by the table.
pub fn cid_has_its_parts()
    ensures version { HasItsVersion }
    ensures codec { HasItsCodec }
    ensures hash_code { HasItsHashCode }
    ensures digest { HasItsDigest }
{}

/// States that what is read as a version and its parts is a CIDv1.
pub fn numbered_cid_is_version_1()
    ensures read { ReadsVersion1 }
    ensures only { ReadsOnlyVersion1 }
{}
