//! Verdicts.

ghost use Rattle.std.specs.Prelude.{◌≡◌, if◌then◌else◌};
ghost use Rattle.ix_verdict.specs.declared.verdict.Verdict.TheVariants.{Damaged, Malformed, Sound, Inline};
ghost use Rattle.ix_verdict.specs.Verdict.{passes, is_sound};

use std::fmt;

/// The verdict on a CID and the bytes that it names: the first that holds. Of an identity CID it is
/// Codec, Malformed or Inline, whatever the store has.
#[derive(Debug, Drop, Clone, Copy, PartialEq, Eq)]
pub enum Verdict {
    /// The CID's codec is neither raw (0x55) nor DAG-CBOR (0x71).
    Codec,
    /// The CID's hash function is none of identity, SHA-256 with 32 bytes and SHA-512 with 64.
    Hash,
    /// The store has no block under the CID.
    Missing,
    /// The block's hash, by the function that the CID names, isn't the CID's digest.
    Damaged,
    /// The codec is DAG-CBOR, and the bytes are not valid DAG-CBOR.
    Malformed,
    /// The block is what its CID names.
    Sound,
    /// The CID is an identity CID, and its bytes are what its codec says.
    Inline,
}

impl Verdict {
    /// Returns the verdict on a block that is there, by whether its hash matches its CID and whether
    /// it should be DAG-CBOR and isn't.
    #[inline]
    pub fn of_block(hash_matches: bool, malformed: bool) -> Verdict
        ensures { result ≡ (if hash_matches then (if malformed then Malformed else Sound) else Damaged) }
    {
        if !hash_matches {
            Verdict::Damaged
        } else if malformed {
            Verdict::Malformed
        } else {
            Verdict::Sound
        }
    }

    /// Returns the verdict on an identity CID, by whether its inline bytes should be DAG-CBOR and
    /// aren't.
    #[inline]
    pub fn of_inline(malformed: bool) -> Verdict
        ensures { result ≡ (if malformed then Malformed else Inline) }
    {
        if malformed {
            Verdict::Malformed
        } else {
            Verdict::Inline
        }
    }

    /// Whether a traversal continues below a CID with this verdict: Sound and Inline.
    #[inline]
    pub fn passes(self) -> bool
        ensures { result ≡ passes self }
    {
        match self {
            Verdict::Sound | Verdict::Inline => true,
            Verdict::Codec
            | Verdict::Hash
            | Verdict::Missing
            | Verdict::Damaged
            | Verdict::Malformed => false,
        }
    }

    /// Whether there is a block, and its bytes are what its CID says: Sound alone.
    #[inline]
    pub fn is_sound(self) -> bool
        ensures { result ≡ is_sound self }
    {
        match self {
            Verdict::Sound => true,
            Verdict::Codec
            | Verdict::Hash
            | Verdict::Missing
            | Verdict::Damaged
            | Verdict::Malformed
            | Verdict::Inline => false,
        }
    }
}

/// Writes the verdict as the report's word for it.
impl fmt::Display for Verdict {
    ghost use Rattle.std.specs.Prelude.{Some};
    ghost use Rattle.ix_verdict.specs.VerdictWords.{verdict_word};

    ghost output = { λ v. Some (verdict_word v) };

    fn fmt<W: fmt::Write>(&self, f: &mut fmt::Formatter<W>) -> fmt::Result {
        match self {
            Verdict::Codec => f.write_str("codec"),
            Verdict::Hash => f.write_str("hash"),
            Verdict::Missing => f.write_str("missing"),
            Verdict::Damaged => f.write_str("damaged"),
            Verdict::Malformed => f.write_str("malformed"),
            Verdict::Sound => f.write_str("sound"),
            Verdict::Inline => f.write_str("inline"),
        }
    }
}
