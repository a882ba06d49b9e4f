//! Which blocks may be missing.

ghost use Rattle.std.specs.Prelude.{◌≡◌, Ok, Err, IfOk, IfErr};
ghost use Rattle.ix_verdict.specs.AllowMissing.{names_raw, names_dag_cbor, names_codec, allowed_in, allows, allow_none, allow_all};

use ix_cid::code::{DAG_CBOR, RAW};

/// Which links may lead to blocks that aren't there, by the codec of their CIDs.
#[derive(Debug, Drop, Clone, Copy, PartialEq, Eq)]
pub struct AllowMissing {
    pub raw: bool,
    pub dag_cbor: bool,
}

/// A word that names no codec.
#[derive(Debug, Drop, Clone, Copy, PartialEq, Eq)]
pub struct UnknownCodec<'a> {
    pub word: &'a str,
}

impl AllowMissing {
    /// No link.
    pub fn none() -> AllowMissing
        ensures { result ≡ allow_none }
    {
        AllowMissing {
            raw: false,
            dag_cbor: false,
        }
    }

    /// Every link.
    pub fn all() -> AllowMissing
        ensures { result ≡ allow_all }
    {
        AllowMissing {
            raw: true,
            dag_cbor: true,
        }
    }

    /// Parses words with commas between: `raw`, `dag-cbor`, and `all` for both.
    pub fn parse(text: &str) -> Result<AllowMissing, UnknownCodec<'_>>
        ensures named { IfOk result (λ which. allowed_in text.now ≡ Ok which) }
        ensures unknown { IfErr result (λ fault. allowed_in text.now ≡ Err fault.word.now) }
    {
        if let Some(word) = text.split(',').find(|word| !names_codec(word)) {
            return Err(UnknownCodec { word });
        }
        Ok(AllowMissing {
            raw: text.split(',').any(|word| names_raw(word)),
            dag_cbor: text.split(',').any(|word| names_dag_cbor(word)),
        })
    }

    /// Returns whether a link with this codec may.
    pub fn allows(self, codec: u64) -> bool
        ensures { result ≡ allows self codec }
    {
        (self.raw && codec == RAW) || (self.dag_cbor && codec == DAG_CBOR)
    }
}

// Returns whether a word names a codec.
fn names_codec(word: &str) -> bool
    ensures { result ≡ names_codec word.now }
{
    names_raw(word) || names_dag_cbor(word)
}

// Returns whether a word names the codec raw.
fn names_raw(word: &str) -> bool
    ensures { result ≡ names_raw word.now }
{
    word == "raw" || word == "all"
}

// Returns whether a word names the codec DAG-CBOR.
fn names_dag_cbor(word: &str) -> bool
    ensures { result ≡ names_dag_cbor word.now }
{
    word == "dag-cbor" || word == "all"
}
