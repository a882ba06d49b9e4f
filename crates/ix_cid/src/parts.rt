//! The parts of the CID at the front of some bytes, read in place.

ghost use Rattle.std.specs.Prelude.{◌≡◌, Ok, length, IfOk, IfSome};
ghost use Rattle.ix_cid.specs.Cid.{number_at, bytes_at, version_0_at, version_1_at, numbered_at, numbered_length_at, parts_at, cid_at, parts_of, hash_function_of, IsCid};
ghost use Rattle.ix_cid.specs.Parts.{parts_view};
ghost use Rattle.ix_cid.specs.Results.{Reads};

use crate::code::{
    DAG_CBOR, DAG_PB, IDENTITY, RAW, SHA2_256, SHA2_256_LENGTH, SHA2_512, SHA2_512_LENGTH,
};
use crate::fault::{CidFault, VarintFault};
use crate::hash_function::HashFunction;
use crate::varint::read_varint;

// The bytes that a CIDv0 begins with: sha2-256, and 32 digest bytes.
const VERSION_0_FRONT: [u8; 2] = [0x12, 0x20];

// The length of a CIDv0, in bytes.
const VERSION_0_LENGTH: u64 = 34;

// What most CIDs begin with: version 1, DAG-CBOR or raw, sha2-256, and 32 digest bytes.
const DAG_CBOR_FRONT: [u8; 4] = [0x01, 0x71, 0x12, 0x20];

const RAW_FRONT: [u8; 4] = [0x01, 0x55, 0x12, 0x20];

/// The parts of a CID, the digest in place in the CID's bytes.
#[derive(Debug, Clone, Copy)]
pub struct Parts<'a> {
    /// The version, 0 or 1.
    pub version: u64,
    /// The codec of the block, a code of the multicodec table: that of dag-pb for a CIDv0.
    pub codec: u64,
    /// The hash function, a code of the multicodec table: that of sha2-256 for a CIDv0.
    pub hash_code: u64,
    /// The bytes of the digest, without its length.
    pub digest: &'a [u8],
}

impl Parts<'_> {
    /// Returns the hash function, if it is one of the three that are known and the digest has its
    /// length.
    pub fn hash_function(&self) -> Option<HashFunction>
        ensures { result ≡ hash_function_of (parts_view self.now) }
    {
        if self.hash_code == IDENTITY {
            Some(HashFunction::Identity)
        } else if self.hash_code == SHA2_256 && self.digest.len() == SHA2_256_LENGTH {
            Some(HashFunction::Sha2_256)
        } else if self.hash_code == SHA2_512 && self.digest.len() == SHA2_512_LENGTH {
            Some(HashFunction::Sha2_512)
        } else {
            None
        }
    }
}

// Splits off the number at the front; returns it and the bytes after it.
fn split_number(bytes: &[u8]) -> Result<(u64, &[u8]), CidFault>
    ensures exact { Reads (λ r. (r.0, r.1.now)) result (number_at bytes.now) }
{
    match read_varint(bytes) {
        Ok((number, length)) => Ok((number, &bytes[length..])),
        Err(VarintFault::Truncated) => Err(CidFault::Truncated),
        Err(VarintFault::TooLong | VarintFault::NotMinimal) => Err(CidFault::Varint),
    }
}

// Splits off `count` bytes at the front; returns them and the bytes after them.
fn split_bytes(count: u64, bytes: &[u8]) -> Result<(&[u8], &[u8]), CidFault>
    ensures exact { Reads (λ r. (r.0.now, r.1.now)) result (bytes_at count bytes.now) }
{
    if (bytes.len() as u64) < count {
        return Err(CidFault::Truncated);
    }
    Ok(bytes.split_at(count as usize))
}

// Splits off a CIDv0; returns its parts and the bytes after it.
fn split_version_0(bytes: &[u8]) -> Result<(Parts<'_>, &[u8]), CidFault>
    ensures exact { Reads (λ r. (parts_view r.0, r.1.now)) result (version_0_at bytes.now) }
{
    let (front, rest) = split_bytes(VERSION_0_LENGTH, bytes)?;
    let parts = Parts {
        version: 0,
        codec: DAG_PB,
        hash_code: SHA2_256,
        digest: &front[VERSION_0_FRONT.len()..],
    };
    Ok((parts, rest))
}

// Splits off the parts of a CIDv1 after its version; returns them and the bytes after it.
fn split_version_1(bytes: &[u8]) -> Result<(Parts<'_>, &[u8]), CidFault>
    ensures exact { Reads (λ r. (parts_view r.0, r.1.now)) result (version_1_at bytes.now) }
{
    let (codec, rest) = split_number(bytes)?;
    let (hash_code, rest) = split_number(rest)?;
    let (size, rest) = split_number(rest)?;
    let (digest, rest) = split_bytes(size, rest)?;
    let parts = Parts {
        version: 1,
        codec,
        hash_code,
        digest,
    };
    Ok((parts, rest))
}

// Splits off the CIDv1 at the front; returns its parts and the bytes after it.
fn split_numbered(bytes: &[u8]) -> Result<(Parts<'_>, &[u8]), CidFault>
    ensures exact { Reads (λ r. (parts_view r.0, r.1.now)) result (numbered_at bytes.now) }
{
    let (version, rest) = split_number(bytes)?;
    if version != 1 {
        return Err(CidFault::Version(version));
    }
    split_version_1(rest)
}

// Splits off the CID at the front, if it begins as most do: these four bytes determine all but the
// digest. Returns its parts and the bytes after it.
fn split_usual(bytes: &[u8]) -> Option<(Parts<'_>, &[u8])>
    ensures exact { IfSome result (λ r. parts_at bytes.now ≡ Ok (parts_view r.0, r.1.now)) }
{
    let codec = if bytes.starts_with(&DAG_CBOR_FRONT) {
        DAG_CBOR
    } else if bytes.starts_with(&RAW_FRONT) {
        RAW
    } else {
        return None;
    };
    let behind = &bytes[RAW_FRONT.len()..];
    if behind.len() < SHA2_256_LENGTH {
        return None;
    }
    let (digest, rest) = behind.split_at(SHA2_256_LENGTH);
    let parts = Parts {
        version: 1,
        codec,
        hash_code: SHA2_256,
        digest,
    };
    Some((parts, rest))
}

/// Splits off the CID at the front; returns its parts and the bytes after it.
pub fn split_parts(bytes: &[u8]) -> Result<(Parts<'_>, &[u8]), CidFault>
    ensures exact { Reads (λ r. (parts_view r.0, r.1.now)) result (parts_at bytes.now) }
{
    if let Some(usual) = split_usual(bytes) {
        Ok(usual)
    } else if bytes.starts_with(&VERSION_0_FRONT) {
        split_version_0(bytes)
    } else {
        split_numbered(bytes)
    }
}

/// Returns the bytes of the CID at the front.
pub fn split_cid(bytes: &[u8]) -> Result<&[u8], CidFault>
    ensures exact { Reads (λ c. (c.now, length c.now)) result (cid_at bytes.now) }
    ensures cid { IfOk result (λ c. IsCid c.now) }
{
    let (_, rest) = split_parts(bytes)?;
    Ok(&bytes[..bytes.len() - rest.len()])
}

/// Returns the parts of the CID at the front, or empty ones if there is none.
pub fn parts_at(bytes: &[u8]) -> Parts<'_>
    ensures { parts_view result ≡ parts_of bytes.now }
{
    match split_parts(bytes) {
        Ok((parts, _)) => parts,
        Err(_) => Parts {
            version: 0,
            codec: 0,
            hash_code: 0,
            digest: &[],
        },
    }
}

/// Returns the length of the CIDv1 at the front, in bytes. The front of a CIDv0 is rejected as
/// version 18.
pub fn numbered_length(bytes: &[u8]) -> Result<usize, CidFault>
    ensures exact { Reads (λ n. n) result (numbered_length_at bytes.now) }
{
    let (_, rest) = split_numbered(bytes)?;
    Ok(bytes.len() - rest.len())
}
