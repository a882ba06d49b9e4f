//! The hash functions of CIDs.

/// A hash function by which a CID names its bytes.
#[derive(Debug, Drop, Clone, Copy, PartialEq, Eq)]
pub enum HashFunction {
    /// The digest is the data itself (identity), whatever its length.
    Identity,
    /// SHA-256 (FIPS 180-4), with 32 bytes.
    Sha2_256,
    /// SHA-512 (FIPS 180-4), with 64 bytes.
    Sha2_512,
}
