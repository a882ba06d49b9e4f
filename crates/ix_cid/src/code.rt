//! Codes of the multicodec table.

/// The codec of blocks that are plain bytes.
pub const RAW: u64 = 0x55;

/// The codec of dag-pb, that of each CIDv0.
pub const DAG_PB: u64 = 0x70;

/// The codec of DAG-CBOR.
pub const DAG_CBOR: u64 = 0x71;

/// The hash function identity, whose digest is the data itself.
pub const IDENTITY: u64 = 0x00;

/// The hash function SHA-256 (FIPS 180-4).
pub const SHA2_256: u64 = 0x12;

/// The length of a SHA-256 digest, in bytes.
pub const SHA2_256_LENGTH: usize = 32;

/// The hash function SHA-512 (FIPS 180-4).
pub const SHA2_512: u64 = 0x13;

/// The length of a SHA-512 digest, in bytes.
pub const SHA2_512_LENGTH: usize = 64;
