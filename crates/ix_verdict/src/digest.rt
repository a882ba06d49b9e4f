//! Whether blocks have digests (FIPS 180-4).

ghost use Rattle.std.specs.Prelude.{◌≡◌, bytes_eq};
ghost use Rattle.sha2.specs.Sha256.{sha256};
ghost use Rattle.sha2.specs.Sha512.{sha512};
ghost use Rattle.ix_verdict.specs.Verdict.{digest_by};

use ix_cid::HashFunction;
use sha2::{Digest, Sha256, Sha512};

/// Whether a digest is that of a block by a hash function.
pub fn has_digest(function: HashFunction, digest: &[u8], block: &[u8]) -> bool
    ensures { result ≡ bytes_eq (digest_by function block.now) digest.now }
{
    match function {
        HashFunction::Identity => block == digest,
        HashFunction::Sha2_256 => is_sha2_256(digest, block),
        HashFunction::Sha2_512 => is_sha2_512(digest, block),
    }
}

// Whether the SHA-256 of a block (FIPS 180-4) is this digest. The hashers are in functions of their
// own, so that a block pays only for the stack of the one that it needs.
#[inline(never)]
fn is_sha2_256(digest: &[u8], block: &[u8]) -> bool
    ensures { result ≡ bytes_eq (sha256 block.now) digest.now }
{
    Sha256::digest(block).as_slice() == digest
}

// Whether the SHA-512 of a block (FIPS 180-4) is this digest.
#[inline(never)]
fn is_sha2_512(digest: &[u8], block: &[u8]) -> bool
    ensures { result ≡ bytes_eq (sha512 block.now) digest.now }
{
    Sha512::digest(block).as_slice() == digest
}
