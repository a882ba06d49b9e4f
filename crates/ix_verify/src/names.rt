//! The names of the multicodec table.

ghost use Rattle.std.specs.Prelude.{◌≡◌, option_map};
ghost use Rattle.ix_verify.specs.Names.{named_codec, named_hash};

/// Returns the name of a common codec.
pub fn codec_name(code: u64) -> Option<&'static str>
    ensures { option_map (λ s. s.now) result ≡ named_codec code }
{
    match code {
        0x51 => Some("cbor"),
        0x55 => Some("raw"),
        0x70 => Some("dag-pb"),
        0x71 => Some("dag-cbor"),
        0x72 => Some("libp2p-key"),
        0x78 => Some("git-raw"),
        0x85 => Some("dag-jose"),
        0x90 => Some("eth-block"),
        0xb0 => Some("bitcoin-block"),
        0x0129 => Some("dag-json"),
        0x0200 => Some("json"),
        _ => None,
    }
}

/// Returns the name of a common hash function.
pub fn hash_name(code: u64) -> Option<&'static str>
    ensures { option_map (λ s. s.now) result ≡ named_hash code }
{
    match code {
        0x00 => Some("identity"),
        0x11 => Some("sha1"),
        0x12 => Some("sha2-256"),
        0x13 => Some("sha2-512"),
        0x14 => Some("sha3-512"),
        0x15 => Some("sha3-384"),
        0x16 => Some("sha3-256"),
        0x17 => Some("sha3-224"),
        0x1b => Some("keccak-256"),
        0x1e => Some("blake3"),
        0x20 => Some("sha2-384"),
        0x56 => Some("dbl-sha2-256"),
        0xd5 => Some("md5"),
        0xb220 => Some("blake2b-256"),
        0xb240 => Some("blake2b-512"),
        0xb260 => Some("blake2s-256"),
        _ => None,
    }
}
