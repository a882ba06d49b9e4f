//! The width of a head's argument, in bytes.

ghost use Rattle.std.specs.Prelude.{◌≡◌, length};
ghost use Rattle.std.specs.Int.{w64, byte_len, from_be_bytes};
ghost use Rattle.ix_cbor.specs.Widths.{bits_of, least_of};

// How many bytes after the first one of a head have its argument.
#[derive(Drop, Clone, Copy)]
pub(crate) enum Width {
    One,
    Two,
    Four,
    Eight,
}

impl Width {
    // The number of bytes.
    pub(crate) fn len(self) -> usize
        ensures { result ≡ byte_len (bits_of self) }
    {
        match self {
            Width::One => 1,
            Width::Two => 2,
            Width::Four => 4,
            Width::Eight => 8,
        }
    }

    // Returns the least argument that has no shorter form.
    pub(crate) fn least(self) -> u64
        ensures { result ≡ least_of self }
    {
        match self {
            Width::One => 24,
            Width::Two => 0x100,
            Width::Four => 0x1_0000,
            Width::Eight => 0x1_0000_0000,
        }
    }

    // Returns the number that so many bytes spell.
    pub(crate) fn number(self, bytes: &[u8]) -> u64
        requires { length bytes.now ≡ byte_len (bits_of self) }
        ensures { result ≡ from_be_bytes (bits_of self) bytes.now }
    {
        match self {
            Width::One => u64::from(bytes[0]),
            Width::Two => u64::from(u16::from_be_bytes([bytes[0], bytes[1]])),
            Width::Four => u64::from(u32::from_be_bytes([bytes[0], bytes[1], bytes[2], bytes[3]])),
            Width::Eight => u64_of(bytes),
        }
    }
}

// Returns the number that eight bytes spell.
pub(crate) fn u64_of(bytes: &[u8]) -> u64
    requires { length bytes.now ≡ 8 }
    ensures { result ≡ from_be_bytes w64 bytes.now }
{
    u64::from_be_bytes([
        bytes[0], bytes[1], bytes[2], bytes[3], bytes[4], bytes[5], bytes[6], bytes[7],
    ])
}
