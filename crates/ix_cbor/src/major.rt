//! Major types.

ghost use Rattle.std.specs.Prelude.{◌≡◌, ◌+◌, ◌*◌, ◌/◌, ◌<◌};
ghost use Rattle.ix_cbor.specs.Majors.{number_of};

/// A major type (RFC 8949 section 3.1): the upper three bits of a head's first byte.
#[derive(Debug, Drop, Clone, Copy, PartialEq, Eq)]
pub enum Major {
    /// An integer from 0 on, which is the argument.
    Unsigned,
    /// An integer below 0, which is -1 minus the argument.
    Negative,
    /// A byte string, of as many bytes as the argument says.
    Bytes,
    /// A text string, of as many bytes as the argument says.
    Text,
    /// A list (array), of as many elements as the argument says.
    List,
    /// A map, of as many entries as the argument says.
    Map,
    /// A tag, which is the argument, over one item.
    Tag,
    /// A simple value such as null, which is the argument, or a float.
    Simple,
}

impl Major {
    // Returns the major type of a head with this first byte.
    pub(crate) fn of(head: u8) -> Major
        ensures { number_of result ≡ head / 32 }
    {
        match head / 32 {
            0 => Major::Unsigned,
            1 => Major::Negative,
            2 => Major::Bytes,
            3 => Major::Text,
            4 => Major::List,
            5 => Major::Map,
            6 => Major::Tag,
            _ => Major::Simple,
        }
    }

    // Returns the first byte of a head with this information.
    pub(crate) fn with(self, information: u8) -> u8
        requires { information < 32 }
        ensures { result ≡ 32 * number_of self + information }
    {
        32 * (self as u8) + information
    }
}
