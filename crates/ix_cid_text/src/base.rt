//! The bases of multibase, and their digits.

ghost use Rattle.std.specs.Prelude.{◌≡◌, ◌==◌, ◌+◌, ◌^◌, ◌<◌, ◌≤◌, length, All, IfSome, IfOk};
ghost use Rattle.std.specs.List.{position};
ghost use Rattle.ix_cid_text.specs.Base.{base_of, digit_value, digits_from, radix};
ghost use Rattle.ix_cid_text.specs.Gives.{Gives};

use crate::fault::CidTextFault;
use std::alloc::Global;
use std::fmt;

/// A base in which a CID is written (multibase).
#[derive(Debug, Drop, Clone, Copy, PartialEq, Eq)]
pub enum Base {
    /// Hex digits, in either case.
    Base16,
    /// `a` to `z` and `2` to `7`, in either case, without padding (RFC 4648, section 6).
    Base32,
    /// `0` to `9` and `a` to `z`, in either case.
    Base36,
    /// The digits of Bitcoin.
    Base58Btc,
    /// Base64 without padding (RFC 4648, section 4).
    Base64,
    /// Base64 for URLs without padding (RFC 4648, section 5).
    Base64Url,
}

const BASE16: [u8; 16] = *b"0123456789abcdef";

const BASE32: [u8; 32] = *b"abcdefghijklmnopqrstuvwxyz234567";

const BASE36: [u8; 36] = *b"0123456789abcdefghijklmnopqrstuvwxyz";

const BASE58_BTC: [u8; 58] = *b"123456789ABCDEFGHJKLMNPQRSTUVWXYZabcdefghijkmnopqrstuvwxyz";

const BASE64: [u8; 64] = *b"ABCDEFGHIJKLMNOPQRSTUVWXYZabcdefghijklmnopqrstuvwxyz0123456789+/";

const BASE64_URL: [u8; 64] = *b"ABCDEFGHIJKLMNOPQRSTUVWXYZabcdefghijklmnopqrstuvwxyz0123456789-_";

impl Base {
    /// Returns the base of the texts that begin with a byte, by the multibase table.
    pub(crate) fn of(prefix: u8) -> Option<Base>
        ensures { result ≡ base_of prefix }
    {
        match prefix {
            b'f' | b'F' => Some(Base::Base16),
            b'b' | b'B' => Some(Base::Base32),
            b'k' | b'K' => Some(Base::Base36),
            b'z' => Some(Base::Base58Btc),
            b'm' => Some(Base::Base64),
            b'u' => Some(Base::Base64Url),
            _ => None,
        }
    }

    /// Returns the numbers of the digits of a text, which is at this place in another.
    pub(crate) fn digits(
        self,
        alloc: Global,
        text: &[u8],
        place: usize,
    ) -> Result<Vec<u8>, CidTextFault>
        requires { place + length text.now < 2 ^ 64 }
        ensures exact { Gives (λ v. v.items) result (digits_from self place text.now) }
        ensures below { IfOk result (λ v. All (λ d. d < radix self) v.items) }
    {
        let mut digits = Vec::new(alloc);
        for (offset, byte) in text.iter().enumerate() {
            match self.digit(*byte) {
                Some(digit) => digits.push(digit)?,
                None => return Err(CidTextFault::Digit(self, place + offset)),
            }
        }
        Ok(digits)
    }

    // Returns the number of a digit.
    fn digit(self, byte: u8) -> Option<u8>
        ensures exact { result ≡ digit_value self byte }
        ensures below { IfSome result (λ d. d < radix self) }
    {
        match self {
            Base::Base16 => place_in(&BASE16, byte.to_ascii_lowercase()),
            Base::Base32 => place_in(&BASE32, byte.to_ascii_lowercase()),
            Base::Base36 => place_in(&BASE36, byte.to_ascii_lowercase()),
            Base::Base58Btc => place_in(&BASE58_BTC, byte),
            Base::Base64 => place_in(&BASE64, byte),
            Base::Base64Url => place_in(&BASE64_URL, byte),
        }
    }
}

// Returns the place of a digit in an alphabet.
fn place_in(alphabet: &[u8], byte: u8) -> Option<u8>
    requires { length alphabet.now ≤ 64 }
    ensures { result ≡ position (λ digit. digit == byte) alphabet.now }
{
    for (place, digit) in alphabet.iter().enumerate() {
        if *digit == byte {
            return Some(place as u8);
        }
    }
    None
}

impl fmt::Display for Base {
    ghost use Rattle.std.specs.Prelude.{Some};
    ghost use Rattle.ix_cid_text.specs.TextWords.{base_word};

    ghost output = { λ base. Some (base_word base) };

    fn fmt<W: fmt::Write>(&self, f: &mut fmt::Formatter<W>) -> fmt::Result {
        match self {
            Base::Base16 => f.write_str("base16"),
            Base::Base32 => f.write_str("base32"),
            Base::Base36 => f.write_str("base36"),
            Base::Base58Btc => f.write_str("base58btc"),
            Base::Base64 => f.write_str("base64"),
            Base::Base64Url => f.write_str("base64url"),
        }
    }
}
