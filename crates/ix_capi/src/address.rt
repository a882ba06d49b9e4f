//! The addresses of bytes.

ghost use Rattle.std.specs.Prelude.{◌≡◌};
ghost use denote.RawPtr.{block_ptr};

/// Returns the address of a slice, for C to read from.
pub(crate) fn address_of(bytes: &[u8]) -> *const u8
    ensures { result ≡ block_ptr bytes.entry.ref_ptr.0 bytes.entry.ref_ptr.1 }
{
    bytes.as_ptr()
}
