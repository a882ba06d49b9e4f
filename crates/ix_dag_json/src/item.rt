//! Items in place: what begins where an item is known to be.

ghost use Rattle.std.specs.Prelude.{◌≡◌, Ok, List, ℕ};
ghost use Rattle.ix_cbor.specs.Reading.{own_at, key_at};
ghost use Rattle.ix_cbor.specs.Fronts.{HasCid, own_of_front};
ghost use Rattle.ix_cbor.specs.Views.{key_bytes};
ghost use Rattle.ix_dag_json.specs.Place.{HasFront, IsReadable, IsBehind};

use ix_cbor::{Front, read_front, read_key, skip_item};

// Returns the front of the item that begins here, and the bytes after it.
pub(crate) fn front_at(at: &[u8]) -> (Front<'_>, &[u8])
    requires { HasFront at.now }
    ensures exact { own_at at.now ≡ Ok (own_of_front result.0, result.1.now) }
    ensures cid { HasCid result.0 }
{
    match read_front(at) {
        Ok(read) => read,
        Err(_) => unreachable!(),
    }
}

// Returns the bytes after the item that begins here, in which lists and maps may nest so deep.
pub(crate) fn skipped(at: &[u8], levels: u32) -> &[u8]
    requires { IsReadable levels at.now }
    ensures { IsBehind levels at.now result.now }
{
    match skip_item(at) {
        Ok(rest) => rest,
        Err(_) => unreachable!(),
    }
}

// Returns the key that begins here, after a key or none, and the bytes after it.
pub(crate) fn key_at<'a>(before: Option<&'a [u8]>, at: &'a [u8]) -> (&'a [u8], &'a [u8])
    requires { (k : List ℕ × List ℕ) × (key_at (key_bytes before) at.now ≡ Ok k) }
    ensures { key_at (key_bytes before.entry) at.now ≡ Ok (result.0.now, result.1.now) }
{
    match read_key(before, at) {
        Ok(read) => read,
        Err(_) => unreachable!(),
    }
}
