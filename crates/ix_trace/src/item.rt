//! Items in place: what begins at a place that is known to have an item.

ghost use Rattle.std.specs.Prelude.{◌≡◌, None, Ok};
ghost use Rattle.ix_cbor.specs.Reading.{own_at, key_at};
ghost use Rattle.ix_cbor.specs.Fronts.{HasCid, own_of_front};
ghost use Rattle.ix_walk.specs.Descent.{IsItem, IsAfterItem, IsKey};

use ix_cbor::{Front, read_front, read_key, skip_item};

// Returns the front of the item that begins here, and the bytes after it.
pub(crate) fn front_at(at: &[u8]) -> (Front<'_>, &[u8])
    requires { IsItem at.now }
    ensures exact { own_at at.now ≡ Ok (own_of_front result.0, result.1.now) }
    ensures cid { HasCid result.0 }
{
    match read_front(at) {
        Ok(read) => read,
        Err(_) => unreachable!(),
    }
}

// Returns the bytes after the item that begins here.
pub(crate) fn skipped(at: &[u8]) -> &[u8]
    requires { IsItem at.now }
    ensures { IsAfterItem at.now result.now }
{
    match skip_item(at) {
        Ok(rest) => rest,
        Err(_) => unreachable!(),
    }
}

// Returns the key that begins here, and the bytes after it.
pub(crate) fn key_at(at: &[u8]) -> (&[u8], &[u8])
    requires { IsKey at.now }
    ensures { key_at None at.now ≡ Ok (result.0.now, result.1.now) }
{
    match read_key(None, at) {
        Ok(read) => read,
        Err(_) => unreachable!(),
    }
}

// Whether an item with this front may contain a link.
pub(crate) fn may_hold_links(front: Front<'_>) -> bool {
    matches!(front, Front::Link(_) | Front::List(_) | Front::Map(_))
}
