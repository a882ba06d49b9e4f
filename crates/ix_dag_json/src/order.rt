//! The entries of a map in place, in the order of DAG-JSON.

ghost use Rattle.std.specs.Prelude.{◌≡◌, IfOk};
ghost use Rattle.std.specs.Ordering.{nat_cmp};
ghost use Rattle.std.specs.Cmp.Lexicographic.{slice_cmp};
ghost use Rattle.ix_dag_json.specs.Place.{HasReadableEntries, AreEntriesAt, AreSorted};

use crate::item::{key_at, skipped};
use std::alloc::{AllocError, Global};
use std::cmp::Ordering;

// An entry in place: its key, and the bytes that begin with its value.
#[derive(Clone, Copy)]
pub(crate) struct Entry<'a> {
    pub key: &'a [u8],
    pub value: &'a [u8],
}

// Returns the entries of a map that begin here, in the order of DAG-CBOR, and the bytes after them.
pub(crate) fn entries_at<'a>(
    alloc: Global,
    at: &'a [u8],
    count: u64,
    levels: u32,
) -> Result<(Vec<Entry<'a>>, &'a [u8]), AllocError>
    requires { HasReadableEntries levels count at.now }
    ensures { IfOk result (λ r. AreEntriesAt levels count at.now r.0.items r.1.now) }
{
    let mut entries = Vec::new(alloc);
    let mut rest = at;
    let mut before = None;
    for _ in 0..count {
        let (key, value) = key_at(before, rest);
        rest = skipped(value, levels);
        entries.push(Entry { key, value })?;
        before = Some(key);
    }
    Ok((entries, rest))
}

// Sorts entries by the bytes of their keys. DAG-CBOR has shorter keys first.
pub(crate) fn sorted(mut entries: Vec<Entry<'_>>) -> Vec<Entry<'_>>
    ensures { AreSorted entries.entry.items result.items }
{
    entries.sort_unstable_by(
        |one, other| -> Ordering
            ensures { result ≡ slice_cmp nat_cmp one.now.key.now other.now.key.now }
        { one.key.cmp(other.key) },
    );
    entries
}
