//! The words of cases, and the call of each.

use crate::example::Example;
use crate::{jobs, paths, receiving, runs, stores, walks};
use anyhow::{Result, bail};
use ix_case_formats::{cids, selectors, trees};
use std::alloc::Global;
use std::sync::Wait;
use std::thread::Threads;

/// Returns the answer of a word's call.
pub fn answer<R: Threads + Wait + Sync>(
    rt: &R,
    alloc: Global,
    example: &mut Example,
    word: &str,
    input: &str,
) -> Result<String> {
    match word {
        "varint" => cids::varint(alloc, input),
        "push_varint" => cids::pushed_varints(alloc, input),
        "cid" => cids::cid(alloc, input),
        "cid_within" => cids::cid_within(alloc, input),
        "cids" => cids::compared_cids(alloc, input),
        "text" => cids::text(alloc, input),
        "from_text" => cids::cid_of_text(alloc, input),
        "any_text" => cids::cid_of_any_text(alloc, input),
        "locate" => cids::located(alloc, input),
        "decode" => trees::decode(alloc, input),
        "tree" => trees::tree(alloc, input),
        "head" => trees::head(alloc, input),
        "selector" => selectors::selector(alloc, input),
        "step" => selectors::steps(alloc, input),
        "notation" => selectors::notation(alloc, input),
        "notation_of" => selectors::notation_of(alloc, input),
        "path" => paths::path(alloc, input),
        "along" => paths::along(alloc, input),
        "new_job" => walks::new_job(alloc, input),
        "jobs" => jobs::jobs(alloc, input),
        "prepare" => jobs::prepared(alloc, input),
        "root" => jobs::root(alloc, input),
        "print" => jobs::printed(alloc, input),
        "check_archive" => receiving::archive(alloc, input),
        "stream" => receiving::stream(alloc, input),
        "known" => receiving::known(rt, alloc, &example.store, input),
        "run" => runs::runs(rt, alloc, example),
        "tell" => runs::told(alloc, example),
        _ => answer_of_store(alloc, example, word, input),
    }
}

// Returns the answer of the words about the example's store.
fn answer_of_store(
    alloc: Global,
    example: &mut Example,
    word: &str,
    input: &str,
) -> Result<String> {
    match word {
        "add" => stores::add(alloc, &mut example.store, input),
        "add_copy" => stores::add_copy(alloc, &mut example.store, input),
        "car" => stores::car(alloc, example, input),
        "find" => stores::find(alloc, &example.store, input),
        "bytes" => stores::bytes(alloc, &example.store, input),
        "blocks" => stores::blocks(alloc, &example.store),
        "settle" => stores::settle(alloc, &mut example.store),
        "found" => stores::found_of_block(alloc, &example.store, input),
        "walk" => walks::walk(alloc, &example.store, input),
        "walk_once" => walks::walk_once(alloc, &example.store, input),
        "visits" => walks::visits(alloc, &example.store, input),
        "verdict" => walks::verdict(alloc, &example.store, input),
        "lead" => paths::lead(alloc, &example.store, input),
        "receive" => receiving::receive(alloc, &example.store, input),
        _ => bail!("no such word: {word}"),
    }
}
