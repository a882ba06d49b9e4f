//! What `prefetch` makes of worked graphs, and walks over it beside walks.

use ix_cbor::decode;
use ix_cid::Cid;
use ix_prefetch::{Expansions, TableWalk, prefetch};
use ix_selector::Selector;
use ix_store::Store;
use ix_walk::{Job, Visit, Walk, WalkStop};
use sha2::{Digest, Sha256};
use std::alloc::{AllocError, Global};
use std::test::Fail;
use std::thread::Threads;

// The raw CID of `abc` under SHA-256.
const LEAF: &str = "01551220ba7816bf8f01cfea414140de5dae2223b00361a396177a9cb410ff61f20015ad";

// A list of a link to it, and the CID of that.
const NODE: &str = "0171122021e288dd95d20c03227dc4c449b3a8885fcb420f614135142435f3b33b428832";

const NODE_BLOCK: &str = "81d82a5825000155122\
0ba7816bf8f01cfea414140de5dae2223b00361a396177a9cb410ff61f20015ad";

// A list of a link to a raw block that isn't there.
const OTHER_BLOCK: &str = "81d82a5825000155122\
0ffa63583dfa6706b87d284b86b0d693a161e4840aad2c5cf6b5d27c3b9621f7d";

// {"a": the node, "b": the node, "c": [the leaf, the block that isn't there]}, and the CID of that.
const TREE: &str = "01711220a8eef344757a57c8c4bcfe39582fc0c97c48cc4b40177547e97b63b88df57dcf";

const TREE_BLOCK: &str = "a3\
6161d82a5825000171122021e288dd95d20c03227dc4c449b3a8885fcb420f614135142435f3b33b428832\
6162d82a5825000171122021e288dd95d20c03227dc4c449b3a8885fcb420f614135142435f3b33b428832\
616382d82a58250001551220ba7816bf8f01cfea414140de5dae2223b00361a396177a9cb410ff61f20015ad\
d82a58250001551220ffa63583dfa6706b87d284b86b0d693a161e4840aad2c5cf6b5d27c3b9621f7d";

// The selector of everything below.
const ALL: &str = "a16152a2616ca1646e6f6e65a0623a3ea16161a1613ea16140a0";

// That of what is at most two steps below.
const NEAR: &str = "a16152a2616ca165646570746803623a3ea16161a1613ea16140a0";

// More bytes than any table here takes.
const ANY_BYTES: usize = 1 << 20;

fn cid_of(alloc: Global, text: &str) -> Result<Cid, Fail> {
    let (cid, _) = Cid::read(alloc, hex::decode(alloc, text)?.as_slice())?;
    Ok(cid)
}

// A store of the tree, of this block under the CID of the node, and of the leaf.
fn tree_of(alloc: Global, node: &str) -> Result<Store, Fail> {
    let mut store = Store::new(alloc);
    store.add_copy(
        cid_of(alloc, TREE)?,
        hex::decode(alloc, TREE_BLOCK)?.as_slice(),
    )?;
    store.add_copy(cid_of(alloc, NODE)?, hex::decode(alloc, node)?.as_slice())?;
    store.add_copy(cid_of(alloc, LEAF)?, b"abc")?;
    Ok(store)
}

// The DAG-CBOR CID under SHA-256 of a block that isn't there: its digest is zeros but for the last byte.
fn absent(alloc: Global, number: u8) -> Result<Vec<u8>, Fail> {
    let mut bytes = hex::decode(alloc, "01711220")?;
    bytes.resize(35, 0)?;
    bytes.push(number)?;
    Ok(bytes)
}

// The block of a list of links to these CIDs.
fn list_of(alloc: Global, cids: &[Vec<u8>]) -> Result<Vec<u8>, Fail> {
    let mut bytes = Vec::new(alloc);
    let count = cids.len().min(255) as u8;
    if count < 24 {
        bytes.push(0x80 + count)?;
    } else {
        bytes.push(0x98)?;
        bytes.push(count)?;
    }
    for cid in cids {
        bytes.extend_from_slice(&[0xd8, 0x2a, 0x58, 0x25, 0])?;
        bytes.extend_from_slice(cid.as_slice())?;
    }
    Ok(bytes)
}

// Adds a list of links to these CIDs, and returns its own.
fn add_list(alloc: Global, store: &mut Store, cids: &[Vec<u8>]) -> Result<Vec<u8>, Fail> {
    let block = list_of(alloc, cids)?;
    let mut bytes = hex::decode(alloc, "01711220")?;
    bytes.extend_from_slice(Sha256::digest(block.as_slice()).as_slice())?;
    let (cid, _) = Cid::read(alloc, bytes.as_slice())?;
    store.add_copy(cid, block.as_slice())?;
    Ok(bytes)
}

// Adds a list of links to 130 lists. Each has a link to one more list, which is the same for all and has a
// link to the block below, and a link to a block that isn't there.
fn star(alloc: Global, below: (Store, Vec<u8>)) -> Result<(Store, Vec<u8>), Fail> {
    let (mut store, below) = below;
    let mut last = Vec::new(alloc);
    last.push(below)?;
    let shared = add_list(alloc, &mut store, last.as_slice())?;
    let mut middle = Vec::new(alloc);
    for number in 1..=130u8 {
        let mut links = Vec::new(alloc);
        links.push(shared.clone()?)?;
        links.push(absent(alloc, number)?)?;
        middle.push(add_list(alloc, &mut store, links.as_slice())?)?;
    }
    let root = add_list(alloc, &mut store, middle.as_slice())?;
    Ok((store, root))
}

// Seventy lists, each of a link to the next. The last has a link to a block that isn't there.
fn chain(alloc: Global) -> Result<(Store, Vec<u8>), Fail> {
    let mut store = Store::new(alloc);
    let mut root = absent(alloc, 0)?;
    for _ in 0..70 {
        let mut links = Vec::new(alloc);
        links.push(root)?;
        root = add_list(alloc, &mut store, links.as_slice())?;
    }
    Ok((store, root))
}

// The job of what a selector enters below a root.
fn job_of(alloc: Global, selector: &str, root: Cid, limit: u32) -> Result<Job, Fail> {
    let mut cids = Vec::new(alloc);
    cids.push(root)?;
    let tree = decode(alloc, hex::decode(alloc, selector)?.as_slice())?;
    let selector = Selector::read(alloc, &tree)?;
    let name = String::from_str(alloc, "a")?;
    Ok(Job::new(name, cids, selector, limit)?)
}

// Appends a visit as its depth and the position of its block, or a stop.
fn push_item(text: &mut String, item: &Result<Visit, WalkStop>) -> Result<(), AllocError> {
    match item {
        Ok(visit) => match visit.block {
            Some(place) => write!(text, "{}.{place} ", visit.depth),
            None => write!(text, "{}.- ", visit.depth),
        },
        Err(stop) => write!(text, "{stop:?} "),
    }
}

fn tabled(alloc: Global, table: &Expansions<'_>) -> Result<String, AllocError> {
    let mut text = String::new(alloc);
    for item in TableWalk::new(alloc, table, 0)? {
        push_item(&mut text, &item)?;
    }
    Ok(text)
}

fn walked(alloc: Global, store: &Store, job: &Job) -> Result<String, AllocError> {
    let mut text = String::new(alloc);
    for item in Walk::new(alloc, store, job, 0)? {
        push_item(&mut text, &item)?;
    }
    Ok(text)
}

// How many expansions the table of a job has, the visits over it, and whether a walk has the same.
fn prefetched<R: Threads + Sync>(
    rt: &R,
    alloc: Global,
    store: &Store,
    job: &Job,
    most_bytes: usize,
) -> Result<Option<(usize, String, bool)>, AllocError> {
    match prefetch(rt, alloc, store, job, 4, most_bytes) {
        Some(table) => {
            let visits = tabled(alloc, &table)?;
            let same = visits == walked(alloc, store, job)?;
            Ok(Some((table.len(), visits, same)))
        }
        None => Ok(None),
    }
}

// That as a text.
fn told<R: Threads + Sync>(
    rt: &R,
    alloc: Global,
    store: &Store,
    job: &Job,
) -> Result<String, AllocError> {
    match prefetched(rt, alloc, store, job, ANY_BYTES)? {
        Some((count, visits, same)) => format!(in alloc; "{count} / {visits}{same}"),
        None => String::from_str(alloc, "none"),
    }
}

// The same with the number of the items in place of the visits.
fn counted<R: Threads + Sync>(
    rt: &R,
    alloc: Global,
    store: &Store,
    job: &Job,
    most_bytes: usize,
) -> Result<String, AllocError> {
    match prefetched(rt, alloc, store, job, most_bytes)? {
        Some((count, visits, same)) => {
            let items = spaces(visits.as_str());
            format!(in alloc; "{count} {items} {same}")
        }
        None => String::from_str(alloc, "none"),
    }
}

fn spaces(text: &str) -> usize {
    text.as_bytes().iter().filter(|b| **b == b' ').count()
}

// The same of a job of everything below a root, at every link and with link-visit-once.
fn counts<R: Threads + Sync>(
    rt: &R,
    alloc: Global,
    graph: &(Store, Vec<u8>),
    limit: u32,
    most_bytes: usize,
) -> Result<String, Fail> {
    let (store, root) = graph;
    let (root, _) = Cid::read(alloc, root.as_slice())?;
    let job = job_of(alloc, ALL, root, limit)?;
    let every = counted(rt, alloc, store, &job, most_bytes)?;
    let job = job.links_once();
    let once = counted(rt, alloc, store, &job, most_bytes)?;
    let text = format!(in alloc; "{every} / {once}")?;
    Ok(text)
}

#[test]
fn a_tree(rt: HostRuntime) -> Result<(), Fail> {
    let alloc = rt.alloc();
    let store = tree_of(alloc, NODE_BLOCK)?;
    let job = job_of(alloc, ALL, cid_of(alloc, TREE)?, 10)?;
    let every = told(&rt, alloc, &store, &job)?;
    assert_eq!(rt; every.as_str(), "2 / 0.0 1.1 2.2 1.1 2.2 1.2 1.- true");
    let job = job.links_once();
    let once = told(&rt, alloc, &store, &job)?;
    assert_eq!(rt; once.as_str(), "2 / 0.0 1.1 2.2 1.1 1.2 1.- true");
    Ok(())
}

#[test]
fn a_tree_with_a_damaged_block(rt: HostRuntime) -> Result<(), Fail> {
    let alloc = rt.alloc();
    let store = tree_of(alloc, OTHER_BLOCK)?;
    let job = job_of(alloc, ALL, cid_of(alloc, TREE)?, 10)?;
    let every = told(&rt, alloc, &store, &job)?;
    assert_eq!(rt; every.as_str(), "2 / 0.0 1.1 2.- 1.1 2.- 1.2 1.- true");
    let job = job.links_once();
    let once = told(&rt, alloc, &store, &job)?;
    assert_eq!(rt; once.as_str(), "2 / 0.0 1.1 1.1 1.2 1.- true");
    Ok(())
}

// Each step leaves another residual.
#[test]
fn a_tree_with_several_residuals(rt: HostRuntime) -> Result<(), Fail> {
    let alloc = rt.alloc();
    let store = tree_of(alloc, NODE_BLOCK)?;
    let job = job_of(alloc, NEAR, cid_of(alloc, TREE)?, 10)?;
    let every = told(&rt, alloc, &store, &job)?;
    assert_eq!(rt; every.as_str(), "2 / 0.0 1.1 2.2 1.1 2.2 1.2 1.- true");
    let job = job.links_once();
    let once = told(&rt, alloc, &store, &job)?;
    assert_eq!(rt; once.as_str(), "2 / 0.0 1.1 2.2 1.1 1.2 1.- true");
    Ok(())
}

#[test]
fn where_it_ends(rt: HostRuntime) -> Result<(), Fail> {
    let alloc = rt.alloc();
    let (mut store, root) = star(alloc, (Store::new(alloc), absent(alloc, 0)?))?;
    store.enable_memo()?;
    let graph = (store, root);
    // All of it: the expansions of the middle level in three shares.
    let all = counts(&rt, alloc, &graph, 1000, ANY_BYTES)?;
    assert_eq!(rt; all.as_str(), "132 521 true / 132 392 true");
    // The root and its links take 2,360 bytes, which leaves 578 for each share. A share begins with 256 and
    // takes 72 for a list, so it has more than that after five.
    let first = counts(&rt, alloc, &graph, 1000, 4096)?;
    assert_eq!(rt; first.as_str(), "16 521 true / 16 392 true");
    // No room for an expansion is no lack of memory.
    let none = counts(&rt, alloc, &graph, 1000, 0)?;
    assert_eq!(rt; none.as_str(), "0 521 true / 0 392 true");
    let limited = counts(&rt, alloc, &graph, 100, ANY_BYTES)?;
    assert_eq!(rt; limited.as_str(), "100 101 true / 100 101 true");
    // Sixty-four levels after the wide one, each of one pair.
    let below = counts(&rt, alloc, &star(alloc, chain(alloc)?)?, 1000, ANY_BYTES)?;
    assert_eq!(rt; below.as_str(), "195 1001 true / 195 462 true");
    // Of a chain nothing is kept.
    let narrow = counts(&rt, alloc, &chain(alloc)?, 1000, ANY_BYTES)?;
    assert_eq!(rt; narrow.as_str(), "0 71 true / 0 71 true");
    Ok(())
}
