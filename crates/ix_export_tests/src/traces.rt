//! The paths of visits of a worked graph, their text, and a report with them.

use ix_cbor::decode;
use ix_cid::Cid;
use ix_path::{GREATEST_SEGMENTS, RootPath};
use ix_selector::Selector;
use ix_store::Store;
use ix_trace::{path_text, trace, with_paths};
use ix_walk::Job;
use std::alloc::Global;
use std::test::Fail;

// The raw CID of `abc` under SHA-256.
const LEAF: &str = "01551220ba7816bf8f01cfea414140de5dae2223b00361a396177a9cb410ff61f20015ad";

// A list of a link to it, and the CID of that.
const NODE: &str = "0171122021e288dd95d20c03227dc4c449b3a8885fcb420f614135142435f3b33b428832";

const NODE_BLOCK: &str = "81d82a5825000155122\
0ba7816bf8f01cfea414140de5dae2223b00361a396177a9cb410ff61f20015ad";

// {"a": the node, "b": the node, "c": [0, [the leaf]]}, in an identity CID.
const ROOT: &str = "0171008501a3\
6161d82a5825000171122021e288dd95d20c03227dc4c449b3a8885fcb420f614135142435f3b33b428832\
6162d82a5825000171122021e288dd95d20c03227dc4c449b3a8885fcb420f614135142435f3b33b428832\
6163820081d82a58250001551220ba7816bf8f01cfea414140de5dae2223b00361a396177a9cb410ff61f20015ad";

// The selector of everything below.
const ALL: &str = "a16152a2616ca1646e6f6e65a0623a3ea16161a1613ea16140a0";

fn cid_of(alloc: Global, text: &str) -> Result<Cid, Fail> {
    let (cid, _) = Cid::read(alloc, hex::decode(alloc, text)?.as_slice())?;
    Ok(cid)
}

// The job of everything below two roots, which are the same.
fn job_of(alloc: Global) -> Result<Job, Fail> {
    let mut roots = Vec::new(alloc);
    roots.push(cid_of(alloc, ROOT)?)?;
    roots.push(cid_of(alloc, ROOT)?)?;
    let tree = decode(alloc, hex::decode(alloc, ALL)?.as_slice())?;
    let selector = Selector::read(alloc, &tree)?;
    let name = String::from_str(alloc, "a")?;
    Ok(Job::new(name, roots, selector, 20)?)
}

// The paths of some visits, without the text of their root, one after another.
fn paths(alloc: Global, job: &Job, numbers: &[u32]) -> Result<String, Fail> {
    let mut store = Store::new(alloc);
    store.add_copy(
        cid_of(alloc, NODE)?,
        hex::decode(alloc, NODE_BLOCK)?.as_slice(),
    )?;
    let root = cid_of(alloc, ROOT)?.text(alloc)?;
    let mut text = String::new(alloc);
    for path in trace(alloc, &store, job, numbers)? {
        match path {
            Some(path) => match path.as_str().strip_prefix(root.as_str()) {
                Some(rest) => write!(text, "[{rest}]")?,
                None => text.push_str("[another root]")?,
            },
            None => text.push_str("[none]")?,
        }
    }
    Ok(text)
}

#[test]
fn visits_at_every_link_and_once(rt: HostRuntime) -> Result<(), Fail> {
    let alloc = rt.alloc();
    let job = job_of(alloc)?;
    let every = paths(alloc, &job, &[0, 1, 2, 4, 5, 6, 8, 11])?;
    assert_eq!(rt;
        every.as_str(),
        "[][/a][/a/0][/b/0][/c/1/0][][/a/0][/c/1/0]"
    );
    let job = job.links_once();
    let once = paths(alloc, &job, &[2, 3, 4, 5, 9])?;
    assert_eq!(rt; once.as_str(), "[/a/0][/b][/c/1/0][]");
    Ok(())
}

#[test]
fn text_reads_back(rt: HostRuntime) -> Result<(), Fail> {
    let alloc = rt.alloc();
    let root = cid_of(alloc, LEAF)?;
    let mut segments = Vec::new(alloc);
    segments.push(Vec::from_slice(alloc, b"a/b,%")?)?;
    segments.push(Vec::from_slice(alloc, b"\xff ~")?)?;
    segments.push(Vec::new(alloc))?;
    let text = path_text(alloc, &root, segments.as_slice())?;
    assert_eq!(rt;
        text.as_str(),
        "bafkreif2pall7dybz7vecqka3zo24irdwabwdi4wc55jznaq75q7eaavvu/a%2Fb%2C%25/%FF%20~//"
    );
    let path = RootPath::parse(alloc, text.as_str(), GREATEST_SEGMENTS)?;
    assert!(rt; path.segments == segments);
    Ok(())
}

#[test]
fn each_skip_has_the_next_path(rt: HostRuntime) -> Result<(), Fail> {
    let report = "a done\n  0 missing x\n  3 hash y\nb done\n  5 codec z\ntotal\n";
    let text = with_paths(rt.alloc(), report, &[Some("x"), None, Some("r/0")])?;
    assert_eq!(rt;
        text.as_str(),
        "a done\n  0 missing x x\n  3 hash y\nb done\n  5 codec z r/0\ntotal\n"
    );
    Ok(())
}
