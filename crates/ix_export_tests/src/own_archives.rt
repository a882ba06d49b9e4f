//! A worked archive with each byte changed, cut off anywhere, and offered after its end.

use ix_cbor::decode;
use ix_cid::Cid;
use ix_fixtures::bytes_of;
use ix_own_archive::{
    ArchiveReason, ExpectedHeader, ReceiveFault, StreamLimits, StreamReceiver, check_archive,
};
use ix_selector::Selector;
use ix_verdict::AllowMissing;
use ix_walk::Job;
use std::alloc::{AllocError, Global};
use std::test::Fail;

// A list of a link to the raw block `abc`.
const NODE: &str = "0171122021e288dd95d20c03227dc4c449b3a8885fcb420f614135142435f3b33b428832";

// The archive of that list: the header, of 59 bytes, and the sections of the list, of 79, and of `abc`.
const HEADER: &str = "3aa265726f6f747381d82a582500\
0171122021e288dd95d20c03227dc4c449b3a8885fcb420f614135142435f3b33b428832\
6776657273696f6e01";

const LIST: &str = "4e0171122021e288dd95d20c03227dc4c449b3a8885fcb420f614135142435f3b33b428832\
81d82a58250001551220ba7816bf8f01cfea414140de5dae2223b00361a396177a9cb410ff61f20015ad";

const LEAF: &str =
    "2701551220ba7816bf8f01cfea414140de5dae2223b00361a396177a9cb410ff61f20015ad616263";

// Where the section of `abc` begins.
const LEAF_AT: usize = 138;

// The selector of everything below.
const ALL: &str = "a16152a2616ca1646e6f6e65a0623a3ea16161a1613ea16140a0";

// Limits that the archive doesn't exceed.
const ENOUGH: StreamLimits = StreamLimits {
    header: 58,
    section: 78,
};

fn cid_of(alloc: Global, text: &str) -> Result<Cid, Fail> {
    let (cid, _) = Cid::read(alloc, hex::decode(alloc, text)?.as_slice())?;
    Ok(cid)
}

// The job of everything below the list.
fn job(alloc: Global) -> Result<Job, Fail> {
    let mut roots = Vec::new(alloc);
    roots.push(cid_of(alloc, NODE)?)?;
    let tree = decode(alloc, hex::decode(alloc, ALL)?.as_slice())?;
    let selector = Selector::read(alloc, &tree)?;
    let name = String::from_str(alloc, "a")?;
    Ok(Job::new(name, roots, selector, 10)?)
}

// Each byte of an archive, changed to each other byte.
#[test]
fn a_byte_changed(rt: HostRuntime) -> Result<(), Fail> {
    let alloc = rt.alloc();
    let job = job(alloc)?;
    let mut bytes = bytes_of(alloc, &[HEADER, LIST, LEAF])?;
    let whole = check_archive(alloc, bytes.as_slice(), &job, AllowMissing::all());
    assert!(rt; whole.is_ok());
    for place in 0..bytes.len() {
        for change in 1..=255 {
            bytes[place] ^= change;
            let checked = check_archive(alloc, bytes.as_slice(), &job, AllowMissing::all());
            assert!(rt; checked.is_err(), "at {place}");
            bytes[place] ^= change;
        }
    }
    Ok(())
}

// The beginnings of an archive.
#[test]
fn an_archive_cut_off(rt: HostRuntime) -> Result<(), Fail> {
    let alloc = rt.alloc();
    let job = job(alloc)?;
    let bytes = bytes_of(alloc, &[HEADER, LIST, LEAF])?;
    for length in 0..bytes.len() {
        let checked = check_archive(alloc, &bytes[..length], &job, AllowMissing::none());
        assert!(rt; checked.is_err(), "after {length}");
    }
    Ok(())
}

// The archive with its first section in place of its second.
fn section_twice(alloc: Global) -> Result<Vec<u8>, Fail> {
    bytes_of(alloc, &[HEADER, LIST, LIST])
}

// The fault has the CID of the section that is refused.
#[test]
fn the_cid_of_a_section(rt: HostRuntime) -> Result<(), Fail> {
    let alloc = rt.alloc();
    let job = job(alloc)?;
    let bytes = section_twice(alloc)?;
    let checked = check_archive(alloc, bytes.as_slice(), &job, AllowMissing::none());
    let node = cid_of(alloc, NODE)?;
    let named = match checked {
        Err(fault) => match fault.reason {
            ArchiveReason::Refused(cid, ReceiveFault::Repeated) => cid == node,
            _ => false,
        },
        Ok(_) => false,
    };
    assert!(rt; named);
    Ok(())
}

// A receiver of the archive.
fn receiver(alloc: Global, job: &Job) -> Result<StreamReceiver<'_>, AllocError> {
    let header = ExpectedHeader::OfJob;
    StreamReceiver::new(alloc, job, AllowMissing::none(), header, ENOUGH)
}

// After a fault nothing is taken.
#[test]
fn a_stream_that_has_ended(rt: HostRuntime) -> Result<(), Fail> {
    let alloc = rt.alloc();
    let job = job(alloc)?;
    let bytes = section_twice(alloc)?;
    let mut stream = receiver(alloc, &job)?;
    let first = stream.append(bytes.as_slice());
    assert!(rt; first.is_err());
    assert_eq!(rt; stream.checked().len(), LEAF_AT);
    let again = match stream.append(b"") {
        Ok(()) => String::new(alloc),
        Err(fault) => fault.to_string(alloc)?,
    };
    assert_eq!(rt; again.as_str(), "138: ended");
    assert_eq!(rt; stream.checked().len(), LEAF_AT);
    let end = match stream.finish() {
        Ok(_) => String::new(alloc),
        Err(fault) => fault.to_string(alloc)?,
    };
    assert_eq!(rt; end.as_str(), "138: ended");
    Ok(())
}
