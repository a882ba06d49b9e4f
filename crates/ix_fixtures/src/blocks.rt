//! Blocks in hex, their stores, and the archives of jobs over these.

use ix_cid::Cid;
use ix_store::Store;
use std::alloc::Global;
use std::test::Fail;

/// A section in hex: how many bytes are after that number, a CID and a block.
pub type Section = (&'static str, &'static str, &'static str);

// What is before and after the CID in the header of an archive.
const ROOTS: &str = "3aa265726f6f747381d82a582500";

const VERSION: &str = "6776657273696f6e01";

/// The CID of the raw block `abc`.
pub const ABC: &str = "01551220ba7816bf8f01cfea414140de5dae2223b00361a396177a9cb410ff61f20015ad";

/// The section of `abc`.
pub const ABC_SECTION: Section = ("27", ABC, "616263");

/// The CID of a list of one link, to `abc`.
pub const ONE_LINK: &str =
    "0171122021e288dd95d20c03227dc4c449b3a8885fcb420f614135142435f3b33b428832";

/// The section of that list.
pub const ONE_LINK_SECTION: Section = (
    "4e",
    ONE_LINK,
    "81d82a58250001551220ba7816bf8f01cfea414140de5dae2223b00361a396177a9cb410ff61f20015ad",
);

/// The CID of a list of a link to another, which has a link to the list of one link.
pub const OUTER: &str = "01711220ef6f019fd31212249247bbeb4c0bb0a49a4784b5d4652d1c10ea8922615146b2";

/// The block of the other.
pub const INNER_BLOCK: &str =
    "81d82a5825000171122021e288dd95d20c03227dc4c449b3a8885fcb420f614135142435f3b33b428832";

/// Four blocks, each linked by the one before: all that is below the first, which is `OUTER`.
pub const CHAIN: [Section; 4] = [
    (
        "4e",
        OUTER,
        "81d82a58250001711220248ca8088499858ab449f8b907c08d937fb35dfa39d875f2b052805320b1bb91",
    ),
    (
        "4e",
        "01711220248ca8088499858ab449f8b907c08d937fb35dfa39d875f2b052805320b1bb91",
        INNER_BLOCK,
    ),
    ONE_LINK_SECTION,
    ABC_SECTION,
];

/// A CID under which another block than its own is stored.
pub const DAMAGED: &str =
    "01711220530e239c204f4923f6392cfa40cd12101b2a857704552ef7152f21d00f17bb2d";

/// That block, with a link to `abc`.
pub const DAMAGED_SECTION: Section = (
    "4f",
    DAMAGED,
    "82d82a58250001551220ba7816bf8f01cfea414140de5dae2223b00361a396177a9cb410ff61f20015ad01",
);

/// The CID of a list of links to `DAMAGED` and to the list of one link.
pub const LIST: &str = "01711220a439edb93050bfc12503ce18e0b03a67d463f0ae906a25449ff35326c6fa9cd3";

/// The section of that list.
pub const LIST_SECTION: Section = (
    "77",
    LIST,
    "82d82a58250001711220530e239c204f4923f6392cfa40cd12101b2a857704552ef7152f21d00f17bb2dd82a5825000171122021e288dd95d20c03227dc4c449b3a8885fcb420f614135142435f3b33b428832",
);

/// The bytes of hex texts, one after another.
pub fn bytes_of(alloc: Global, pieces: &[&str]) -> Result<Vec<u8>, Fail> {
    let mut bytes = Vec::new(alloc);
    for piece in pieces {
        let part = hex::decode(alloc, *piece)?;
        bytes.extend_from_slice(part.as_slice())?;
    }
    Ok(bytes)
}

/// The bytes of sections, one after another.
pub fn sections_of(alloc: Global, sections: &[Section]) -> Result<Vec<u8>, Fail> {
    let mut bytes = Vec::new(alloc);
    for (length, cid, block) in sections {
        let section = bytes_of(alloc, &[*length, *cid, *block])?;
        bytes.extend_from_slice(section.as_slice())?;
    }
    Ok(bytes)
}

/// The archive of a root, with the bytes of its sections.
pub fn archive_with(alloc: Global, root: &[u8], sections: &[u8]) -> Result<Vec<u8>, Fail> {
    let mut archive = bytes_of(alloc, &[ROOTS])?;
    archive.extend_from_slice(root)?;
    archive.extend_from_slice(bytes_of(alloc, &[VERSION])?.as_slice())?;
    archive.extend_from_slice(sections)?;
    Ok(archive)
}

/// The archive of a root in hex, with these sections.
pub fn archive_of(alloc: Global, root: &str, sections: &[Section]) -> Result<Vec<u8>, Fail> {
    let root = bytes_of(alloc, &[root])?;
    let sections = sections_of(alloc, sections)?;
    archive_with(alloc, root.as_slice(), sections.as_slice())
}

/// The archive of everything below `OUTER` in the chain.
pub fn chain_archive(alloc: Global) -> Result<Vec<u8>, Fail> {
    archive_of(alloc, OUTER, CHAIN.as_slice())
}

/// The archive of everything below `LIST`, without what is damaged.
pub fn list_archive(alloc: Global) -> Result<Vec<u8>, Fail> {
    let sections = [LIST_SECTION, ONE_LINK_SECTION, ABC_SECTION];
    archive_of(alloc, LIST, sections.as_slice())
}

/// The CID of a hex text.
pub fn cid_of(alloc: Global, text: &str) -> Result<Cid, Fail> {
    let bytes = hex::decode(alloc, text)?;
    let (cid, _) = Cid::read(alloc, bytes.as_slice())?;
    Ok(cid)
}

/// The store of the blocks of sections under their CIDs, which caches what is found of them.
pub fn store_of(alloc: Global, sections: &[Section]) -> Result<Store, Fail> {
    let mut store = Store::new(alloc);
    for (_, cid, block) in sections {
        store.add(cid_of(alloc, cid)?, hex::decode(alloc, *block)?)?;
    }
    store.enable_memo()?;
    Ok(store)
}

/// The store of the chain.
pub fn chain_of(alloc: Global) -> Result<Store, Fail> {
    store_of(alloc, CHAIN.as_slice())
}

/// The damaged list, and what it leads to: `LIST`, `DAMAGED`, `ONE_LINK` and `ABC`.
pub fn list_of(alloc: Global) -> Result<Store, Fail> {
    let sections = [LIST_SECTION, DAMAGED_SECTION, ONE_LINK_SECTION, ABC_SECTION];
    store_of(alloc, sections.as_slice())
}
