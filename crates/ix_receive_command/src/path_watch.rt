//! Where the paths of roots lead, as blocks come.

use ix_check::{Verdict, verdict_in};
use ix_cid::Cid;
use ix_cid::code::DAG_CBOR;
use ix_cli_io::{ErrorCode, Stop};
use ix_load::{at_root, obstacle_stop};
use ix_path::{Kind, Obstacle, RootPath, resolve};
use ix_sections::{Section, read_header, read_section};
use ix_store::Store;
use std::alloc::{AllocError, Global};
use std::collections::BTreeSet;

/// Where the paths of roots lead. Each that isn't at its end waits for the block where it goes on.
///
/// Of one root only the block that its path waits for is looked at, since the blocks on the path come first
/// and in its order. A path of several roots may lead through a block that came before it waited for it, so
/// their DAG-CBOR blocks are kept. Blocks of the base don't come, so a path goes on through them at once.
#[derive(Drop)]
pub(crate) struct PathWatch<'s> {
    alloc: Global,
    // The blocks of the base.
    base: Option<&'s Store>,
    // The paths that wait: each from the block that it waits for.
    waiting: Vec<RootPath>,
    keeps_all: bool,
    // The DAG-CBOR blocks that are kept, and the CIDs of the raw ones.
    blocks: Store,
    leaves: BTreeSet<Cid>,
    has_header: bool,
}

/// A path that doesn't end in the blocks that came.
#[derive(Drop)]
pub(crate) struct PathStop {
    /// What there is instead.
    pub stop: Stop,
    /// Where the section that shows it begins and ends in the bytes that were looked at.
    pub start: usize,
    pub end: usize,
    /// How many sections are after it there.
    pub after: u64,
}

// How far a path leads.
#[derive(Drop)]
enum Lead {
    ToEnd,
    // To a block that hasn't come.
    To(RootPath),
    // No further.
    Nowhere(Stop),
}

impl<'s> PathWatch<'s> {
    /// Watches paths of which no block has come. Returns what there is if one ends in an identity CID, or in the
    /// blocks of the base, without leading to its end.
    pub(crate) fn new(
        alloc: Global,
        paths: Vec<RootPath>,
        base: Option<&'s Store>,
    ) -> Result<Result<PathWatch<'s>, Stop>, AllocError> {
        let mut watch = PathWatch {
            alloc,
            base,
            waiting: Vec::new(alloc),
            keeps_all: paths.len() > 1,
            blocks: Store::new(alloc),
            leaves: BTreeSet::new(alloc),
            has_header: false,
        };
        match watch.follow_all(paths)? {
            None => Ok(Ok(watch)),
            Some(stop) => Ok(Err(at_root(alloc, stop)?)),
        }
    }

    // Follows paths as far as the blocks lead. Returns what there is instead of the end of one.
    fn follow_all(&mut self, paths: Vec<RootPath>) -> Result<Option<Stop>, AllocError> {
        for path in paths {
            match self.followed(path)? {
                Lead::ToEnd => {}
                Lead::To(rest) => self.waiting.push(rest)?,
                Lead::Nowhere(stop) => return Ok(Some(stop)),
            }
        }
        Ok(None)
    }

    // Follows a path as far as the blocks lead, from those that are here to those of the base, and back.
    fn followed(&self, path: RootPath) -> Result<Lead, AllocError> {
        let none = BTreeSet::new(self.alloc);
        let mut path = path;
        for _ in 0..u64::MAX {
            let rest = match followed(self.alloc, &self.blocks, &self.leaves, path)? {
                Lead::To(rest) => rest,
                lead => return Ok(lead),
            };
            let Some(base) = self.base_with(&rest.root) else {
                return Ok(Lead::To(rest));
            };
            path = match followed(self.alloc, base, &none, rest)? {
                Lead::To(rest) => rest,
                lead => return Ok(lead),
            };
        }
        Ok(Lead::To(path))
    }

    // Returns the base, if it has the block of a CID, and that is sound.
    fn base_with(&self, cid: &Cid) -> Option<&'s Store> {
        let base = self.base?;
        if verdict_in(base, cid) == Verdict::Sound {
            Some(base)
        } else {
            None
        }
    }

    /// Looks at the next bytes that were checked: the header, and whole sections. Returns the first place
    /// that shows that a path doesn't lead to its end.
    pub(crate) fn look(&mut self, checked: &[u8]) -> Result<Option<PathStop>, AllocError> {
        if self.waiting.is_empty() {
            return Ok(None);
        }
        let mut rest = checked;
        if !self.has_header && !checked.is_empty() {
            let Ok((_, sections)) = read_header(self.alloc, checked) else {
                return Err(AllocError);
            };
            self.has_header = true;
            rest = sections;
        }
        for _ in 0..checked.len() {
            let Ok((section, after)) = read_section(rest.len(), rest) else {
                break;
            };
            if let Some(stop) = self.add(&section)? {
                return Ok(Some(PathStop {
                    stop,
                    start: checked.len().saturating_sub(rest.len()),
                    end: checked.len().saturating_sub(after.len()),
                    after: sections_in(after),
                }));
            }
            rest = after;
        }
        Ok(None)
    }

    // Adds a section, and follows the paths that wait for it. Returns what there is instead of the end of one.
    fn add(&mut self, section: &Section<'_>) -> Result<Option<Stop>, AllocError> {
        let cid = section.cid.to_cid(self.alloc)?;
        let is_waited_for = self.waiting.iter().any(|path| path.root == cid);
        if !is_waited_for && !self.keeps_all {
            return Ok(None);
        }
        self.keep(&cid, section.block)?;
        if !is_waited_for {
            return Ok(None);
        }
        let mut going_on = Vec::new(self.alloc);
        let mut others = Vec::new(self.alloc);
        for path in std::mem::replace(&mut self.waiting, Vec::new(self.alloc)) {
            if path.root == cid {
                going_on.push(path)?;
            } else {
                others.push(path)?;
            }
        }
        self.waiting = others;
        self.follow_all(going_on)
    }

    // Keeps a block, and no other if only that is looked at.
    fn keep(&mut self, cid: &Cid, block: &[u8]) -> Result<(), AllocError> {
        if !self.keeps_all {
            self.blocks = Store::new(self.alloc);
        }
        let copy = cid.try_clone(self.alloc)?;
        if cid.codec() == DAG_CBOR {
            self.blocks.add_copy(copy, block)?;
        } else {
            self.leaves.insert(copy)?;
        }
        Ok(())
    }

    /// Ends the stream. Returns what there is instead of the end of a path.
    pub(crate) fn finish(&self) -> Result<Option<Stop>, AllocError> {
        match self.waiting.first() {
            None => Ok(None),
            Some(path) => Ok(Some(missing_stop(self.alloc, &path.root)?)),
        }
    }
}

// Makes the stop for a block on a path that doesn't come.
fn missing_stop(alloc: Global, cid: &Cid) -> Result<Stop, AllocError> {
    let (verdict, cid) = (Verdict::Missing, cid.text(alloc)?);
    let line = format!(in alloc; "{verdict} {}", cid.as_str())?;
    let mut stop = Stop::new(ErrorCode::Missing, line);
    stop.cid = Some(cid);
    Ok(stop)
}

// Returns how many sections some bytes have.
fn sections_in(bytes: &[u8]) -> u64 {
    let mut count: u64 = 0;
    let mut rest = bytes;
    for _ in 0..bytes.len() {
        let Ok((_, after)) = read_section(rest.len(), rest) else {
            break;
        };
        count = count.saturating_add(1);
        rest = after;
    }
    count
}

// Follows a path as far as some blocks lead, and leaves, which are byte strings. A block that is damaged is
// as if it were absent.
fn followed(
    alloc: Global,
    blocks: &Store,
    leaves: &BTreeSet<Cid>,
    path: RootPath,
) -> Result<Lead, AllocError> {
    let found = resolve(alloc, blocks, &path.root, path.segments.as_slice())?;
    let obstacle = match &found.end {
        Ok(_) => return Ok(Lead::ToEnd),
        Err(obstacle) => obstacle,
    };
    let steps = found.steps.len();
    let missing = match (obstacle, found.blocks.last()) {
        (Obstacle::Block(Verdict::Missing | Verdict::Damaged), Some(cid)) => cid,
        _ => return Ok(Lead::Nowhere(obstacle_stop(alloc, blocks, &path, &found, obstacle)?)),
    };
    if !leaves.contains(missing) {
        let root = missing.try_clone(alloc)?;
        return Ok(Lead::To(RootPath {
            root,
            segments: copied_after(alloc, steps, path.segments.as_slice())?,
        }));
    }
    if steps == path.segments.len() {
        return Ok(Lead::ToEnd);
    }
    let bytes = Obstacle::Scalar(Kind::Bytes);
    Ok(Lead::Nowhere(obstacle_stop(alloc, blocks, &path, &found, &bytes)?))
}

// Returns copies of the segments after so many.
fn copied_after(
    alloc: Global,
    count: usize,
    segments: &[Vec<u8>],
) -> Result<Vec<Vec<u8>>, AllocError> {
    let mut left = Vec::new(alloc);
    for segment in segments.iter().skip(count) {
        left.push(Vec::from_slice(alloc, segment.as_slice())?)?;
    }
    Ok(left)
}
