//! The one block that a command is about: its CID, or a path to it, and the files with it.

use clap::ArgMatches;
use ix_check::verdict_in;
use ix_cid::Cid;
use ix_cid::code::RAW;
use ix_cli_io::{ANY_SIZE, Failure, Progress, ProgressMode, Stop};
use ix_load::{BlockFiles, Indexed, LoadedBlocks, obstacle_stop, path_of, path_text, verdict_stop};
use ix_options::{
    ArgKind, ArgSpec, CommandSpec, Host, QUIET_PROGRESS, available_processors, most_input,
    progress_mode,
};
use ix_path::{GREATEST_SEGMENTS, NodeBytes, Obstacle, Resolution, RootPath, resolve};
use ix_store::Store;
use ix_verdict::Verdict;
use std::alloc::{AllocError, Global};

/// The block.
pub(crate) const CID: ArgSpec = ArgSpec {
    name: "cid",
    given: ArgKind::Positional("CID[/PATH]"),
    help: "CID in any base, and where to go from its block",
};

/// What the arguments of a command say of its one block.
#[derive(Drop)]
pub(crate) struct OneBlock<'a> {
    /// The CID and the path as they are given.
    pub text: &'a str,
    path: RootPath,
    pub files: BlockFiles<'a>,
    progress: ProgressMode,
}

impl<'a> OneBlock<'a> {
    /// Reads the arguments. The first that is rejected is reported, in this order: the CID, the size of an
    /// input, and the files.
    pub(crate) fn given(
        alloc: Global,
        spec: &'static CommandSpec,
        words: &ArgMatches<'a>,
        is_terminal: bool,
    ) -> Result<OneBlock<'a>, Failure> {
        let text = CID.text(words);
        let path = path_of(alloc, spec, "<CID[/PATH]>", text, &[], GREATEST_SEGMENTS)?;
        let most = most_input(alloc, spec, words, ANY_SIZE)?;
        Ok(OneBlock {
            text,
            path,
            files: BlockFiles::given(alloc, spec, words, most, true)?,
            progress: progress_mode(words, &QUIET_PROGRESS, is_terminal),
        })
    }

    /// Loads the files.
    pub(crate) fn load<R: Host>(&self, rt: &R) -> Result<LoadedBlocks, Failure> {
        let progress = Progress::new(rt, self.progress);
        let loaders = available_processors(rt);
        let files = self.files.read(rt, loaders, &progress);
        progress.end();
        self.files.store_of(rt, files?, loaders, Indexed::Alone)
    }

    /// Returns where the path leads, or without a path the block of the CID, or why there is nothing.
    pub(crate) fn target_in<'b>(
        &'b self,
        alloc: Global,
        store: &'b Store,
    ) -> Result<Target<'b>, Failure> {
        if self.path.segments.is_empty() {
            return self.root_in(alloc, store);
        }
        let found = self.resolved_in(alloc, store)?;
        if let Err(obstacle) = &found.end {
            return Err(self.stopped(alloc, store, &found, obstacle));
        }
        let mut blocks = found.blocks;
        match (blocks.pop(), found.end) {
            (Some(cid), Ok(node)) => Ok(Target {
                cid,
                node: node.bytes(),
            }),
            // A path goes through the block of its root.
            _ => Err(self.no_block(alloc, store, Verdict::Missing, &self.path.root)),
        }
    }

    /// Returns the CID of the block in which the path ends, or to which it leads at last, whatever the codec of
    /// that block is, or why there is none.
    pub(crate) fn last_cid_in(&self, alloc: Global, store: &Store) -> Result<Cid, Failure> {
        if self.path.segments.is_empty() {
            return Ok(self.path.root.try_clone(alloc)?);
        }
        let found = self.resolved_in(alloc, store)?;
        match &found.end {
            Ok(_) => {}
            Err(Obstacle::Block(_)) if found.steps.len() == self.path.segments.len() => {}
            Err(obstacle) => return Err(self.stopped(alloc, store, &found, obstacle)),
        }
        // A path goes through the block of its root.
        let cid = found.blocks.last().unwrap_or(&self.path.root);
        Ok(cid.try_clone(alloc)?)
    }

    /// Makes the failure for the block to which the path leads, which can't be written.
    pub(crate) fn no_block(
        &self,
        alloc: Global,
        store: &Store,
        verdict: Verdict,
        cid: &Cid,
    ) -> Failure {
        match self.stop_at(alloc, store, verdict, cid) {
            Ok(stop) => Failure::Stopped(stop),
            Err(error) => Failure::from(error),
        }
    }

    // Makes the stop for the block to which the path leads.
    fn stop_at(
        &self,
        alloc: Global,
        store: &Store,
        verdict: Verdict,
        cid: &Cid,
    ) -> Result<Stop, AllocError> {
        let mut stop = verdict_stop(alloc, store, verdict, cid)?;
        if !self.path.segments.is_empty() {
            stop.path = Some(path_text(alloc, &self.path)?);
        }
        Ok(stop)
    }

    // Follows the path.
    fn resolved_in<'b>(
        &'b self,
        alloc: Global,
        store: &'b Store,
    ) -> Result<Resolution<'b>, AllocError> {
        resolve(alloc, store, &self.path.root, self.path.segments.as_slice())
    }

    // Makes the failure of a path that leads no further.
    fn stopped(
        &self,
        alloc: Global,
        store: &Store,
        found: &Resolution<'_>,
        obstacle: &Obstacle<'_>,
    ) -> Failure {
        match obstacle_stop(alloc, store, &self.path, found, obstacle) {
            Ok(stop) => Failure::Stopped(stop),
            Err(error) => Failure::from(error),
        }
    }

    // Returns the block of the CID, or the verdict on it.
    fn root_in<'b>(&'b self, alloc: Global, store: &'b Store) -> Result<Target<'b>, Failure> {
        let root = &self.path.root;
        let bytes = match (verdict_in(store, root), store.find(root)) {
            (Verdict::Inline, _) => root.digest(),
            (Verdict::Sound, Some(place)) if place < store.len() => store.bytes(place),
            (verdict, _) => return Err(self.no_block(alloc, store, verdict, root)),
        };
        let node = if root.codec() == RAW {
            NodeBytes::Raw(bytes)
        } else {
            NodeBytes::DagCbor(bytes)
        };
        Ok(Target {
            cid: root.try_clone(alloc)?,
            node,
        })
    }
}

/// Where a path leads.
#[derive(Drop)]
pub(crate) struct Target<'b> {
    /// The CID of the block in which it ends.
    pub cid: Cid,
    pub node: NodeBytes<'b>,
}

impl<'b> Target<'b> {
    /// Returns the bytes of the block. Those of an identity CID are in it.
    pub(crate) fn block_in<'c>(&'c self, store: &'c Store) -> &'c [u8] {
        match (verdict_in(store, &self.cid), store.find(&self.cid)) {
            (Verdict::Sound, Some(place)) if place < store.len() => store.bytes(place),
            _ => self.cid.digest(),
        }
    }
}
