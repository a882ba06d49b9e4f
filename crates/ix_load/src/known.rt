//! What a receiver has: files of its blocks, and a list of CIDs.

ghost use Rattle.std.specs.Prelude.{OnOk};
ghost use Rattle.ix_load.specs.Receiver.{AddsFiles, AddsList, AddsSomeList, AddsKnown};

use crate::blocks::{BlockFiles, LoadedBlocks};
use crate::rejected::list_failure;
use clap::ArgMatches;
use clap::error::ErrorKind;
use ix_cli_io::{Failure, Progress, STANDARD_INPUT, read_input, size_of_all};
use ix_jobs::with_listed;
use ix_options::{BLOCKS, CommandSpec, WITHOUT, WITHOUT_LIST};
use std::alloc::{AllocError, Global};
use std::fs::File;
use std::rt::{Clock, Files};
use std::thread::Threads;

/// What the receiver of an archive has, as it is given.
#[derive(Drop)]
pub struct KnownInputs<'a> {
    files: BlockFiles<'a>,
    // The path of its have-list, and how many bytes that may have.
    list: Option<&'a str>,
    most: u64,
}

impl<'a> KnownInputs<'a> {
    /// Reads the paths. Standard input can be given once, here or for the blocks of the command.
    pub fn given(
        alloc: Global,
        spec: &'static CommandSpec,
        words: &ArgMatches<'a>,
        blocks: &BlockFiles<'a>,
    ) -> Result<KnownInputs<'a>, Failure> {
        let list = WITHOUT_LIST.optional_text(words);
        let files = blocks.base_given(alloc, spec, words)?;
        let has_blocks = blocks.has_standard_input();
        let has_files = files.has_standard_input();
        let has_list = list == Some(STANDARD_INPUT);
        let conflict = if has_blocks && has_files {
            Some((BLOCKS.name, WITHOUT.name))
        } else if has_blocks && has_list {
            Some((BLOCKS.name, WITHOUT_LIST.name))
        } else if has_files && has_list {
            Some((WITHOUT.name, WITHOUT_LIST.name))
        } else {
            None
        };
        match conflict {
            None => Ok(KnownInputs {
                files,
                list,
                most: blocks.most(),
            }),
            Some((first, second)) => {
                Err(Failure::from(refused_inputs(alloc, spec, first, second)?))
            }
        }
    }

    /// Returns the name of the option for which standard input is given, here or for these blocks.
    pub fn standard_input(&self, blocks: &BlockFiles<'a>) -> Option<&'static str> {
        if blocks.has_standard_input() {
            Some(BLOCKS.name)
        } else if self.files.has_standard_input() {
            Some(WITHOUT.name)
        } else if self.list == Some(STANDARD_INPUT) {
            Some(WITHOUT_LIST.name)
        } else {
            None
        }
    }

    /// Returns the paths of these blocks, and those that are given here.
    pub fn inputs(
        &self,
        alloc: Global,
        blocks: &BlockFiles<'a>,
    ) -> Result<Vec<&'a str>, AllocError> {
        let mut inputs = Vec::from_slice(alloc, blocks.paths())?;
        inputs.extend_from_slice(self.files.paths())?;
        if let Some(path) = self.list {
            inputs.push(path)?;
        }
        Ok(inputs)
    }

    /// Reads the files of a receiver, after these blocks. Progress goes on, up to the sum of both sizes.
    pub fn read<R>(
        &self,
        rt: &R,
        blocks: &BlockFiles<'a>,
        threads: usize,
        progress: &Progress<R>,
    ) -> Result<Vec<Vec<u8>>, Failure>
    where
        R: AllocGlobal + Clock + Eprint + Files<File = File> + Input + Threads + Sync,
    {
        let size = size_of_all(rt, blocks.paths());
        let own_size = size_of_all(rt, self.files.paths());
        if size > 0 && own_size > 0 {
            progress.expect(size.saturating_add(own_size));
        } else {
            progress.expect(0);
        }
        self.files.read_more(rt, threads, progress)
    }

    /// Adds to the blocks of a command which of them the receiver has: those of which the files that were
    /// read have a sound copy that counts, and those whose CID it lists. If nothing is given, nothing is known of it.
    pub fn add_to<R>(
        &self,
        rt: &R,
        blocks: &mut LoadedBlocks,
        files: Vec<Vec<u8>>,
        threads: usize,
    ) -> Result<(), Failure>
    where
        R: AllocGlobal + Files + Input + Threads + Sync,
        ensures { OnOk result (AddsKnown self.now.files.reading self.now.list files.items
            blocks.old blocks.new) }
    {
        self.add_files(rt, blocks, files, threads)?;
        match self.list {
            Some(path) => self.add_listed(rt, path, blocks),
            None => Ok(()),
        }
    }

    // Makes known which blocks these files of the receiver have, if there are files.
    fn add_files<R: AllocGlobal + Files + Threads + Sync>(
        &self,
        rt: &R,
        blocks: &mut LoadedBlocks,
        files: Vec<Vec<u8>>,
        threads: usize,
    ) -> Result<(), Failure>
        ensures { OnOk result (AddsFiles self.now.files.reading files.items
            blocks.old blocks.new) }
    {
        if files.is_empty() {
            return Ok(());
        }
        let known = self.files.known_in(rt, &blocks.store, files, threads)?;
        blocks.known = Some(known);
        Ok(())
    }

    // Adds to the known blocks those whose CID is in the list at this path.
    fn add_listed<R: AllocGlobal + Files + Input>(
        &self,
        rt: &R,
        path: &str,
        blocks: &mut LoadedBlocks,
    ) -> Result<(), Failure>
        ensures { OnOk result (AddsSomeList blocks.old blocks.new) }
    {
        let list = read_input(rt, path, self.most)?;
        add_list(rt.alloc(), list.as_slice(), blocks)
    }
}

// Adds to the known blocks those whose CID is in a list.
fn add_list(alloc: Global, list: &[u8], blocks: &mut LoadedBlocks) -> Result<(), Failure>
    ensures { OnOk result (AddsList list.now blocks.old blocks.new) }
{
    match with_listed(alloc, blocks.known.take(), &blocks.store, list) {
        Ok(known) => {
            blocks.known = Some(known);
            Ok(())
        }
        Err(fault) => Err(list_failure(alloc, list, fault)),
    }
}

/// Makes the error for standard input that is given for two options.
pub fn refused_inputs(
    alloc: Global,
    spec: &'static CommandSpec,
    first: &str,
    second: &str,
) -> Result<clap::Error, AllocError> {
    let message = format!(in alloc;
        "standard input is given for '--{first} <FILE>' and for '--{second} <FILE>'"
    )?;
    spec.refusal(alloc, ErrorKind::ArgumentConflict, message.as_str())
}
