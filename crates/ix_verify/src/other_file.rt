//! Files beside which others are verified.

ghost use Rattle.std.specs.Prelude.{◌≡◌, ◌++◌, [], IfOk};
ghost use Rattle.ix_store.specs.Sound.{sound_copies, later_count};
ghost use Rattle.ix_sections.specs.Copies.{copies_of};
ghost use Rattle.ix_sections.specs.Gives.{Gives};
ghost use Rattle.ix_sections.specs.Sections.{section_list, with_sections};
ghost use Rattle.ix_sections.specs.declared.files.loader.Copies.TheVariants.{First, Sound};
ghost use Rattle.ix_verify.specs.Beside.{sections_read, blocks_beside, with_copies_in};
ghost use Rattle.ix_verdict.specs.AllowMissing.{allow_none};
ghost use Rattle.ix_verify.specs.Found.{with_files};

use ix_sections::{BlockLoader, CarBytes, CarFault, Copies, SoundLoader, read_sections};
use ix_store::{SoundStore, Store};
use ix_verdict::AllowMissing;
use std::alloc::{AllocError, Global};
use std::marker::Model;
use std::thread::Threads;

/// The files beside which one is verified, which copy of a block counts, which links may lead to blocks that
/// aren't there, and the observer.
#[derive(Drop)]
pub struct Beside<'a, V> {
    pub others: &'a [OtherFile],
    pub copies: Copies,
    pub allowed: AllowMissing,
    pub observer: &'a V,
}

impl<'a, V> Beside<'a, V> {
    // No files, so that the first copy in the one that is verified counts, and each link to a missing block.
    pub(crate) fn nothing(observer: &'a V) -> Beside<'a, V>
        ensures copies { result.copies ≡ First }
        ensures allowed { result.allowed ≡ allow_none }
        ensures others { result.others.now ≡ [] }
    {
        Beside {
            others: &[],
            copies: Copies::First,
            allowed: AllowMissing::none(),
            observer,
        }
    }
}

/// A CARv1 file beside which others are verified: a CID that isn't in them is looked up in it. Its sections can
/// be read, and contracts see them.
#[derive(Drop)]
pub struct OtherFile {
    car: CarBytes,
}

impl Model for OtherFile {
    ghost use Rattle.std.specs.Prelude.{List};
    ghost use Rattle.ix_sections.specs.Sections.{SectionMeaning, section_list};
    ghost use Rattle.ix_verify.specs.Beside.{sections_read, IsRead};

    ghost Value = { List SectionMeaning };

    ghost view = { λ other. sections_read (section_list other.car) };

    ghost invariant = { λ other. IsRead (section_list other.car) };
}

impl OtherFile {
    /// Reads the sections of a file, none of which is hashed, or returns its first error, which is that of
    /// `read_car`.
    pub fn read(alloc: Global, car: CarBytes) -> Result<OtherFile, CarFault>
        ensures { Gives (λ other. other) car result (section_list car) }
    {
        match check_sections(alloc, car.as_slice()) {
            Ok(()) => Ok(OtherFile { car }),
            Err(fault) => Err(fault),
        }
    }

    // Adds the blocks of the file to those of a loader.
    fn add_to<R: Threads + Sync>(
        &self,
        rt: &R,
        loader: BlockLoader,
        threads: usize,
    ) -> Result<BlockLoader, AllocError>
        ensures { IfOk result (λ more. more ≡ with_sections loader self.now) }
    {
        match self.car.add_to(rt, loader, threads) {
            Ok(more) => Ok(more),
            // The sections have been read, so the only error is out of memory.
            Err(_) => Err(AllocError),
        }
    }

    // Adds the copies in the file to those of a loader.
    fn add_copies_to(&self, loader: SoundLoader) -> Result<SoundLoader, AllocError>
        ensures { IfOk result (λ more. more ≡ loader ++ copies_of self.now) }
    {
        match self.car.add_copies_to(loader) {
            Ok(more) => Ok(more),
            // The sections have been read, so the only error is out of memory.
            Err(_) => Err(AllocError),
        }
    }
}

// Checks that the sections of a file can be read.
fn check_sections(alloc: Global, car: &[u8]) -> Result<(), CarFault>
    ensures { Gives (λ _. sections_read (section_list car.now)) car.now result (section_list car.now) }
{
    match read_sections(alloc, car) {
        Ok(_) => Ok(()),
        Err(fault) => Err(fault),
    }
}

/// Loads the blocks of a file, and then those of others, and returns how many are a later copy. An error is the
/// file's first one.
pub fn load_beside<R: Threads + Sync>(
    rt: &R,
    alloc: Global,
    car: &CarBytes,
    others: &[OtherFile],
    copies: Copies,
    threads: usize,
) -> Result<(Store, usize), CarFault>
    ensures { Gives (λ loaded. loaded) car.now result (blocks_beside copies others.now (section_list car.now)) }
{
    match copies {
        Copies::First => load_first(rt, alloc, car, others, threads),
        Copies::Sound => load_sound(rt, alloc, car, others, threads),
    }
}

// Does that where the first copy counts, so that none is a later one.
fn load_first<R: Threads + Sync>(
    rt: &R,
    alloc: Global,
    car: &CarBytes,
    others: &[OtherFile],
    threads: usize,
) -> Result<(Store, usize), CarFault>
    ensures { Gives (λ loaded. loaded) car.now result (blocks_beside First others.now (section_list car.now)) }
{
    let empty = BlockLoader::new(alloc);
    let first = match car.add_to(rt, empty, threads) {
        Ok(first) => first,
        Err(fault) => return Err(fault),
    };
    match load_others(rt, first, others, threads) {
        Ok(store) => Ok((store, 0)),
        Err(_) => Err(CarFault::no_memory(0)),
    }
}

// Does that where the first sound copy counts.
fn load_sound<R: Threads + Sync>(
    rt: &R,
    alloc: Global,
    car: &CarBytes,
    others: &[OtherFile],
    threads: usize,
) -> Result<(Store, usize), CarFault>
    ensures { Gives (λ loaded. loaded) car.now result (blocks_beside Sound others.now (section_list car.now)) }
{
    let empty = SoundLoader::new(alloc);
    let first = match car.add_copies_to(empty) {
        Ok(first) => first,
        Err(fault) => return Err(fault),
    };
    match load_sound_others(rt, first, others, threads) {
        Ok(built) => Ok((built.store, built.later_count)),
        Err(_) => Err(CarFault::no_memory(0)),
    }
}

// Returns the store of the blocks of a loader and then of those of others.
fn load_others<R: Threads + Sync>(
    rt: &R,
    loader: BlockLoader,
    others: &[OtherFile],
    threads: usize,
) -> Result<Store, AllocError>
    ensures { IfOk result (λ store. store ≡ with_files loader others.now) }
{
    let mut loader = loader;
    for other in others {
        loader = other.add_to(rt, loader, threads)?;
    }
    loader.finish_by(rt, threads)
}

// Returns the store of the copies of a loader and then of those in others.
fn load_sound_others<R: Threads + Sync>(
    rt: &R,
    loader: SoundLoader,
    others: &[OtherFile],
    threads: usize,
) -> Result<SoundStore, AllocError>
    ensures store { IfOk result (λ built. built.store ≡ sound_copies (with_copies_in loader others.now)) }
    ensures later { IfOk result (λ built. built.later_count ≡ later_count (with_copies_in loader others.now)) }
{
    let mut loader = loader;
    for other in others {
        loader = other.add_copies_to(loader)?;
    }
    loader.finish_by(rt, threads)
}
