//! The laws of what is verified.

ghost use Rattle.ix_verify.specs.Laws.{SectionVerdictsAreVerdicts, SoundSectionsHaveTheirDigest};
ghost use Rattle.ix_verify.specs.Laws.{SoundBlocksAreSoundSections, ArchivesHaveSoundSections};
ghost use Rattle.ix_verify.specs.Laws.{RootsAreReadBack, SectionsAreReadBack, WrittenIsSoundByItself, VerifiedIsJudged};
ghost use Rattle.ix_verify.specs.Laws.{DeliveriesHaveSoundSections, JobsHaveSoundSections, WholeArchivesAreSound, SelectedArchivesAreSound};
ghost use Rattle.ix_verify.specs.Laws.{FilesAreEndToEnd, SoundCopiesAreTheFirst, DifferenceIsReadBack};
ghost use Rattle.ix_verify.specs.Laws.{DifferenceThenFilesRestore, FilesThenDifferenceRestore};
ghost use Rattle.ix_verify.specs.Laws.{DifferenceThenFilesRestoreBesideSkips, FilesThenDifferenceRestoreBesideSkips};
ghost use Rattle.ix_verify.specs.Laws.{WritesTheDifference, WrittenThenFilesRestore, WrittenThenFilesRestoreBesideSkips};

use std::io::Write;

/// Says that a section is judged as a block is, except under an identity CID, where `verify` looks at the
/// section's bytes: otherwise the verdict on its CID in a store that has its block is the section's, or `Codec`
/// if the codec isn't read. Whatever the codec, the block of a sound section has the digest of its CID.
pub fn section_verdicts_are_verdicts()
    ensures verdicts { SectionVerdictsAreVerdicts }
    ensures digests { SoundSectionsHaveTheirDigest }
{}

/// Says that a block that is sound in a store is sound as a section: if the verdict on a CID is
/// `Sound`, so is that on the CID and the store's block.
pub fn sound_blocks_are_sound_sections()
    ensures { SoundBlocksAreSoundSections }
{}

/// Says that every section of which the archive of a job is made is sound.
pub fn archives_have_sound_sections()
    ensures { ArchivesHaveSoundSections }
{}

/// Says that an archive is read back as what was written: its header names the roots, and its sections
/// are those of the deliveries, each at its offset, with its CID and the store's block. If the verdicts
/// of the deliveries are the store's, each section is sound by its own bytes.
pub fn archives_are_read_back()
    ensures roots { RootsAreReadBack }
    ensures sections { SectionsAreReadBack }
    ensures sound { WrittenIsSoundByItself }
    ensures verified { VerifiedIsJudged }
{}

/// Says that exports are found to be sound, and that this is their outcome: the sections of each archive of deliveries with the store's
/// verdicts, and so of each job. If a job took everything below one root, expanding each CID once,
/// within its limit and without a skip, its whole archive is sound, with all that its root requires. If it
/// took what a selector enters below its roots, its archive is sound for these roots and this selector.
pub fn archives_are_sound()
    ensures deliveries { DeliveriesHaveSoundSections }
    ensures job { JobsHaveSoundSections }
    ensures whole { WholeArchivesAreSound }
    ensures selected { SelectedArchivesAreSound }
{}

/// Says that a file and others are one store: that of their sections put end to end, the first of each CID.
pub fn files_are_end_to_end()
    ensures { FilesAreEndToEnd }
{}

/// Says that preferring sound copies changes nothing over files whose sections are all sound: the store is the
/// same, and none of its blocks is a later copy.
pub fn sound_copies_are_the_first()
    ensures { SoundCopiesAreTheFirst }
{}

/// States that the file of a difference is read back as what was written: its header names the job's
/// roots, and its sections are those of the difference's pairs, each at its offset, whichever CIDs are
/// known.
pub fn differences_are_read_back()
    ensures { DifferenceIsReadBack }
{}

/// States what the files of a base and the file of a difference restore. A base is what its files are
/// read as, one after the other, the first block of each CID. The difference of a job is its archive
/// without the sections of the CIDs under which that block is sound.
///
/// If the job is within its limit over a store and skips nothing, it is so too over the store that is
/// read from the difference followed by the base's files, and its archive is the same, byte for byte.
/// The base's files followed by the difference do the same if all blocks of the base are sound.
///
/// Premises are that the difference can be read back, and that the base and the store have the same
/// block under each CID for which both have a sound one: no proof can exclude two blocks with one digest.
pub fn base_files_and_difference_restore()
    ensures difference_first { DifferenceThenFilesRestore }
    ensures base_first { FilesThenDifferenceRestore }
{}

/// States what the files of a base and the file of a difference restore of a job that skips blocks, if the
/// base has no sound block under any CID that the job skips over the store, and the job is within its
/// limit there.
///
/// Over the store that is read from the difference followed by the base's files, its archive is the same,
/// byte for byte. With link-visit-once the job is within its limit there too. If it is, it skips the same
/// CIDs, in the same order, though a verdict may differ. The base's files followed by the difference do the
/// same if all blocks of the base are sound. The other premises are those of
/// `base_files_and_difference_restore`.
pub fn base_files_and_difference_restore_beside_skips()
    ensures difference_first { DifferenceThenFilesRestoreBesideSkips }
    ensures base_first { FilesThenDifferenceRestoreBesideSkips }
{}

/// States what an archive's writer has in the end, if it had no bytes at first and the blocks of a base
/// were left out: an archive whose guarantee held for a store, a job, and the positions of these blocks,
/// as `known_of` returns them, has written the job's difference from the base, if its calls are
/// faithful to the job and it was done. If the job skips nothing, a file of what was written restores it,
/// followed by the base's files. If it skips only what the base doesn't know, both together restore its
/// archive.
pub fn written_difference_restores<W: Write>()
    ensures written { WritesTheDifference W.contents }
    ensures restores { WrittenThenFilesRestore W.contents }
    ensures restores_beside_skips { WrittenThenFilesRestoreBesideSkips W.contents }
{}
