//! The laws of files' blocks.

ghost use Rattle.std.specs.Prelude.{◌≡◌, ℕ, List, []};
ghost use Rattle.ix_store.specs.Store.{Blocks};
ghost use Rattle.ix_store.specs.Sound.{AreSoundCopies, sound_copies, later_count};
ghost use Rattle.ix_sections.specs.Copies.{copies_of};
ghost use Rattle.ix_sections.specs.Reading.{blocks_after, blocks_of};
ghost use Rattle.ix_sections.specs.Sections.{section_list, SectionMeaning, first_of_each, with_first_of_each, with_sections};

/// States that the blocks of a file are those of its sections, the first of each CID, and that both
/// have the same errors.
pub fn blocks_are_the_first_of_each_cid()
    ensures { (b : List ℕ) → blocks_of b ≡ first_of_each (section_list b) }
{}

/// States that reading one file more adds the blocks of its sections, the first of each CID, in their
/// order: the blocks of several files are those of their sections put end to end.
pub fn blocks_of_files_are_end_to_end()
    ensures { (store : Blocks) (b : List ℕ) → blocks_after store b ≡ with_first_of_each store (section_list b) }
{}

/// States that preferring sound copies changes nothing if each copy is sound: the blocks are those of the
/// sections, the first of each CID, and none is a later copy.
pub fn sound_copies_are_the_first_if_all_are_sound()
    ensures same { (sections : List SectionMeaning) → AreSoundCopies (copies_of sections)
        → sound_copies (copies_of sections) ≡ with_sections [] sections }
    ensures none_later { (sections : List SectionMeaning) → AreSoundCopies (copies_of sections)
        → later_count (copies_of sections) ≡ 0 }
{}
