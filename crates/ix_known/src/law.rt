//! The law of known blocks.

ghost use Rattle.ix_store.specs.Store.{Blocks};
ghost use Rattle.ix_known.specs.Known.{AreKnownBlocks};

/// States that the known blocks of a base are what `knows` answers by: each is sound by itself, they have
/// exactly the CIDs that are known, and under each the base's block.
pub fn known_blocks_are_known()
    ensures { (base : Blocks) → AreKnownBlocks base }
{}
