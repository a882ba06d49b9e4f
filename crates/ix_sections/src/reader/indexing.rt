//! How the blocks of a file are indexed: on one thread, or by several.

ghost use Rattle.std.specs.Prelude.{◌≡◌, IfOk};

use ix_store::{Store, StoreBuilder};
use std::alloc::AllocError;
use std::thread::Threads;

// What indexes the blocks of a builder.
pub(super) trait Indexing {
    ghost use Rattle.std.specs.Prelude.{◌≡◌, IfOk, OnOk};

    // What its calls need of its type.
    ghost ready: { Self → Type 0 };

    // Indexes the blocks that wait, if they are due.
    fn index_due(&self, builder: &mut StoreBuilder) -> Result<(), AllocError>
        requires { ready self.now }
        ensures { OnOk result (builder.new ≡ builder.old) };

    // Builds the settled store of all blocks.
    fn build(&self, builder: StoreBuilder) -> Result<Store, AllocError>
        requires { ready self.now }
        ensures { IfOk result (λ store. store ≡ builder.pairs) };
}

// One thread, the caller's.
#[derive(Drop)]
pub(super) struct InTurn;

impl Indexing for InTurn {
    ghost ready = { λ _. Unit {0} };

    fn index_due(&self, builder: &mut StoreBuilder) -> Result<(), AllocError> {
        builder.index_due_in_turn()
    }

    fn build(&self, builder: StoreBuilder) -> Result<Store, AllocError> {
        settled(builder.build_in_turn()?)
    }
}

// So many threads, if the blocks are many.
#[derive(Drop)]
pub(super) struct ByThreads<'a, R> {
    pub(super) rt: &'a R,
    pub(super) threads: usize,
}

impl<'a, R: Threads + Sync> Indexing for ByThreads<'a, R> {
    ghost use Rattle.std.specs.Thread.{IsSync};

    ghost ready = { λ _. IsSync R.row };

    fn index_due(&self, builder: &mut StoreBuilder) -> Result<(), AllocError> {
        builder.index_due(self.rt, self.threads)
    }

    fn build(&self, builder: StoreBuilder) -> Result<Store, AllocError> {
        settled(builder.build(self.rt, self.threads)?)
    }
}

// Settles a store: it caches from now on what is found of a block.
fn settled(store: Store) -> Result<Store, AllocError>
    ensures { IfOk result (λ settled. settled ≡ store) }
{
    let mut store = store;
    store.enable_memo()?;
    Ok(store)
}
