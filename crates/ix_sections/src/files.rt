//! The blocks of files, read one after the other.

mod fault;
mod loader;
mod payload;
mod store;

pub use fault::FileFault;
pub use loader::Copies;
pub use payload::payload_in;
pub use store::{FileBlocks, Reading, blocks_of};
