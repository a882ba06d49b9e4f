//! CARv1 files.
//!
//! A CARv1 file is read as its blocks or its sections, or rejected with the first error and its
//! offset. To write one, its header and the head of each section are made here. `blocks_of` makes one
//! store of the blocks of several files, and names the first that is rejected. `kind_of` says what a file
//! is that is no CARv1 file.
//!
//! ```rust
//! let store = read_car(alloc, file)?;
//! println!(rt; "{} blocks", store.len())?;
//! ```
#![tactic(auto)]

mod car_bytes;
mod fault;
mod files;
mod kind;
pub mod law;
mod payload;
mod reader;
mod writer;

pub use car_bytes::CarBytes;
pub use fault::{CarFault, CarKind};
pub use files::{Copies, FileBlocks, FileFault, Reading, blocks_of, payload_in};
pub use kind::{Kind, kind_of};
pub use payload::{Payload, has_index, is_carv2, payload_of};
pub use reader::{
    BlockLoader, CarFile, Section, SoundLoader, read_batch, read_car, read_header, read_section,
    read_sections,
};
pub use writer::{header_of, set_section_head, write_section, write_text};
