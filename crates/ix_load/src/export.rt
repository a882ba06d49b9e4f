//! What the commands that export have in common.

use clap::ArgMatches;
use clap::error::ErrorKind;
use ix_options::{ALLOW_MISSING, CommandSpec};
use ix_store::Store;
use ix_verdict::{AllowMissing, UnknownCodec};
use std::alloc::{AllocError, Global};
use std::mem::ManuallyDrop;
use std::sync::Arc;

/// Returns which blocks may be missing, if that is given.
pub fn allowed_missing<'a>(
    alloc: Global,
    spec: &'static CommandSpec,
    words: &ArgMatches<'a>,
) -> Result<Option<AllowMissing>, clap::Error> {
    let Some(text) = ALLOW_MISSING.optional_text(words) else {
        return Ok(None);
    };
    match AllowMissing::parse(text) {
        Ok(which) => Ok(Some(which)),
        Err(UnknownCodec { word }) => Err(refused_codec(alloc, spec, text, word)?),
    }
}

// Makes the error for a text with a word that names no codec.
fn refused_codec(
    alloc: Global,
    spec: &'static CommandSpec,
    text: &str,
    word: &str,
) -> Result<clap::Error, AllocError> {
    let message = format!(in alloc;
        "invalid value '{text}' for '--allow-missing <WHICH>': '{word}' is none of raw, dag-cbor and all"
    )?;
    spec.refusal(alloc, ErrorKind::ValueValidation, message.as_str())
}

/// Leaks the blocks, since only the status is left to return. At the end of the process the system takes
/// all memory back, in less time than a million blocks take to be freed.
pub fn forget_store(store: Arc<Store>) {
    let _left = ManuallyDrop::new(store);
}
