//! CIDs as people paste them: texts in any base that the tools of IPLD print, and URLs.
//!
//! `parse` takes a CIDv1 in base16, base32, base36, base58btc, base64 or base64url (multibase), and a
//! CIDv0 as it is usually written, or as `v0-` and hex. `locate` finds the text of a CID and the text
//! of the path after it in a URL. The one text that files have, lower-case base32, is that of `ix_cid`.
//!
//! ```rust
//! let place = locate("https://ipfs.io/ipfs/zb2rhZfjRh2FHHB2RkHVEvL2vJnCTcu7kwRqgVsf9gpkLgteo/a?x");
//! let cid = parse(alloc, place.cid)?;
//! assert!(rt; cid.codec() == code::RAW && place.path == "a");
//! ```
#![tactic(auto)]

mod base;
mod bits;
mod fault;
mod location;
mod number;
mod text;

pub use base::Base;
pub use fault::CidTextFault;
pub use location::{Location, locate, split_piece};
pub use text::{MOST_DIGITS, parse};
