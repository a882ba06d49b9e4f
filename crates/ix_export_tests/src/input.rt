//! The two files of a run.

use ix_fixtures::{CHAIN, bytes_of, sections_of};
use std::alloc::Global;
use std::test::Fail;

// A header of a CARv1 file without roots.
const HEADER: &str = "11a265726f6f7473806776657273696f6e01";

/// A file of the four blocks of the chain.
pub fn chain_car(alloc: Global) -> Result<Vec<u8>, Fail> {
    let mut car = bytes_of(alloc, &[HEADER])?;
    car.extend_from_slice(sections_of(alloc, CHAIN.as_slice())?.as_slice())?;
    Ok(car)
}

/// Everything below the first of them, for two jobs.
pub const CHAIN_JOBS: &str =
    "a bafyreihpn4az7uyscisjer535ngaxmfetjdyjnoumuwryehkrergcukgwi 100 a16152a2616ca1646e6f6e65a0623a3ea16161a1613ea16140a0
b bafyreihpn4az7uyscisjer535ngaxmfetjdyjnoumuwryehkrergcukgwi 100 a16152a2616ca1646e6f6e65a0623a3ea16161a1613ea16140a0
";
