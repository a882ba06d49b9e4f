//! The sections of a CARv1 file, in place.

ghost use Rattle.std.specs.Prelude.{◌≡◌, ◌<◌, ◌≤◌, length, IfOk, IfErr};
ghost use Rattle.ix_sections.specs.Reading.{header_at};
ghost use Rattle.ix_sections.specs.Gives.{Gives};
ghost use Rattle.ix_sections.specs.Reads.{ReadsFrom};
ghost use Rattle.ix_sections.specs.Sections.{section_list, sections_in, roots_of};
ghost use Rattle.ix_sections.specs.SectionView.{views_of, IsSectionAt, IsSectionFault};

use crate::fault::{CarFault, CarKind};
use crate::reader::header::{header_at, roots_at};
use crate::reader::section::{FaultAt, section_at};
use ix_cid::{Cid, CidRef};
use std::alloc::Global;

/// A section of a CARv1 file, in place.
#[derive(Drop)]
pub struct Section<'a> {
    /// The offset of its length, in bytes from the start of the file.
    pub place: usize,
    /// The CID after the length.
    pub cid: CidRef<'a>,
    /// The bytes after the CID, up to the section's end.
    pub block: &'a [u8],
}

/// The contents of a CARv1 file: the roots that its header names, and its sections, in their order.
#[derive(Drop)]
pub struct CarFile<'a> {
    pub roots: Vec<Cid>,
    pub sections: Vec<Section<'a>>,
}

/// Reads the roots and the sections of a CARv1 file, or returns its first error, which is that of
/// `read_car`.
///
/// Each section is there, also one whose CID has occurred before. No block is copied.
pub fn read_sections(alloc: Global, bytes: &[u8]) -> Result<CarFile<'_>, CarFault>
    ensures sections { Gives (λ s. views_of s.sections) bytes.now result (section_list bytes.now) }
    ensures roots { IfOk result (λ s. s.roots.items ≡ roots_of bytes.now) }
{
    match sections_of(alloc, bytes) {
        Ok(sections) => Ok(sections),
        Err(fault) => Err(CarFault {
            kind: fault.kind,
            place: bytes.len() - fault.left,
        }),
    }
}

// Does the same, with the offset of an error counted from the end.
fn sections_of(alloc: Global, bytes: &[u8]) -> Result<CarFile<'_>, FaultAt>
    ensures sections { ReadsFrom (λ s. views_of s.sections) section_list bytes.now result }
    ensures roots { IfOk result (λ s. s.roots.items ≡ roots_of bytes.now) }
{
    let (roots, rest) = roots_and_rest(alloc, bytes)?;
    let sections = sections_after(alloc, bytes.len(), rest)?;
    Ok(CarFile { roots, sections })
}

/// Reads the header of a CARv1 file. The answer is the roots that it names and the bytes after it, in which the sections
/// stand, or the header's fault, which is that of `read_car`.
pub fn read_header(alloc: Global, bytes: &[u8]) -> Result<(Vec<Cid>, &[u8]), CarFault>
    ensures rest { Gives (λ h. h.1.now) bytes.now result (header_at bytes.now) }
    ensures roots { IfOk result (λ h. h.0.items ≡ roots_of bytes.now) }
    ensures shorter { IfOk result (λ h. length h.1.now < length bytes.now) }
{
    let length = bytes.len();
    match roots_and_rest(alloc, bytes) {
        Ok(header) => Ok(header),
        Err(fault) => Err(CarFault {
            kind: fault.kind,
            place: length - fault.left,
        }),
    }
}

// The same, with the place of a fault from the end.
fn roots_and_rest(alloc: Global, bytes: &[u8]) -> Result<(Vec<Cid>, &[u8]), FaultAt>
    ensures rest { ReadsFrom (λ h. h.1.now) header_at bytes.now result }
    ensures roots { IfOk result (λ h. h.0.items ≡ roots_of bytes.now) }
    ensures shorter { IfOk result (λ h. length h.1.now < length bytes.now) }
{
    let rest = header_at(bytes)?;
    let roots = roots_at(alloc, bytes)?;
    Ok((roots, rest))
}

/// Reads the section at the front of some bytes, which end a CARv1 file of `size` bytes. The answer is the section and the
/// bytes after it, or the section's fault. So a caller reads one section after another and needs no list of them.
pub fn read_section(size: usize, bytes: &[u8]) -> Result<(Section<'_>, &[u8]), CarFault>
    requires { length bytes.now ≤ size }
    ensures section { IfOk result (IsSectionAt size bytes.now) }
    ensures refused { IfErr result (IsSectionFault size bytes.now) }
{
    let place = size - bytes.len();
    match section_at(bytes) {
        Ok((cid, block, rest)) => Ok((Section { place, cid, block }, rest)),
        Err(fault) => Err(CarFault {
            kind: fault.kind,
            place: size - fault.left,
        }),
    }
}

// Returns the sections at the end of a file of `size` bytes.
fn sections_after<'a>(
    alloc: Global,
    size: usize,
    bytes: &'a [u8],
) -> Result<Vec<Section<'a>>, FaultAt>
    requires { length bytes.now ≤ size }
    ensures { ReadsFrom (λ v. views_of v) (sections_in size) bytes.now result }
{
    let mut rest = bytes;
    let mut sections = Vec::new(alloc);
    while !rest.is_empty() {
        let (cid, block, after) = section_at(rest)?;
        let place = size - rest.len();
        let Ok(()) = sections.push(Section { place, cid, block }) else {
            return Err(FaultAt::at(CarKind::Memory, rest));
        };
        rest = after;
    }
    Ok(sections)
}
