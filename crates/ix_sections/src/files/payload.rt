//! The CARv1 file in a file.

ghost use Rattle.std.specs.Prelude.{IfOk};
ghost use Rattle.ix_sections.specs.Gives.{Gives};
ghost use Rattle.ix_sections.specs.Payload.{IsWithin};
ghost use Rattle.ix_sections.specs.Files.{payload_by};

use crate::{CarFault, Payload, payload_of};

/// Returns where the CARv1 file in a file begins and ends: the whole, if CARv2 isn't read.
pub fn payload_in(carv2: bool, bytes: &[u8]) -> Result<Payload, CarFault>
    ensures gives { Gives (λ payload. (payload.start, payload.end)) bytes.now result (payload_by carv2 bytes.now) }
    ensures within { IfOk result (λ payload. IsWithin payload bytes.now) }
{
    if carv2 {
        payload_of(bytes)
    } else {
        Ok(Payload {
            start: 0,
            end: bytes.len(),
        })
    }
}
