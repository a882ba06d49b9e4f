//! The selector of a job as it is given in the arguments.

ghost use Rattle.std.specs.Prelude.{◌<◌, length, IfOk, IfErr, string_bytes};
ghost use Rattle.ix_jobs.specs.JobWords.{IsSpelledBy, IsUnspelled};

use crate::job_line::LineFault;
use ix_selector_json::{hex_of_json, json_fault_line};
use std::alloc::Global;

// `Selector::everything`, which is `{"R":{"l":{"none":{}},":>":{"a":{">":{"@":{}}}}}}`, as DAG-CBOR in
// hex.
const EVERYTHING: &str = "a16152a2616ca1646e6f6e65a0623a3ea16161a1613ea16140a0";

/// The selector of a job as it is given in the arguments.
#[derive(Debug, Drop, Clone, Copy)]
pub enum SelectorWord<'a> {
    /// Everything below each root.
    Everything,
    /// As JSON with the keys of the IPLD Selectors specification.
    Json(&'a [u8]),
    /// As DAG-CBOR in hex.
    Hex(&'a str),
}

/// Returns the hex of a selector and a line end. Hex is taken as it is, and isn't checked.
pub fn selector_hex(alloc: Global, selector: &SelectorWord<'_>) -> Result<String, LineFault>
    ensures spelled { IfOk result (λ line. IsSpelledBy selector.now (string_bytes line)) }
    ensures some { IfOk result (λ line. 0 < length (string_bytes line)) }
    ensures refused { IfErr result (IsUnspelled selector.now) }
{
    match selector {
        SelectorWord::Everything => Ok(format!(in alloc; "{EVERYTHING}\n")?),
        SelectorWord::Json(text) => match hex_of_json(alloc, text) {
            Ok(line) => Ok(line),
            Err(fault) => {
                let told = json_fault_line(alloc, &fault, text).ok();
                Err(LineFault::Selector(fault, told))
            }
        },
        SelectorWord::Hex(text) => Ok(format!(in alloc; "{text}\n")?),
    }
}
