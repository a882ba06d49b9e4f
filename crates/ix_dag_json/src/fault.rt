//! Why there is no DAG-JSON of a block.

ghost use Rattle.std.specs.Prelude.{◌≡◌, ◌++◌, OnOk, string_bytes};
ghost use Rattle.ix_dag_json.specs.Reasons.{encoded_key, is_plain};

use ix_cbor::{CborFault, CborKind};
use std::alloc::{AllocError, AllocFailed, Global};
use std::fmt::Write;

/// Why there is no DAG-JSON of a block.
#[derive(Debug, Drop)]
pub enum DagJsonFault {
    /// The bytes are not valid DAG-CBOR.
    Block(CborFault),
    /// DAG-JSON can't express a part.
    Part(Part),
    /// Memory ran out.
    Memory,
}

/// A part of a block that DAG-JSON can't express: the path to it, and why.
#[derive(Debug, Drop)]
pub struct Part {
    pub path: Vec<Step>,
    pub wrong: Wrong,
}

/// A step of a path.
#[derive(Debug, Drop)]
pub enum Step {
    /// To the element of a list with this index.
    Index(usize),
    /// To the value of this key of a map.
    Key(Vec<u8>),
}

/// Why DAG-JSON can't express a node.
#[derive(Debug, Drop)]
pub enum Wrong {
    /// It is text that is not UTF-8.
    Text,
    /// It is a map with this key, which is not UTF-8.
    Key(Vec<u8>),
    /// It is a map with the key `/`, which DAG-JSON reserves for links and bytes.
    Reserved,
    /// It is a float that is infinite or NaN, which no block has.
    Float,
}

impl DagJsonFault {
    ghost use Rattle.std.specs.Prelude.{◌≡◌};
    ghost use Rattle.ix_dag_json.specs.Lack.{IsWrongHere, IsUnder};

    // Returns the error that a node is wrong.
    pub(crate) fn here(alloc: Global, wrong: Wrong) -> DagJsonFault
        ensures { IsWrongHere wrong result }
    {
        DagJsonFault::Part(Part {
            path: Vec::new(alloc),
            wrong,
        })
    }

    // Returns the error of a node for the error of what is at a step from it.
    pub(crate) fn under(self, step: Result<Step, AllocError>) -> DagJsonFault
        ensures { IsUnder self step result }
    {
        match (self, step) {
            (DagJsonFault::Part(mut part), Ok(step)) => match part.path.insert(0, step) {
                Ok(()) => DagJsonFault::Part(part),
                Err(_) => DagJsonFault::Memory,
            },
            (DagJsonFault::Part(_), Err(_)) => DagJsonFault::Memory,
            (fault, _) => fault,
        }
    }
}

impl From<AllocError> for DagJsonFault {
    ghost use Rattle.std.specs.Prelude.{◌≡◌};
    ghost use Rattle.ix_dag_json.specs.declared.fault.DagJsonFault.TheVariants.{Memory};

    ghost from_gives = { λ _ e. e ≡ Memory };

    fn from(_error: AllocError) -> DagJsonFault {
        DagJsonFault::Memory
    }
}

impl<T: Drop> From<AllocFailed<T>> for DagJsonFault {
    ghost use Rattle.std.specs.Prelude.{◌≡◌};
    ghost use Rattle.ix_dag_json.specs.declared.fault.DagJsonFault.TheVariants.{Memory};

    ghost from_gives = { λ _ e. e ≡ Memory };

    fn from(_error: AllocFailed<T>) -> DagJsonFault {
        DagJsonFault::Memory
    }
}

impl Part {
    ghost use Rattle.std.specs.Prelude.{◌≡◌, IfOk, string_bytes};
    ghost use Rattle.ix_dag_json.specs.Reasons.{path_of, reason_of};

    /// Returns the path as text, a `/` before each step. In keys all bytes but printed ASCII are
    /// percent-encoded, and `%` and `/` are too.
    pub fn path_text(&self, alloc: Global) -> Result<String, AllocError>
        ensures { IfOk result (λ text. string_bytes text ≡ path_of self.now.path.items) }
    {
        let mut text = String::new(alloc);
        for step in &self.path {
            match step {
                Step::Index(index) => write!(text, "/{index}")?,
                Step::Key(key) => {
                    text.push('/')?;
                    push_escaped(&mut text, key.as_slice())?;
                }
            }
        }
        Ok(text)
    }

    /// Returns why DAG-JSON can't express it.
    pub fn reason(&self, alloc: Global) -> Result<String, AllocError>
        ensures { IfOk result (λ text. string_bytes text ≡ reason_of self.now.wrong) }
    {
        match &self.wrong {
            Wrong::Text => String::from_str(alloc, "text that is not UTF-8"),
            Wrong::Key(key) => {
                let mut reason = String::from_str(alloc, "a key that is not UTF-8: ")?;
                push_escaped(&mut reason, key.as_slice())?;
                Ok(reason)
            }
            Wrong::Reserved => {
                String::from_str(
                    alloc,
                    "the key /, which DAG-JSON reserves for links and bytes",
                )
            }
            Wrong::Float => String::from_str(alloc, "a float that is not finite"),
        }
    }
}

// Appends a key as it is in a path.
fn push_escaped(text: &mut String, key: &[u8]) -> Result<(), AllocError>
    ensures { OnOk result (string_bytes text.new ≡ string_bytes text.old ++ encoded_key key.now) }
{
    for byte in key {
        if is_plain(*byte) {
            text.push(char::from(*byte))?;
        } else {
            write!(text, "%{byte:02X}")?;
        }
    }
    Ok(())
}

// Whether a byte of a key is itself in a path.
fn is_plain(byte: u8) -> bool
    ensures { result ≡ is_plain byte }
{
    byte.is_ascii_graphic() && byte != b'%' && byte != b'/'
}
