//! Why a command gives no answer though its inputs were read, in a word for programs and a line for users.

use std::fmt;

// The status of arguments that are rejected, as that of a rejected input.
const REJECTED: u8 = 2;

// The status if what is asked for isn't there, or can't be read.
const NOT_THERE: u8 = 3;

// The same at a command that writes an archive, where 3 means that it has its name.
const NO_ARCHIVE: u8 = 4;

/// What an error is, for programs that read reports. docs/JSON.md lists the words.
#[derive(Debug, Drop, Clone, Copy, PartialEq, Eq)]
pub enum ErrorCode {
    /// A map on the path has no such key.
    NoKey,
    /// A list on the path has no such index.
    NoIndex,
    /// A value on the path has no children.
    NoChild,
    /// A block isn't there.
    Missing,
    /// A block doesn't have the hash of its CID.
    Damaged,
    /// A block isn't valid DAG-CBOR.
    Malformed,
    /// A CID has a codec that isn't read.
    Codec,
    /// A CID has a hash function that isn't checked.
    Hash,
    /// A block has a part that DAG-JSON can't express.
    DagJson,
    /// A path can't be followed as it is given, or its selector is too large or nests too deep.
    Path,
    /// A field of a job, or the selector, is rejected.
    Job,
    /// A job file is rejected.
    Jobs,
    /// A have-list is rejected.
    HaveList,
    /// An input isn't hex.
    Hex,
    /// A file isn't a whole CARv1 or CARv2 file.
    Car,
    /// A stream isn't what was asked for.
    Rejected,
    /// An input is larger than is allowed, or than the memory.
    TooLarge,
    /// An input can't be read.
    Read,
    /// An output can't be written.
    Write,
    /// Memory ran out.
    Memory,
}

impl ErrorCode {
    ghost use Rattle.std.specs.Prelude.{◌≡◌};
    ghost use Rattle.ix_cli_io.specs.Stop.{is_of_graph};

    /// Returns the word.
    pub fn word(self) -> &'static str {
        match self {
            ErrorCode::NoKey => "no-key",
            ErrorCode::NoIndex => "no-index",
            ErrorCode::NoChild => "no-child",
            ErrorCode::Missing => "missing",
            ErrorCode::Damaged => "damaged",
            ErrorCode::Malformed => "malformed",
            ErrorCode::Codec => "codec",
            ErrorCode::Hash => "hash",
            ErrorCode::DagJson => "dag-json",
            ErrorCode::Path => "path",
            ErrorCode::Job => "job",
            ErrorCode::Jobs => "jobs",
            ErrorCode::HaveList => "have-list",
            ErrorCode::Hex => "hex",
            ErrorCode::Car => "car",
            ErrorCode::Rejected => "rejected",
            ErrorCode::TooLarge => "too-large",
            ErrorCode::Read => "read",
            ErrorCode::Write => "write",
            ErrorCode::Memory => "memory",
        }
    }

    // Returns whether what is asked for isn't there, or can't be read, though the arguments are good.
    fn is_of_graph(self) -> bool
        ensures { result ≡ is_of_graph self }
    {
        matches!(
            self,
            ErrorCode::NoKey
                | ErrorCode::NoIndex
                | ErrorCode::NoChild
                | ErrorCode::Missing
                | ErrorCode::Damaged
                | ErrorCode::Malformed
                | ErrorCode::Codec
                | ErrorCode::Hash
                | ErrorCode::DagJson
        )
    }
}

impl fmt::Display for ErrorCode {
    fn fmt<W: fmt::Write>(&self, f: &mut fmt::Formatter<W>) -> fmt::Result {
        f.write_str(self.word())
    }
}

/// Why a command gives no answer, and what it is about.
#[derive(Debug, Drop)]
pub struct Stop {
    pub code: ErrorCode,
    /// The exit status.
    pub status: u8,
    /// The line for the user, without its end.
    pub line: String,
    /// The CID of the block that it is about, if there is one.
    pub cid: Option<String>,
    /// The path that was followed, if there is one.
    pub path: Option<String>,
}

impl Stop {
    ghost use Rattle.std.specs.Prelude.{◌≡◌};
    ghost use Rattle.ix_cli_io.specs.Stop.{status_by, archive_status};

    /// Makes a stop that is about no block, with the status of its kind.
    pub fn new(code: ErrorCode, line: String) -> Stop
        ensures { result.status ≡ status_by code }
    {
        Stop {
            code,
            status: if code.is_of_graph() {
                NOT_THERE
            } else {
                REJECTED
            },
            line,
            cid: None,
            path: None,
        }
    }

    /// Makes it that of a command that writes an archive, at which 3 is the status of an archive that has its name.
    pub fn of_archive(self) -> Stop
        ensures { result.status ≡ archive_status self.status }
    {
        let status = if self.status == NOT_THERE {
            NO_ARCHIVE
        } else {
            self.status
        };
        Stop { status, ..self }
    }
}
