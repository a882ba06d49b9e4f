//! Why a text is not a selector.

ghost use Rattle.std.specs.Prelude.{◌≡◌, IfOk, string_bytes};
ghost use Rattle.ix_selector_json.specs.FaultWords.{block_words, selector_words, form_words, line_of};

use ix_cbor::{CborFault, CborKind};
use ix_selector::{Form, SelFault};
use std::alloc::{AllocError, AllocFailed, Global};

/// Why a text is not a selector.
#[derive(Debug, Drop)]
pub enum NotationFault {
    /// The text is not UTF-8, or not a JSON value (RFC 8259): where reading stopped, in bytes.
    Json(usize),
    /// A key is twice in one object.
    Repeated,
    /// A number is not an integer in decimal digits alone, or not one from -2^64 to 2^64 - 1.
    Number,
    /// The text is not hex.
    Hex,
    /// The bytes are not a block of DAG-CBOR.
    Block(CborFault),
    /// The data is not a selector.
    Selector(SelFault),
    /// A name or a label is not UTF-8, so JSON can't have it.
    Name,
    /// Memory ran out.
    Memory,
}

impl From<AllocError> for NotationFault {
    ghost use Rattle.std.specs.Prelude.{◌≡◌};
    ghost use Rattle.ix_selector_json.specs.declared.fault.NotationFault.TheVariants.{Memory};

    ghost from_gives = { λ _ e. e ≡ Memory };

    fn from(_error: AllocError) -> NotationFault {
        NotationFault::Memory
    }
}

impl<T: Drop> From<AllocFailed<T>> for NotationFault {
    ghost use Rattle.std.specs.Prelude.{◌≡◌};
    ghost use Rattle.ix_selector_json.specs.declared.fault.NotationFault.TheVariants.{Memory};

    ghost from_gives = { λ _ e. e ≡ Memory };

    fn from(_error: AllocFailed<T>) -> NotationFault {
        NotationFault::Memory
    }
}

/// Returns the line that the program prints for an error, without its end.
pub fn fault_line(alloc: Global, fault: &NotationFault) -> Result<String, AllocError>
    ensures { IfOk result (λ line. string_bytes line ≡ line_of fault.now) }
{
    match fault {
        NotationFault::Json(place) => format!(in alloc; "selector: no JSON at {place}"),
        NotationFault::Repeated => String::from_str(alloc, "selector: repeated key"),
        NotationFault::Number => String::from_str(
            alloc,
            "selector: not an integer from -2^64 to 2^64 - 1",
        ),
        NotationFault::Hex => String::from_str(alloc, "selector: hex"),
        NotationFault::Block(fault) => {
            let kind = block_words(fault.kind);
            let place = fault.place;
            format!(in alloc; "selector: {kind} at {place}")
        }
        NotationFault::Selector(fault) => {
            let words = selector_words(*fault);
            format!(in alloc; "selector: {words}")
        }
        NotationFault::Name => String::from_str(alloc, "selector: a name is not UTF-8"),
        NotationFault::Memory => String::from_str(alloc, "memory"),
    }
}

// Returns the text for what is wrong with a block.
fn block_words(kind: CborKind) -> &'static str
    ensures { result.now ≡ block_words kind }
{
    match kind {
        CborKind::Truncated => "truncated",
        CborKind::NotShortest => "a number not in its shortest form",
        CborKind::Indefinite => "a length left open",
        CborKind::Tag => "a tag other than 42",
        CborKind::Link => "a link without a CID",
        CborKind::Simple => "another simple value",
        CborKind::Float => "a float",
        CborKind::KeyKind => "a key that is no text",
        CborKind::KeyOrder => "keys out of order",
        CborKind::Rest => "more bytes",
        CborKind::Nesting => "nested too deep",
        CborKind::Memory => "no memory",
    }
}

// Returns the text for the first error of a selector.
fn selector_words(fault: SelFault) -> &'static str
    ensures { result.now ≡ selector_words fault }
{
    match fault {
        SelFault::NotMap => "no map where a selector should stand",
        SelFault::Keys => "wrong keys",
        SelFault::Unknown => "unknown key",
        SelFault::Unsupported(form) => form_words(form),
        SelFault::Kind => "a value of another kind",
        SelFault::Depth => "depth out of range",
        SelFault::EdgeOutside => "edge outside a recursion",
        SelFault::EdgeUnguarded => "edge without a step in its recursion",
        SelFault::Nesting => "nested too deep",
        SelFault::Memory => "no memory",
    }
}

// Returns the text for a form that is rejected by name.
fn form_words(form: Form) -> &'static str
    ensures { result.now ≡ form_words form }
{
    match form {
        Form::Conditional => "conditional is not supported",
        Form::InterpretAs => "interpret-as is not supported",
        Form::StopAt => "stop-at is not supported",
        Form::MatcherField => "a matcher has no field but label",
    }
}
