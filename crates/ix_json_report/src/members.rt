//! Members of objects.

ghost use Rattle.std.specs.Prelude.{codes};
ghost use Rattle.ix_cid.specs.CidText.{text_of};
ghost use Rattle.ix_check.specs.VerdictWords.{verdict_word};
ghost use Rattle.ix_json_report.specs.Members.{Appends, text_member, number_member};

use ix_check::Verdict;
use ix_cid::Cid;
use json::Writer;
use std::alloc::{AllocError, Global};

/// Appends a member with a string.
pub fn push_text(out: &mut Writer, name: &str, text: &str) -> Result<(), AllocError>
    ensures { Appends out.old out.new (text_member name.now text.now) result }
{
    out.key(name)?;
    out.string(text)
}

/// Appends a member with an integer.
pub fn push_number(out: &mut Writer, name: &str, number: u64) -> Result<(), AllocError>
    ensures { Appends out.old out.new (number_member name.now number) result }
{
    out.key(name)?;
    out.u64(number)
}

/// Appends a member with the word for a verdict.
pub fn push_verdict(
    alloc: Global,
    out: &mut Writer,
    name: &str,
    verdict: Verdict,
) -> Result<(), AllocError>
    ensures { Appends out.old out.new (text_member name.now (verdict_word verdict)) result }
{
    let word = format!(in alloc; "{verdict}")?;
    push_text(out, name, word.as_str())
}

/// Appends the member `cid` with the text of a CID.
pub fn push_cid(alloc: Global, out: &mut Writer, cid: &Cid) -> Result<(), AllocError>
    ensures { Appends out.old out.new (text_member (codes "cid") (text_of cid.now)) result }
{
    let text = cid.text(alloc)?;
    push_text(out, "cid", text.as_str())
}
