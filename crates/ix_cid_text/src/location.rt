//! Where a CID and a path are in a URL.

ghost use Rattle.std.specs.Prelude.{◌≡◌, ◌≤◌, length, option_copied, IfSome};
ghost use Rattle.ix_cid_text.specs.Location.{rest_after, rest_of_web, rest_of_address, without_query, pieces, first_label, split_url, location_of, location_view, IsNoLonger};

/// Where a CID and a path are in a text.
#[derive(Debug, Drop, Clone, Copy)]
pub struct Location<'a> {
    /// The text of the CID.
    pub cid: &'a str,
    /// The text of the path after it, without the `/` between.
    pub path: &'a str,
    /// Where the path ends, as an offset in the text, in bytes.
    pub end: usize,
}

/// Finds the CID and the path in `https://HOST/ipfs/CID/PATH`, `https://CID.ipfs.HOST/PATH`,
/// `ipfs://CID/PATH` and `/ipfs/CID/PATH`, with `http` and `ipld` too. There what follows `?` or `#` is
/// left out. Any other text is a CID up to its first `/`, and a path after it.
pub fn locate(text: &str) -> Location<'_>
    ensures exact { location_view result ≡ location_of text.now }
    ensures within { length result.path.now ≤ result.end }
{
    if let Some(rest) = rest_of_web(text) {
        let shown = without_query(rest);
        let end = text.len() - (rest.len() - shown.len());
        let (cid, path) = split_url(shown);
        Location { cid, path, end }
    } else if let Some(rest) = rest_of_address(text) {
        let shown = without_query(rest);
        let end = text.len() - (rest.len() - shown.len());
        let (cid, path) = split_piece(shown);
        Location { cid, path, end }
    } else {
        let (cid, path) = split_piece(text);
        let end = text.len();
        Location { cid, path, end }
    }
}

// Returns the text of a URL after `https://` or `http://`.
fn rest_of_web(text: &str) -> Option<&str>
    ensures exact { option_copied result ≡ rest_of_web text.now }
    ensures within { IsNoLonger text.now result }
{
    match after_prefix(text, "https://") {
        Some(rest) => Some(rest),
        None => after_prefix(text, "http://"),
    }
}

// Returns the text of an address of IPFS or IPLD after what is before its CID.
fn rest_of_address(text: &str) -> Option<&str>
    ensures exact { option_copied result ≡ rest_of_address text.now }
    ensures within { IsNoLonger text.now result }
{
    if let Some(rest) = after_prefix(text, "/ipfs/") {
        Some(rest)
    } else if let Some(rest) = after_prefix(text, "/ipld/") {
        Some(rest)
    } else if let Some(rest) = after_prefix(text, "ipfs://") {
        Some(rest)
    } else {
        after_prefix(text, "ipld://")
    }
}

// Returns the CID and the path of a URL that has no query: after `ipfs/` or `ipld/` in its path, or before
// `.ipfs.` in its host. Without either it is all the text of a CID, and none.
fn split_url(url: &str) -> (&str, &str)
    ensures exact { (result.0.now, result.1.now) ≡ split_url url.now }
    ensures within { length result.1.now ≤ length url.now }
{
    let (host, path) = split_piece(url);
    if let Some(rest) = after_prefix(path, "ipfs/") {
        split_piece(rest)
    } else if let Some(rest) = after_prefix(path, "ipld/") {
        split_piece(rest)
    } else if let Some(label) = first_label(host) {
        (label, path)
    } else {
        (url, "")
    }
}

// Returns the first label of a host whose second one is `ipfs`.
fn first_label(host: &str) -> Option<&str>
    ensures { option_copied result ≡ first_label host.now }
{
    let (label, rest) = host.split_once('.')?;
    let _ = after_prefix(rest, "ipfs.")?;
    Some(label)
}

// Returns the front of a text up to the first `?` or `#`.
fn without_query(text: &str) -> &str
    ensures exact { result.now ≡ without_query text.now }
    ensures within { length result.now ≤ length text.now }
{
    let shown = match text.split_once('#') {
        Some((before, _)) => before,
        None => text,
    };
    match shown.split_once('?') {
        Some((before, _)) => before,
        None => shown,
    }
}

/// Returns the text before the first `/`, and the text after it, which is empty if there is no `/`.
pub fn split_piece(text: &str) -> (&str, &str)
    ensures exact { (result.0.now, result.1.now) ≡ pieces text.now }
    ensures within { length result.1.now ≤ length text.now }
{
    match text.split_once('/') {
        Some(pieces) => pieces,
        None => (text, ""),
    }
}

// Returns the text after a prefix, if the text begins with it.
pub(crate) fn after_prefix<'a>(text: &'a str, prefix: &str) -> Option<&'a str>
    ensures exact { option_copied result ≡ rest_after prefix.now text.now }
    ensures within { IfSome result (λ rest. length rest.now ≤ length text.now) }
{
    text.strip_prefix(prefix)
}
