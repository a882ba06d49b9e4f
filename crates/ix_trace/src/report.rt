//! A report with paths.

use std::alloc::{AllocError, Global};

/// Returns a report in which the lines of skips, which begin with two blanks, each end with a blank and the
/// next of these paths, if it is known.
pub fn with_paths(
    alloc: Global,
    report: &str,
    paths: &[Option<&str>],
) -> Result<String, AllocError> {
    let mut text = String::new(alloc);
    let mut left = paths.iter();
    let mut rest = report;
    while let Some((line, after)) = rest.split_once('\n') {
        text.push_str(line)?;
        if line.starts_with("  ") {
            push_path(&mut text, left.next().copied().flatten())?;
        }
        text.push('\n')?;
        rest = after;
    }
    text.push_str(rest)?;
    Ok(text)
}

// Appends a blank and a path, if it is known.
fn push_path(text: &mut String, path: Option<&str>) -> Result<(), AllocError> {
    match path {
        Some(path) => write!(text, " {path}"),
        None => Ok(()),
    }
}
