//! Names of texts, which stand for them on the lines after.

use anyhow::{Context, Result};
use std::alloc::Global;
use std::collections::BTreeMap;

/// Texts by their names.
#[derive(Drop)]
pub struct Names {
    alloc: Global,
    texts: BTreeMap<String, String>,
}

impl Names {
    /// No names so far.
    pub fn new(alloc: Global) -> Names {
        Names {
            alloc,
            texts: BTreeMap::new(alloc),
        }
    }

    /// Has a name stand for a text, from `NAME TEXT`.
    pub fn give(&mut self, line: &str) -> Result<()> {
        let (name, text) = line
            .split_once(' ')
            .context("a name and a text are wanted")?;
        let name = String::from_str(self.alloc, name)?;
        let text = String::from_str(self.alloc, text)?;
        self.texts.insert(name, text)?;
        Ok(())
    }

    /// A line in which what stands between `<` and `>` is written out: `NAME` is its text,
    /// `PART*COUNT` that many times a name's text or the part itself, and `NAME#COUNT` the text once
    /// for each number below the count, with the number in place of each `#`.
    pub fn written_out(&self, line: &str) -> Result<String> {
        let mut parts = line.split('<');
        let mut out = String::from_str(self.alloc, parts.next().unwrap_or(""))?;
        for part in parts {
            self.push_part(&mut out, part)?;
        }
        Ok(out)
    }

    // Appends what follows a `<`, up to the next.
    fn push_part(&self, out: &mut String, part: &str) -> Result<()> {
        let (inside, behind) = part.split_once('>').context("a `<` has no `>`")?;
        self.push_inside(out, inside)?;
        out.push_str(behind)?;
        Ok(())
    }

    // Appends what stands between `<` and `>`, written out.
    fn push_inside(&self, out: &mut String, inside: &str) -> Result<()> {
        if let Some((part, count)) = inside.split_once('*') {
            let part = self.text_of(part).unwrap_or(part);
            return push_times(out, part, count);
        }
        if let Some((name, count)) = inside.split_once('#') {
            return push_with_numbers(out, self.named(name)?, count);
        }
        out.push_str(self.named(inside)?)?;
        Ok(())
    }

    // The text of a name that has one.
    fn named(&self, name: &str) -> Result<&str> {
        self.text_of(name).context(format_args!("no name {name}"))
    }

    // The text of a name.
    fn text_of(&self, name: &str) -> Option<&str> {
        self.texts.get(name).map(|text| text.as_str())
    }
}

// Appends a text so many times.
fn push_times(out: &mut String, text: &str, count: &str) -> Result<()> {
    for _ in 0..count.parse::<u32>()? {
        out.push_str(text)?;
    }
    Ok(())
}

// Appends a text once for each number below the count, with the number in place of each `#`.
fn push_with_numbers(out: &mut String, text: &str, count: &str) -> Result<()> {
    for number in 0..count.parse::<u32>()? {
        push_numbered(out, text, number)?;
    }
    Ok(())
}

// Appends a text with a number in place of each `#`.
fn push_numbered(out: &mut String, text: &str, number: u32) -> Result<()> {
    let mut parts = text.split('#');
    out.push_str(parts.next().unwrap_or(""))?;
    for part in parts {
        write!(out, "{number}{part}")?;
    }
    Ok(())
}
