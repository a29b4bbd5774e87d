//! Scripts, and the numbers of what is printed.

use std::alloc::{AllocError, Global};

/// These scripts, as they are read.
pub fn texts_of<'a>(alloc: Global, scripts: &'a [String]) -> Result<Vec<&'a str>, AllocError> {
    let mut texts = Vec::new(alloc);
    for script in scripts {
        texts.push(script.as_str())?;
    }
    Ok(texts)
}

/// How many lines each script has.
pub fn lines_of(alloc: Global, scripts: &[&str]) -> Result<Vec<u64>, AllocError> {
    let mut lines = Vec::new(alloc);
    for script in scripts {
        lines.push(script.lines().count() as u64)?;
    }
    Ok(lines)
}

/// How many lines all of these are.
pub fn lines_in(lines: &[u64]) -> u64 {
    let mut all = 0u64;
    for one in lines {
        all = all.saturating_add(*one);
    }
    all
}

/// The number after the last such sign.
pub fn number_after(text: &str, sign: char) -> Option<u64> {
    let (_, digits) = text.rsplit_once(sign)?;
    digits.parse::<u64>().ok()
}

/// The count at the end of a whole text.
pub fn count_of(text: &str) -> Option<u64> {
    let (_, count) = text.rsplit_once("count ")?;
    count.strip_suffix("\n")?.parse::<u64>().ok()
}

/// How many updates were done, by the places that are printed.
pub fn places(text: &str) -> u64 {
    text.as_bytes().iter().filter(|byte| **byte == b'@').count() as u64
}
