//! The words that name whom a heap talks to.
ghost use Rattle.std.specs.Prelude.{◌≡◌, ◌<◌, ◌≤◌, IfSome, IsTrue};
ghost use Rattle.rom_talk.specs.Words.{callers_named, callers_read, file_and_pairs, ship_and_callers, shipping_read, talk_named};
ghost use Rattle.rom_talk.specs.Words as named;
ghost use Rattle.rom_run.specs.Plain as plain;

use rom_model::MAX_CALLERS;
use rom_run::is_name;
use rom_text::{Name, Names};

/// A heap's file, and where its callers are: an input and an output for each, or no name, and then there is one
/// caller, at standard input and output.
#[derive(Clone, Copy, Debug)]
pub struct Callers<'a> {
    pub file: &'a Name,
    pub names: &'a [Name],
}

/// The most names of callers: an input and an output for each.
const MOST_NAMES: usize = 2 * MAX_CALLERS as usize;

fn are_names(words: &[Name]) -> bool
    ensures { result ≡ plain.are_names words.now }
{
    words.iter().all(|word| is_name(word))
}

/// Whether words name an input and an output for each of some callers: there are up to 16.
fn are_pairs(words: &[Name]) -> bool
    ensures named { result ≡ named.are_pairs words.now }
    ensures few { IsTrue result → (0 < callers_named words.now) × (callers_named words.now ≤ 16) }
{
    words.len() % 2 == 0 && words.len() <= MOST_NAMES && are_names(words)
}

/// A file, and then an input and an output for each of up to 16 callers.
pub fn read_callers(words: &[Name]) -> Option<Callers<'_>>
    ensures named { callers_read result ≡ file_and_pairs words.now }
    // There are 1 to 16 callers.
    ensures few { IfSome result (λ callers. (0 < callers_named callers.names.now)
        × (callers_named callers.names.now ≤ 16)) }
{
    let (file, names) = words.split_first()?;
    if is_name(file) && are_pairs(names) {
        Some(Callers { file, names })
    } else {
        None
    }
}

/// Whom a heap talks to, and the stream to which it ships what is done, where there is one.
#[derive(Clone, Copy, Debug)]
pub struct Shipping<'a> {
    pub stream: Option<&'a Name>,
    pub callers: Callers<'a>,
}

/// The same as of `read_callers`, or behind `--ship` and the name of a stream.
pub fn read_shipping(words: &[Name]) -> Option<Shipping<'_>>
    ensures named { shipping_read result ≡ ship_and_callers words.now }
    // There are 1 to 16 callers.
    ensures few { IfSome result (λ shipping. (0 < callers_named shipping.callers.names.now)
        × (callers_named shipping.callers.names.now ≤ 16)) }
{
    let (option, behind) = words.split_first()?;
    if option.as_str() != "--ship" {
        return Some(Shipping {
            stream: None,
            callers: read_callers(words)?,
        });
    }
    let (stream, words) = behind.split_first()?;
    if !is_name(stream) {
        return None;
    }
    Some(Shipping {
        stream: Some(stream),
        callers: read_callers(words)?,
    })
}

/// The same behind the command `talk`, of a program that has others.
pub fn read_talk(words: &Names) -> Option<Callers<'_>>
    ensures named { callers_read result ≡ talk_named words.now }
    // There are 1 to 16 callers.
    ensures few { IfSome result (λ callers. (0 < callers_named callers.names.now)
        × (callers_named callers.names.now ≤ 16)) }
{
    let (name, words) = words.as_slice().split_first()?;
    if name.as_str() == "talk" {
        read_callers(words)
    } else {
        None
    }
}
