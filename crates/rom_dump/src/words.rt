//! The words of the command line: `script`, `check` or `metrics` with a file, then the region where one is named, and
//! of `script` the part where one is asked for.
ghost use Rattle.std.specs.Prelude.{◌≡◌, IfSome, option_and_then};
ghost use Rattle.rom_dump.specs.Named.{AsksForPart, IsPartNumber, dump_command_read, named_file};
ghost use Rattle.rom_dump.specs.Words.{dump_command, dump_command_of, file_of, region_asked};
ghost use Rattle.rom_dump.specs.Words as asks;

use rom_open::Region;
use rom_run::is_name;
use rom_text::{Name, Names, read_within};

/// What the words ask for. No name is empty or begins with a dash.
#[derive(Clone, Copy, Debug)]
pub enum Dump<'a> {
    /// To print the script of the heap in this file, or this part of it, which is 1 to 64; by the region of
    /// this name, or by the one that counts.
    Script {
        file: &'a Name,
        from: Option<Region>,
        part: Option<u64>,
    },
    /// To say which region counts in this file, and the sizes of the heap; or those of the region of this name.
    Check {
        file: &'a Name,
        from: Option<Region>,
    },
    /// To say what a monitor watches of the heap in this file.
    Metrics {
        file: &'a Name,
    },
}

/// How many parts a script has at most.
const MOST_PARTS: u64 = 64;

/// The region behind `--from`.
fn read_from(option: &Name, name: &Name) -> Option<Region>
    ensures { result ≡ asks.from_words option.now name.now }
{
    if option.as_str() != "--from" {
        return None;
    }
    match name.as_str() {
        "main" => Some(Region::Main),
        "back" => Some(Region::Back),
        _ => None,
    }
}

/// The part behind `--part`.
fn read_part(option: &Name, part: &Name) -> Option<u64>
    ensures part { result ≡ asks.part_words option.now part.now }
    ensures within { IfSome result IsPartNumber }
{
    if option.as_str() != "--part" {
        return None;
    }
    read_within(part.as_str(), 1, MOST_PARTS)
}

/// A region or a part.
fn read_option(option: &Name, value: &Name) -> Option<(Option<Region>, Option<u64>)>
    ensures options { result ≡ asks.region_or_part (asks.from_words option.now value.now)
        (asks.part_words option.now value.now) }
    ensures part { IfSome result (λ asked. IfSome asked.1 IsPartNumber) }
{
    if let Some(region) = read_from(option, value) {
        return Some((Some(region), None));
    }
    let part = read_part(option, value)?;
    Some((None, Some(part)))
}

/// What the words behind a file ask for.
fn read_options(words: &[Name]) -> Option<(Option<Region>, Option<u64>)>
    ensures options { result ≡ asks.options_of words.now }
    ensures part { IfSome result (λ asked. IfSome asked.1 IsPartNumber) }
{
    match words {
        [] => Some((None, None)),
        [option, value] => read_option(option, value),
        [from, name, option, part] => {
            let region = read_from(from, name)?;
            let part = read_part(option, part)?;
            Some((Some(region), Some(part)))
        }
        _ => None,
    }
}

/// The command of this name, of this file with these options.
fn command_of<'a>(
    name: &Name,
    file: &'a Name,
    from: Option<Region>,
    part: Option<u64>,
) -> Option<Dump<'a>>
    requires { IfSome part IsPartNumber }
    ensures named { dump_command_read result ≡ dump_command_of name.now file.now from part }
    ensures part { IfSome result AsksForPart }
{
    match name.as_str() {
        "script" => Some(Dump::Script { file, from, part }),
        "check" => match part {
            None => Some(Dump::Check { file, from }),
            Some(_) => None,
        },
        "metrics" => match (from, part) {
            (None, None) => Some(Dump::Metrics { file }),
            _ => None,
        },
        _ => None,
    }
}

/// The command that the words are. It takes no memory.
pub fn read_dump(words: &Names) -> Option<Dump<'_>>
    ensures named { dump_command_read result ≡ dump_command words.now }
    ensures part { IfSome result AsksForPart }
{
    let [name, file, options @ ..] = words.as_slice() else {
        return None;
    };
    if !is_name(file) {
        return None;
    }
    let (from, part) = read_options(options)?;
    command_of(name, file, from, part)
}

/// The file whose heap the words ask `main` to open for reading.
pub fn dump_file(words: &Names) -> Option<&Name>
    ensures { named_file result ≡ file_of (dump_command words.now) }
{
    match read_dump(words)? {
        Dump::Script { file, .. } | Dump::Check { file, .. } | Dump::Metrics { file } => {
            Some(file)
        }
    }
}

/// The region that the words name by `--from`, if they are a command and name one.
pub fn region_of(words: &Names) -> Option<Region>
    ensures { result ≡ option_and_then region_asked (dump_command words.now) }
{
    match read_dump(words)? {
        Dump::Script { from, .. } | Dump::Check { from, .. } => from,
        Dump::Metrics { .. } => None,
    }
}
