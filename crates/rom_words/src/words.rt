//! The command that the words of the command line are, and what it names.
ghost use Rattle.std.specs.Prelude.{◌≡◌, ◌<◌, ◌≤◌, length, map, option_and_then, option_map, IfOk, IfSome, IsTrue, IsSome, Some};
ghost use Rattle.std.specs.List.{list_all};
ghost use Rattle.rom_model.specs.Blocks.{IsOrder};
ghost use Rattle.rom_header.specs.Layout.{words_needed};
ghost use Rattle.clap.specs.Words.{first_value, found_of};
ghost use Rattle.clap.specs.Walk.{rows_of};
ghost use Rattle.rom_words.specs.CommandLine.{HasAsked};
ghost use Rattle.rom_words.specs.Wanted.{AsksForFew, AsksForOrder, GivesFew, GivesOrder, IsWanted, matched_command, named, texts, told};
ghost use Rattle.rom_words.specs.Words.{both_of, command, drill_command, file_alone, format_command, has_bytes, number_within, run_command, scripts_of, stat_command, try_command, upgrade_command};
ghost use Rattle.rom_words.specs.Words as spec;

use crate::command_line::{found_in, matches_of, name_at, names_at, text_at, texts_of};
use crate::said::{Plain, Said, read_said};
use clap::ArgMatches;
use rom_header::Geometry;
use rom_model::{MAX_CALLERS, MAX_ORDER, MIN_ORDER};
use rom_text::{DeviceWant, Name, Names, Wanted, read_within};
use std::alloc::{AllocError, Global};

/// The order of the heap that `try` makes.
pub const TRY_ORDER: u32 = MIN_ORDER;

/// The order of the heap that a drill runs on.
pub const DRILL_ORDER: u32 = 12;

/// What words that are a command ask for. An order is 4 to 16, there are 1 to 16 scripts or callers,
/// and a caller has 1 to 10,000 calls.
#[derive(Drop)]
pub enum CommandAsked<'a> {
    /// To run these scripts on a new heap.
    Try(Plain<'a>),
    /// To run these scripts on the heap in this file.
    Run {
        file: &'a str,
        scripts: Plain<'a>,
    },
    /// To make a new heap of this order in this file.
    Format {
        file: &'a str,
        order: u32,
    },
    /// To print the sizes of the heap in this file.
    Stat(&'a str),
    /// To give the heap in this file a region of version 2 in the place of one of version 1.
    Upgrade(&'a str),
    /// To have callers run drawn calls on a new heap.
    Drill {
        start: u64,
        callers: u64,
        calls: u64,
    },
}

fn are_full(words: &[&str]) -> bool
    ensures { result ≡ list_all (λ w. has_bytes w.now) words.now }
{
    words.iter().all(|word| !word.is_empty())
}

/// Whether words name scripts: there are 1 to 16, and none is empty.
fn are_scripts(words: &[&str]) -> bool
    ensures named { result ≡ spec.are_scripts (texts words.now) }
    ensures few { IsTrue result → (0 < length words.now) × (length words.now ≤ 16) }
{
    (1..=MAX_CALLERS as usize).contains(&words.len()) && are_full(words)
}

/// Scripts.
fn read_try(said: Said<'_>) -> Option<CommandAsked<'_>>
    ensures named { named result ≡ try_command (told said.entry).plain (told said.entry).options }
    ensures order { IfSome result AsksForOrder }
    ensures few { IfSome result AsksForFew }
{
    let Said { plain, options } = said;
    if !options.is_empty() || !are_scripts(&plain) {
        return None;
    }
    Some(CommandAsked::Try(plain))
}

/// A file, and then the scripts to run on its heap.
fn read_run(said: Said<'_>) -> Option<CommandAsked<'_>>
    ensures named { named result ≡ run_command (told said.entry).plain (told said.entry).options }
    ensures order { IfSome result AsksForOrder }
    ensures few { IfSome result AsksForFew }
{
    let Said { plain, options } = said;
    let mut scripts = plain;
    let file = scripts.pop_at(0)?;
    if !options.is_empty() || file.is_empty() || !are_scripts(&scripts) {
        return None;
    }
    Some(CommandAsked::Run { file, scripts })
}

/// A file, and the order of the heap that is made there.
fn read_format(said: Said<'_>) -> Option<CommandAsked<'_>>
    ensures named { named result ≡ format_command (told said.entry).plain (told said.entry).options }
    ensures order { IfSome result AsksForOrder }
    ensures few { IfSome result AsksForFew }
{
    let ([file], [(name, value)]) = (said.plain.as_slice(), said.options.as_slice()) else {
        return None;
    };
    if file.is_empty() || *name != "order" {
        return None;
    }
    let order = read_within(value, MIN_ORDER as u64, MAX_ORDER as u64)? as u32;
    Some(CommandAsked::Format { file: *file, order })
}

/// A file alone.
fn read_file(said: Said<'_>) -> Option<&str>
    ensures { option_map (λ f. f.now) result
        ≡ file_alone (told said.entry).plain (told said.entry).options }
{
    match (said.plain.as_slice(), said.options.as_slice()) {
        ([file], []) if !file.is_empty() => Some(*file),
        _ => None,
    }
}

/// The file whose heap's sizes are printed.
fn read_stat(said: Said<'_>) -> Option<CommandAsked<'_>>
    ensures named { named result ≡ stat_command (told said.entry).plain (told said.entry).options }
    ensures order { IfSome result AsksForOrder }
    ensures few { IfSome result AsksForFew }
{
    Some(CommandAsked::Stat(read_file(said)?))
}

/// The file whose heap gets a region of version 2.
fn read_upgrade(said: Said<'_>) -> Option<CommandAsked<'_>>
    ensures named { named result ≡ upgrade_command (told said.entry).plain (told said.entry).options }
    ensures order { IfSome result AsksForOrder }
    ensures few { IfSome result AsksForFew }
{
    Some(CommandAsked::Upgrade(read_file(said)?))
}

/// The values of two options of these names, in either order.
fn read_both<'a>(
    one: &str,
    other: &str,
    options: &[(&'a str, &'a str)],
) -> Option<(&'a str, &'a str)>
    ensures { option_map (λ v. (v.0.now, v.1.now)) result ≡ both_of one.now other.now
        (map (λ o. (o.0.now, o.1.now)) options.now) }
{
    let [first, second] = options else {
        return None;
    };
    if first.0 == one && second.0 == other {
        Some((first.1, second.1))
    } else if first.0 == other && second.0 == one {
        Some((second.1, first.1))
    } else {
        None
    }
}

/// Where the drawing starts, and how many callers make how many calls each.
fn read_drill(said: Said<'_>) -> Option<CommandAsked<'_>>
    ensures named { named result ≡ drill_command (told said.entry).plain (told said.entry).options }
    ensures order { IfSome result AsksForOrder }
    ensures few { IfSome result AsksForFew }
{
    let [start] = said.plain.as_slice() else {
        return None;
    };
    let (callers, calls) = read_both("callers", "calls", said.options.as_slice())?;
    Some(CommandAsked::Drill {
        start: read_within(start, 0, u64::MAX)?,
        callers: read_within(callers, 1, MAX_CALLERS as u64)?,
        calls: read_within(calls, 1, 10_000)?,
    })
}

/// The command that the words are. It takes no memory.
pub fn read_command(words: &Names) -> Option<CommandAsked<'_>>
    ensures named { named result ≡ command words.now }
    ensures order { IfSome result AsksForOrder }
    ensures few { IfSome result AsksForFew }
{
    let (name, words) = words.as_slice().split_first()?;
    let said = read_said(words)?;
    match name.as_str() {
        "try" => read_try(said),
        "run" => read_run(said),
        "format" => read_format(said),
        "stat" => read_stat(said),
        "upgrade" => read_upgrade(said),
        "drill" => read_drill(said),
        _ => None,
    }
}

/// The number that is an argument's one value.
fn number_at(found: &ArgMatches<'_>, id: &str, least: u64, most: u64) -> u64
    requires { IsSome (option_and_then (number_within least most)
        (first_value (found_of found.now) id.now)) }
    ensures number { option_and_then (number_within least most)
        (first_value (found_of found.now) id.now) ≡ Some result }
    ensures within { (least ≤ result) × (result ≤ most) }
{
    read_within(text_at(found, id), least, most).unwrap()
}

/// What the matches of a command name. An order is 4 to 16, and there are 1 to 16 scripts or callers.
#[derive(Drop)]
enum Matched {
    Try(Names),
    Run {
        file: Name,
        scripts: Names,
    },
    Format {
        file: Name,
        order: u32,
    },
    Stat(Name),
    Upgrade(Name),
    Drill {
        start: u64,
        callers: u64,
        calls: u64,
    },
}

/// Words in memory, as many as a heap of this order needs.
fn fresh_of(order: u32) -> DeviceWant
    requires { IsOrder order }
    ensures { result ≡ DeviceWant.Fresh (words_needed order) }
{
    DeviceWant::Fresh(Geometry::of_order(order).need())
}

/// What the matches of the command that is asked for name.
fn read_found(
    alloc: Global,
    asked: &CommandAsked<'_>,
    found: &ArgMatches<'_>,
) -> Result<Matched, AllocError>
    requires matched { HasAsked (named (Some asked.now)) (rows_of (found_of found.now)) }
    requires few { AsksForFew asked.now }
    ensures named { IfOk result (λ m. Some (matched_command m) ≡ named (Some asked.now)) }
    ensures order { IfOk result GivesOrder }
    ensures few { IfOk result GivesFew }
{
    match asked {
        CommandAsked::Try(_) => Ok(Matched::Try(names_at(alloc, found, "SCRIPT")?)),
        CommandAsked::Run { .. } => {
            let file = name_at(alloc, found, "FILE")?;
            let scripts = names_at(alloc, found, "SCRIPT")?;
            Ok(Matched::Run { file, scripts })
        }
        CommandAsked::Format { .. } => {
            let file = name_at(alloc, found, "FILE")?;
            let order = number_at(found, "order", MIN_ORDER as u64, MAX_ORDER as u64) as u32;
            Ok(Matched::Format { file, order })
        }
        CommandAsked::Stat(_) => Ok(Matched::Stat(name_at(alloc, found, "FILE")?)),
        CommandAsked::Upgrade(_) => Ok(Matched::Upgrade(name_at(alloc, found, "FILE")?)),
        CommandAsked::Drill { .. } => {
            let start = number_at(found, "START", 0, u64::MAX);
            let callers = number_at(found, "callers", 1, MAX_CALLERS as u64);
            let calls = number_at(found, "calls", 1, 10_000);
            Ok(Matched::Drill {
                start,
                callers,
                calls,
            })
        }
    }
}

/// The names and the numbers of words that are a command, as the matches of `clap` give them.
fn read_matches(
    alloc: Global,
    words: &Names,
    asked: &CommandAsked<'_>,
) -> Result<Matched, AllocError>
    requires named { named (Some asked.now) ≡ command words.now }
    requires few { AsksForFew asked.now }
    ensures named { IfOk result (λ m. Some (matched_command m) ≡ command words.now) }
    ensures order { IfOk result GivesOrder }
    ensures few { IfOk result GivesFew }
{
    let texts = texts_of(alloc, words)?;
    let Ok(matches) = matches_of(alloc, texts.as_slice()) else {
        return Err(AllocError);
    };
    read_found(alloc, asked, found_in(&matches))
}

/// What the words ask `main` to hand to `run`: a device, and the scripts in order.
pub fn files_of(alloc: Global, words: &Names) -> Result<Wanted, AllocError>
    // After `Ok`: words in memory, a file that is there, or one that is made if need be and lengthened. Words
    // that are no command want none.
    ensures device { IfOk result (λ wanted. IsWanted (command words.now) wanted.device) }
    ensures scripts { IfOk result (λ wanted. wanted.scripts ≡ scripts_of (command words.now)) }
{
    let none = Names::new(alloc);
    let Some(asked) = read_command(words) else {
        return Ok(Wanted {
            device: DeviceWant::Nothing,
            scripts: none,
        });
    };
    let (device, scripts) = match read_matches(alloc, words, &asked)? {
        Matched::Try(scripts) => (fresh_of(TRY_ORDER), scripts),
        Matched::Run { file, scripts } => (DeviceWant::Old(file), scripts),
        Matched::Format { file, order } => {
            (
                DeviceWant::Made(file, Geometry::of_order(order).need()),
                none,
            )
        }
        Matched::Stat(file) => (DeviceWant::Old(file), none),
        Matched::Upgrade(file) => (DeviceWant::Old(file), none),
        Matched::Drill { .. } => (fresh_of(DRILL_ORDER), none),
    };
    Ok(Wanted { device, scripts })
}
