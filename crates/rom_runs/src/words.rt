//! Words that are a command, with the device and the scripts that they name, and words that are none.

use crate::rows::{PLAIN, Row, Sink, Text, Words};
use crate::runner::try_rows;
use rom_shell::{DeviceWant, Wanted, files_of};
use rom_test::names_of;
use std::process::Abort;
use std::sync::Wait;
use std::test::Fail;
use std::thread::Threads;

/// The device that words name.
#[derive(Clone, Copy, Debug)]
enum Want {
    /// None, since they are no command.
    Nothing,
    /// So many words in memory.
    Fresh(u64),
    /// A file that is there.
    Old(&'static str),
    /// A file that is made, of so many words.
    Made(&'static str, u64),
}

static NO_COMMANDS: [&[&str]; 62] = [
    &["format", "F"],
    &["format", "F", "--order"],
    &["format", "F", "--order", "3"],
    &["format", "F", "--order", "17"],
    &["format", "F", "--order", "04"],
    &["format", "F", "--order", "+4"],
    &["format", "F", "--order", "-"],
    &["format", "F", "--order="],
    &["format", "F", "--order", "4", "--order", "4"],
    &["format", "F", "--order=4", "--order", "4"],
    &["format", "F", "--order=4=5"],
    &["format", "F", "--=4"],
    &["format", "F", "--order", ""],
    &["format", "F", "--order", "--", "4"],
    &["format", "F", "---order=4"],
    &["format", "F", "--size", "4"],
    &["format", "F", "-order", "4"],
    &["format", "F", "--", "--order", "4"],
    &["format", "", "--order", "4"],
    &["format", "--order", "4"],
    &["stat"],
    &["stat", "F", "G"],
    &["stat", "-x"],
    &["stat", "F", "--order", "4"],
    &["stat", "--", ""],
    &["upgrade"],
    &["upgrade", "F", "G"],
    &["upgrade", "-x"],
    &["upgrade", "F", "--order", "4"],
    &["Upgrade", "F"],
    &[],
    &["--"],
    &["--", "stat", "F"],
    &["try"],
    &["try", "--"],
    &["try", "-x"],
    &["try", "a", "--order", "4"],
    &["TRY", "a"],
    &["help"],
    &["--help"],
    &["-h"],
    &["--version"],
    &["try", "--help"],
    &["stat", "F", "--help", "x"],
    &["run", "F"],
    &["run", "F", "--"],
    &["run", "F", "-x"],
    &["run", "F", "a", "-b"],
    &["try", "a", "", "b"],
    &["try", ""],
    &["run", "", "a"],
    &["drill"],
    &["drill", "1", "--callers", "1"],
    &["drill", "01", "--callers=1", "--calls=1"],
    &["drill", "-1", "--callers=1", "--calls=1"],
    &["drill", "1", "2", "--callers=1", "--calls=1"],
    &["drill", "1", "--callers", "0", "--calls", "1"],
    &["drill", "1", "--callers", "17", "--calls", "1"],
    &["drill", "1", "--callers", "1", "--calls", "10001"],
    &["drill", "1", "--callers", "1", "--callers", "1"],
    &[
        "drill",
        "1",
        "--callers",
        "1",
        "--calls",
        "1",
        "--calls",
        "1",
    ],
    &[
        "drill",
        "18446744073709551616",
        "--callers",
        "1",
        "--calls",
        "1",
    ],
];

/// Words, the device that they name, and their scripts.
static COMMANDS: [(&[&str], Want, &[&str]); 26] = [
    (&["format", "F", "--order", "4"], Want::Made("F", 232), &[]),
    (&["format", "F", "--order=4"], Want::Made("F", 232), &[]),
    (&["format", "--order", "4", "F"], Want::Made("F", 232), &[]),
    (
        &["format", "--order=16", "F"],
        Want::Made("F", 786_472),
        &[],
    ),
    (
        &["format", "F", "--order", "16"],
        Want::Made("F", 786_472),
        &[],
    ),
    (
        &["format", "F", "--order", "4", "--"],
        Want::Made("F", 232),
        &[],
    ),
    (
        &["format", "--order=4", "--", "-F"],
        Want::Made("-F", 232),
        &[],
    ),
    (
        &["format", "--order=4", "--", "--"],
        Want::Made("--", 232),
        &[],
    ),
    (&["format", "-", "--order", "5"], Want::Made("-", 424), &[]),
    (&["stat", "F"], Want::Old("F"), &[]),
    (&["stat", "F", "--"], Want::Old("F"), &[]),
    (&["stat", "--", "--F"], Want::Old("--F"), &[]),
    (&["stat", "a=b"], Want::Old("a=b"), &[]),
    (&["upgrade", "F"], Want::Old("F"), &[]),
    (&["upgrade", "--", "-F"], Want::Old("-F"), &[]),
    (&["upgrade", "-"], Want::Old("-"), &[]),
    (&["try", "--", "-x"], Want::Fresh(232), &["-x"]),
    (
        &["try", "a", "--", "--order", "4"],
        Want::Fresh(232),
        &["a", "--order", "4"],
    ),
    (&["try", "--", "--"], Want::Fresh(232), &["--"]),
    (&["try", "a", "-", "--"], Want::Fresh(232), &["a", "-"]),
    (&["run", "F", "--", "-x", "y"], Want::Old("F"), &["-x", "y"]),
    (&["run", "--", "F", "--", "x"], Want::Old("F"), &["--", "x"]),
    (
        &["drill", "0", "--callers", "1", "--calls", "1"],
        Want::Fresh(49_192),
        &[],
    ),
    (
        &["drill", "--calls", "9", "7", "--callers=2"],
        Want::Fresh(49_192),
        &[],
    ),
    (
        &["drill", "--calls=10000", "--callers=16", "5"],
        Want::Fresh(49_192),
        &[],
    ),
    (
        &[
            "drill",
            "18446744073709551615",
            "--callers=3",
            "--calls=4",
            "--",
        ],
        Want::Fresh(49_192),
        &[],
    ),
];

/// More scripts than a command takes, behind a command's name, and behind a file's too.
static TRY_MANY: [&str; 19] = [
    "try", "x", "-", "x", "-", "x", "-", "x", "-", "x", "-", "x", "-", "x", "-", "x", "-", "x", "-",
];

static RUN_MANY: [&str; 20] = [
    "run", "F", "x", "-", "x", "-", "x", "-", "x", "-", "x", "-", "x", "-", "x", "-", "x", "-",
    "x", "-",
];

/// Whether it is the device that is wanted.
fn is_wanted(found: &DeviceWant, want: Want) -> bool {
    match (found, want) {
        (DeviceWant::Nothing, Want::Nothing) => true,
        (DeviceWant::Fresh(words), Want::Fresh(many)) => *words == many,
        (DeviceWant::Old(name), Want::Old(file)) => name.as_str() == file,
        (DeviceWant::Made(name, words), Want::Made(file, many)) => {
            name.as_str() == file && *words == many
        }
        _ => false,
    }
}

/// Asserts what words name, and that words which are no command are told so.
fn are_asked<R: Threads + Wait + Sync + AllocGlobal + Abort>(
    rt: &R,
    words: &'static [&'static str],
    want: Want,
    scripts: &'static [&'static str],
) -> Result<(), Fail> {
    let Wanted {
        device,
        scripts: found,
    } = files_of(rt.alloc(), &names_of(rt.alloc(), words)?)?;
    assert!(rt; is_wanted(&device, want), "of {words:?}: {device:?}");
    let found = found.as_slice().iter().map(|name| name.as_str());
    assert!(rt; found.eq(scripts.iter().copied()), "of {words:?}");
    if !matches!(want, Want::Nothing) {
        return Ok(());
    }
    let told = Row {
        words,
        device: Words::Zeros(0),
        sink: Sink::Each,
        status: 2,
        text: Text::Is("not a command\n"),
        ..PLAIN
    };
    try_rows(rt, &[told])
}

#[test]
fn words_are_a_command_or_none(rt: HostRuntime) -> Result<(), Fail> {
    for words in &NO_COMMANDS {
        are_asked(&rt, words, Want::Nothing, &[])?;
    }
    for (words, want, scripts) in &COMMANDS {
        are_asked(&rt, words, *want, scripts)?;
    }
    Ok(())
}

/// Asserts that so many words name this device, and the words behind them as scripts, where there are 1 to
/// 16 of these.
fn name_scripts<R: Threads + Wait + Sync + AllocGlobal + Abort>(
    rt: &R,
    words: &'static [&'static str],
    front: usize,
    want: Want,
) -> Result<(), Fail> {
    for len in front..=words.len() {
        let words = &words[..len];
        if (1..=16).contains(&(len - front)) {
            are_asked(rt, words, want, &words[front..])?;
        } else {
            are_asked(rt, words, Want::Nothing, &[])?;
        }
    }
    Ok(())
}

#[test]
fn a_command_names_up_to_sixteen_scripts(rt: HostRuntime) -> Result<(), Fail> {
    name_scripts(&rt, &TRY_MANY, 1, Want::Fresh(232))?;
    name_scripts(&rt, &RUN_MANY, 2, Want::Old("F"))
}
