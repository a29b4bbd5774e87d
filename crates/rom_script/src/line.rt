//! What the lines of a script ask a queue, a set and a map for.
ghost use Rattle.std.specs.Prelude.{◌≡◌, ◌≢◌, ◌++◌, codes, IfSome, IfNone};
ghost use Rattle.rom_model.specs.Codes as codes_of;
ghost use Rattle.rom_model.specs.declared.call.Call.{Call};
ghost use Rattle.rom_model.specs.declared.call.Query.{Query};
ghost use Rattle.rom_model.specs.declared.line.Step.{Step};
ghost use Rattle.rom_text.specs.Lines.{AsksFor};
ghost use Rattle.rom_script.specs.Asking.{Asks, query_phrase};
ghost use Rattle.rom_script.specs.Lines.{ReadsTrio};
ghost use Rattle.rom_script.specs.Longest.{long_unread};

use crate::group_line::read_members;
use crate::update_line::asked_update;
use rom_heap::Trio;
use rom_model::{Args, Call, Query, Step, put_call_words, put_single_words, words_call};
use rom_text::{Lines, Parsed, ShortLines, read_phrase};

/// What a script's line asks for.
pub type Line = Step<Call, Query>;

/// The query that a line with this first word and these numbers behind it asks for.
fn asked_query(name: &[u8], numbers: &[u64]) -> Option<Query>
    ensures some { IfSome result (λ q. (name.now, numbers.now) ≡ query_phrase q) }
    ensures none { IfNone result ((q : Query) → (name.now, numbers.now) ≢ query_phrase q) }
{
    match (name, numbers) {
        (b"has", [k]) => Some(Query::Has(*k)),
        (b"get", [k]) => Some(Query::Get(*k)),
        (b"peek", []) => Some(Query::Peek),
        (b"len", []) => Some(Query::Len),
        (b"total", []) => Some(Query::Total),
        (b"fresh", [place]) => Some(Query::Fresh(*place)),
        _ => None,
    }
}

/// What a line of one update or query with this first word and these numbers behind it asks for. It makes
/// `words` those of the update's call. No `Call` is made, since each is as wide as a group.
fn put_asked(name: &[u8], numbers: &[u64], words: &mut Args) -> Parsed<Query>
    ensures { (step : Step Call Query) × AsksFor codes_of.words_call words.new result step
        × Asks name.now numbers.now step }
{
    if let Some(update) = asked_update(name, numbers) {
        put_single_words(update, words);
        return Parsed::Update;
    }
    match asked_query(name, numbers) {
        Some(query) => Parsed::Ask(query),
        None => Parsed::Unread,
    }
}

/// What a group's line asks for, whose members this text has. It makes `words` those of the group's
/// call.
#[cold]
#[inline(never)]
fn put_group(members: &[u8], words: &mut Args) -> Parsed<Query>
    ensures { (step : Step Call Query) × AsksFor codes_of.words_call words.new result step
        × ReadsTrio (codes "tx " ++ members.now) step }
{
    match read_members(members) {
        Some(group) => {
            put_call_words(&Call::Group(group), words);
            Parsed::Update
        }
        None => Parsed::Unread,
    }
}

/// Reads a line, which comes without its LF. It makes `words` those of its call, where it asks for
/// one. It stands apart from the loop over the lines, where its own loops would take more steps for each byte.
#[inline(never)]
fn read_words(line: &[u8], words: &mut Args) -> Parsed<Query>
    ensures reads { (step : Step Call Query) × AsksFor codes_of.words_call words.new result step
        × ReadsTrio line.now step }
{
    if let Some(members) = line.strip_prefix(b"tx ") {
        return put_group(members, words);
    }
    match read_phrase(line) {
        Some(phrase) => put_asked(phrase.name, &phrase.numbers, words),
        None => Parsed::Unread,
    }
}

/// Reads a line, which comes without its LF, for whoever wants its step. A script is read by the words of
/// its calls.
pub fn read_line(line: &[u8]) -> Line
    ensures reads { ReadsTrio line.now result }
{
    let mut words = Args::new();
    match read_words(line, &mut words) {
        Parsed::Update => Line::Update(words_call(&words).unwrap()),
        Parsed::Ask(query) => Line::Ask(query),
        Parsed::Unread => Line::Unread,
    }
}

/// The language of scripts.
pub struct TrioLines;

impl Lines<Trio> for TrioLines {
    ghost Reads = { ReadsTrio };

    fn read_line(line: &[u8]) -> Line {
        read_line(line)
    }

    fn read_words(line: &[u8], words: &mut Args) -> Parsed<Query> {
        read_words(line, words)
    }
}

impl ShortLines<Trio> for TrioLines {
    ghost long_unread = { long_unread };
}
