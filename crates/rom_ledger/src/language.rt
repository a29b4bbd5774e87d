//! What the lines of a script ask a ledger for.
ghost use Rattle.std.specs.Prelude.{◌++◌, codes, List};
ghost use Rattle.rom_model.specs.declared.line.Step.{Step};
ghost use Rattle.rom_model.specs.declared.line.Step.TheVariants.{Unread};
ghost use Rattle.rom_model.specs.declared.call.Query.{Query};
ghost use Rattle.rom_text.specs.Lines.{AsksFor};
ghost use Rattle.rom_script.specs.Lines.{ReadsTrio};
ghost use Rattle.rom_guard.specs.declared.call.GuardedCall.{GuardedCall};
ghost use Rattle.rom_ledger.specs.Ledger.{guarded_ledger};
ghost use Rattle.rom_ledger.specs.Lines.{ReadsLedger};
ghost use Rattle.rom_ledger.specs.Longest.{long_unread};
ghost use Rattle.rom_ledger.specs.declared.call.LedgerCall.{LedgerCall};
ghost use Rattle.rom_ledger.specs.declared.call.LedgerSingle.{LedgerSingle};

use crate::call::LedgerCall;
use crate::codes::put_conditional_words;
use crate::member_line::{read_conditional, read_guarded_members};
use crate::members::{GuardedLedger, LedgerGroup};
use rom_guard::GuardedCall;
use rom_model::{Args, Object, Query, Step};
use rom_script::TrioLines;
use rom_text::{Lines, Parsed, ShortLines};

/// What a line asks a ledger for.
type LedgerStep = Step<GuardedCall<LedgerCall, LedgerGroup>, Query>;

/// What a guarded group's line asks for, whose members this text has. It makes `words` those of the group's call.
#[cold]
#[inline(never)]
fn put_guarded(members: &[u8], words: &mut Args) -> Parsed<Query>
    ensures { (step : Step (GuardedCall LedgerCall (List LedgerSingle)) Query)
        × AsksFor guarded_ledger.words_call words.new result step
        × ReadsLedger (codes "all " ++ members.now) step }
{
    match read_guarded_members(members) {
        Some(group) => {
            GuardedLedger::put_call_words(&GuardedCall::All(group), words);
            Parsed::Update
        }
        None => Parsed::Unread,
    }
}

/// Reads a line that is none of a queue, a set and a map. It makes `words` those of its call, where it asks for one.
#[cold]
#[inline(never)]
fn read_own(line: &[u8], words: &mut Args) -> Parsed<Query>
    requires heap { ReadsTrio line.now Unread }
    ensures { (step : Step (GuardedCall LedgerCall (List LedgerSingle)) Query)
        × AsksFor guarded_ledger.words_call words.new result step × ReadsLedger line.now step }
{
    if let Some(members) = line.strip_prefix(b"all ") {
        return put_guarded(members, words);
    }
    match read_conditional(line) {
        Some(call) => {
            put_conditional_words(&call, words);
            Parsed::Update
        }
        None => Parsed::Unread,
    }
}

/// Reads a line, which comes without its LF. It makes `words` those of its call, where it asks for one. A line
/// of a queue, a set and a map is read as there. Only a line that is none of theirs is looked at again.
#[inline(always)]
fn read_words(line: &[u8], words: &mut Args) -> Parsed<Query>
    ensures reads { (step : Step (GuardedCall LedgerCall (List LedgerSingle)) Query)
        × AsksFor guarded_ledger.words_call words.new result step × ReadsLedger line.now step }
{
    match TrioLines::read_words(line, words) {
        Parsed::Unread => read_own(line, words),
        read => read,
    }
}

/// The lines of a queue, a set and a map, and `inc K D`, `new K V`, `cas K U V`, `deq-if V`, and `all U ; U`
/// with two to eight updates of one structure.
pub struct LedgerLines;

impl Lines<GuardedLedger> for LedgerLines {
    ghost Reads = { ReadsLedger };

    fn read_line(line: &[u8]) -> LedgerStep {
        let mut words = Args::new();
        match read_words(line, &mut words) {
            Parsed::Update => Step::Update(GuardedLedger::words_call(&words).unwrap()),
            Parsed::Ask(query) => Step::Ask(query),
            Parsed::Unread => Step::Unread,
        }
    }

    fn read_words(line: &[u8], words: &mut Args) -> Parsed<Query> {
        read_words(line, words)
    }
}

impl ShortLines<GuardedLedger> for LedgerLines {
    ghost long_unread = { long_unread };
}
