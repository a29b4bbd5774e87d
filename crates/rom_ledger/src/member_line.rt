//! The lines of updates of one structure, and the members of a guarded group, as its line has them behind `all`
//! and a space.
ghost use Rattle.std.specs.Prelude.{◌≡◌, ◌≢◌, ◌<◌, ℕ, List, ◌++◌, length, Option, option_map, IfSome, IfNone};
ghost use Rattle.rom_script.specs.Members.{behind_line};
ghost use Rattle.rom_ledger.specs.Asking.{conditional_phrase};
ghost use Rattle.rom_ledger.specs.Lines.{ConditionalFits, GuardedMembersFit, LedgerSingleFits, conditional_line, guarded_members_line, ledger_single_line};
ghost use Rattle.rom_ledger.specs.declared.call.Conditional.{Conditional};
ghost use Rattle.rom_ledger.specs.declared.call.LedgerSingle.{LedgerSingle};

use crate::call::{Conditional, LedgerSingle};
use crate::members::LedgerGroup;
use rom_model::{MAX_MEMBERS, Single};
use rom_script::{read_update, split_first};
use rom_text::read_phrase;

/// The conditional update that a line with this first word and these numbers behind it asks for.
fn asked_conditional(name: &[u8], numbers: &[u64]) -> Option<Conditional>
    ensures some { IfSome result (λ c. (name.now, numbers.now) ≡ conditional_phrase c) }
    ensures none { IfNone result ((c : Conditional) → (name.now, numbers.now) ≢ conditional_phrase c) }
{
    match (name, numbers) {
        (b"inc", [key, amount]) => Some(Conditional::Inc(*key, *amount)),
        (b"new", [key, value]) => Some(Conditional::New(*key, *value)),
        (b"cas", [key, was, value]) => Some(Conditional::Cas(*key, *was, *value)),
        (b"deq-if", [value]) => Some(Conditional::DeqIf(*value)),
        _ => None,
    }
}

/// The conditional update that a line asks for. It is `None` exactly where there is none.
pub(crate) fn read_conditional(line: &[u8]) -> Option<Conditional>
    ensures some { IfSome result (λ c. ConditionalFits c × (line.now ≡ conditional_line c)) }
    ensures none { IfNone result ((c : Conditional) → ConditionalFits c → line.now ≢ conditional_line c) }
{
    let phrase = read_phrase(line)?;
    asked_conditional(phrase.name, &phrase.numbers)
}

/// The update of one structure that a line asks for. It is `None` exactly where there is none.
fn read_single(line: &[u8]) -> Option<LedgerSingle>
    ensures some { IfSome result (λ c. LedgerSingleFits c × (line.now ≡ ledger_single_line c)) }
    ensures none { IfNone result ((c : LedgerSingle) → LedgerSingleFits c
        → line.now ≢ ledger_single_line c) }
{
    if let Some(own) = read_update(line) {
        return Some(LedgerSingle::Heap(own));
    }
    Some(LedgerSingle::Conditional(read_conditional(line)?))
}

/// The first member, and the text of those behind it where there are some.
fn read_first(text: &[u8]) -> Option<(LedgerSingle, Option<&[u8]>)>
    ensures some { IfSome result (λ p. LedgerSingleFits p.0
        × (text.now ≡ ledger_single_line p.0 ++ behind_line (option_map (λ b. b.now) p.1))) }
    ensures none { IfNone result ((c : LedgerSingle) (behind : Option (List ℕ)) → LedgerSingleFits c
        → text.now ≢ ledger_single_line c ++ behind_line behind) }
    ensures less { IfSome result (λ p. IfSome p.1 (λ b. length b.now < length text.now)) }
{
    let (member, behind) = split_first(text);
    Some((read_single(member)?, behind))
}

/// The group that a text has the members of, cut as `tx` cuts its members. It is `None` too where these are fewer
/// than two or more than eight.
pub(crate) fn read_guarded_members(text: &[u8]) -> Option<LedgerGroup>
    ensures some { IfSome result (λ members. GuardedMembersFit members
        × (text.now ≡ guarded_members_line members)) }
    ensures none { IfNone result ((members : List LedgerSingle) → GuardedMembersFit members
        → text.now ≢ guarded_members_line members) }
{
    let mut members = [LedgerSingle::Heap(Single::Deq); MAX_MEMBERS];
    let mut len = 0;
    let mut rest = Some(text);
    while let Some(some) = rest {
        let (member, behind) = read_first(some)?;
        if len == MAX_MEMBERS {
            return None;
        }
        members[len] = member;
        len += 1;
        rest = behind;
    }
    LedgerGroup::of(&members[..len])
}
