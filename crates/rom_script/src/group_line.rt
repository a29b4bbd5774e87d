//! The members of a group, as its line has them behind `tx` and a space.
ghost use Rattle.std.specs.Prelude.{◌≡◌, ◌≢◌, ◌<◌, ◌≤◌, ℕ, List, ◌++◌, length, Option, Some, option_map, IfSome, IfNone};
ghost use Rattle.rom_model.specs.declared.call.Single.{Single};
ghost use Rattle.rom_script.specs.Lines.{MembersFit, SingleCallFits, members_line, single_line};
ghost use Rattle.rom_script.specs.Members.{behind_line};

use crate::update_line::read_update;
use memchr::memmem;
use rom_model::{Group, MAX_MEMBERS, Single};

/// What stands between two members.
const SEPARATOR: &[u8] = b" ; ";

/// What stands before the first semicolon between two spaces, and what stands behind it where there is one: the
/// first of the members that a group's text has, and those to come.
pub fn split_first(text: &[u8]) -> (&[u8], Option<&[u8]>)
    ensures parts { text.now ≡ result.0.now ++ behind_line (option_map (λ b. b.now) result.1) }
    // No separator begins earlier than the first part ends.
    ensures first { (front back : List ℕ) → text.now ≡ front ++ behind_line (Some back)
        → length result.0.now ≤ length front }
    ensures less { IfSome result.1 (λ b. length b.now < length text.now) }
{
    // No update's line has a semicolon. So a text is cut into members in one way.
    match memmem::find(text, SEPARATOR) {
        Some(at) => (&text[..at], Some(&text[at + SEPARATOR.len()..])),
        None => (text, None),
    }
}

/// The first member, and the text of those behind it where there are some.
fn read_first(text: &[u8]) -> Option<(Single, Option<&[u8]>)>
    ensures some { IfSome result (λ p. SingleCallFits p.0
        × (text.now ≡ single_line p.0 ++ behind_line (option_map (λ b. b.now) p.1))) }
    ensures none { IfNone result ((c : Single) (behind : Option (List ℕ)) → SingleCallFits c
        → text.now ≢ single_line c ++ behind_line behind) }
    ensures less { IfSome result (λ p. IfSome p.1 (λ b. length b.now < length text.now)) }
{
    let (member, behind) = split_first(text);
    Some((read_update(member)?, behind))
}

/// The group that a text has the members of. It is `None` too where these are fewer than two or more
/// than eight.
pub(crate) fn read_members(text: &[u8]) -> Option<Group>
    ensures some { IfSome result (λ calls. MembersFit calls × (text.now ≡ members_line calls)) }
    ensures none { IfNone result ((calls : List Single) → MembersFit calls
        → text.now ≢ members_line calls) }
{
    let mut calls = [Single::Deq; MAX_MEMBERS];
    let mut len = 0;
    let mut rest = Some(text);
    while let Some(members) = rest {
        let (call, behind) = read_first(members)?;
        if len == MAX_MEMBERS {
            return None;
        }
        calls[len] = call;
        len += 1;
        rest = behind;
    }
    Group::of(&calls[..len])
}
