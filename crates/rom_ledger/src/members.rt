//! Which updates of a ledger may stand in a guarded group.
ghost use Rattle.rom_ledger.specs.Ledger.{members};
ghost use Rattle.rom_ledger.specs.Laws.{enough, member_back, member_four, member_only, no_zero_call, no_zero_reply, raised, told_back, told_only, told_two};

use crate::call::{LedgerSingle, LedgerTold};
use crate::codes::{push_member, push_told, read_member, read_told};
use crate::conditional::update_conditional;
use crate::ledger::Ledger;
use rom_guard::{Group, Guarded, Members};
use rom_heap::update_single;
use rom_model::{Args, Back, Single, SingleReply, Space};

/// All updates of one structure, as members of guarded groups.
#[derive(Clone, Copy, Debug)]
pub struct LedgerMembers;

/// A ledger with guarded groups. Each of eight members stores 31 words at most.
pub type GuardedLedger = Guarded<Ledger, LedgerMembers, 248>;

/// The members of a guarded group of a ledger.
pub type LedgerGroup = Group<Ledger, LedgerMembers, 248>;

impl Members<Ledger, 248> for LedgerMembers {
    type Member = LedgerSingle;

    type Told = LedgerTold;

    ghost shown = { members };

    fn update<M: Space>(
        space: &mut M,
        order: u32,
        member: &LedgerSingle,
        stamp: u64,
    ) -> LedgerTold {
        match member {
            LedgerSingle::Heap(own) => LedgerTold::Heap(update_single(space, order, own, stamp)),
            LedgerSingle::Conditional(own) => update_conditional(space, order, own, stamp),
        }
    }

    fn succeeds(member: &LedgerSingle, told: &LedgerTold) -> bool {
        let LedgerTold::Heap(reply) = told else {
            return false;
        };
        match reply {
            SingleReply::Queued
            | SingleReply::Head(_)
            | SingleReply::Added
            | SingleReply::Removed
            | SingleReply::Was(_)
            | SingleReply::Moved => true,
            // A key that was put had no value; one that was to go has none.
            SingleReply::NoPrior => !matches!(member, LedgerSingle::Heap(Single::Del(_))),
            SingleReply::Full
            | SingleReply::Empty
            | SingleReply::Present
            | SingleReply::Absent
            | SingleReply::Short(_)
            | SingleReply::Over => false,
        }
    }

    fn push_member(member: &LedgerSingle, words: &mut Args) {
        push_member(member, words);
    }

    fn read_member(words: &[u64]) -> Option<LedgerSingle> {
        read_member(words)
    }

    fn push_told(told: &LedgerTold, words: &mut Back) {
        push_told(told, words);
    }

    fn read_told(words: &[u64]) -> Option<LedgerTold> {
        read_told(words)
    }

    ghost enough = { enough };

    ghost raised = { raised };

    ghost member_four = { member_four };

    ghost member_back = { member_back };

    ghost member_only = { member_only };

    ghost told_two = { told_two };

    ghost told_back = { told_back };

    ghost told_only = { told_only };

    ghost no_zero_call = { no_zero_call };

    ghost no_zero_reply = { no_zero_reply };
}
