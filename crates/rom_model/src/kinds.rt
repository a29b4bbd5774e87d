//! Updates and replies of one structure, beside those of groups.
ghost use Rattle.std.specs.Prelude.{◌≡◌};
ghost use Rattle.rom_model.specs.Singles.{call_of, kind_of, reply_of, reply_kind};

use crate::call::{Call, Kind, Reply, Single, SingleReply};
use crate::group::{Group, Replies};

impl Call {
    /// The update that does this alone.
    pub fn plain(single: Single) -> Call
        ensures { result ≡ call_of single }
    {
        match single {
            Single::Enq(v) => Call::Enq(v),
            Single::Deq => Call::Deq,
            Single::Add(k) => Call::Add(k),
            Single::Rem(k) => Call::Rem(k),
            Single::Put(k, v) => Call::Put(k, v),
            Single::Del(k) => Call::Del(k),
            Single::Move(from, to, amount) => Call::Move(from, to, amount),
        }
    }

    /// What it does alone, or its members.
    pub fn kind(&self) -> Kind<Single, Group>
        ensures { result ≡ kind_of self.now }
    {
        match *self {
            Call::Enq(v) => Kind::Single(Single::Enq(v)),
            Call::Deq => Kind::Single(Single::Deq),
            Call::Add(k) => Kind::Single(Single::Add(k)),
            Call::Rem(k) => Kind::Single(Single::Rem(k)),
            Call::Put(k, v) => Kind::Single(Single::Put(k, v)),
            Call::Del(k) => Kind::Single(Single::Del(k)),
            Call::Move(from, to, amount) => Kind::Single(Single::Move(from, to, amount)),
            Call::Group(group) => Kind::Several(group),
        }
    }
}

impl Reply {
    /// The reply to an update that is done alone.
    pub fn plain(reply: SingleReply) -> Reply
        ensures { result ≡ reply_of reply }
    {
        match reply {
            SingleReply::Queued => Reply::Queued,
            SingleReply::Full => Reply::Full,
            SingleReply::Head(v) => Reply::Head(v),
            SingleReply::Empty => Reply::Empty,
            SingleReply::Added => Reply::Added,
            SingleReply::Present => Reply::Present,
            SingleReply::Removed => Reply::Removed,
            SingleReply::Absent => Reply::Absent,
            SingleReply::NoPrior => Reply::NoPrior,
            SingleReply::Was(v) => Reply::Was(v),
            SingleReply::Moved => Reply::Moved,
            SingleReply::Short(v) => Reply::Short(v),
            SingleReply::Over => Reply::Over,
        }
    }

    /// The reply to an update of one structure, or those to the members of a group.
    pub fn kind(&self) -> Kind<SingleReply, Replies>
        ensures { result ≡ reply_kind self.now }
    {
        match *self {
            Reply::Queued => Kind::Single(SingleReply::Queued),
            Reply::Full => Kind::Single(SingleReply::Full),
            Reply::Head(v) => Kind::Single(SingleReply::Head(v)),
            Reply::Empty => Kind::Single(SingleReply::Empty),
            Reply::Added => Kind::Single(SingleReply::Added),
            Reply::Present => Kind::Single(SingleReply::Present),
            Reply::Removed => Kind::Single(SingleReply::Removed),
            Reply::Absent => Kind::Single(SingleReply::Absent),
            Reply::NoPrior => Kind::Single(SingleReply::NoPrior),
            Reply::Was(v) => Kind::Single(SingleReply::Was(v)),
            Reply::Moved => Kind::Single(SingleReply::Moved),
            Reply::Short(v) => Kind::Single(SingleReply::Short(v)),
            Reply::Over => Kind::Single(SingleReply::Over),
            Reply::All(replies) => Kind::Several(replies),
        }
    }
}
