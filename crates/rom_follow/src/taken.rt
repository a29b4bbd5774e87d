//! What a follower answers to a message.
ghost use Rattle.std.specs.Prelude.{◌≡◌, ◌≢◌};
ghost use Rattle.std.specs.Bool.{OnFalse, OnTrue};
ghost use Rattle.rom_model.specs.Codes as codes;
ghost use Rattle.rom_follow.specs.Answers.{IsFrameAnswer, parted_by, updates_done};

use rom_model::{Reply, Updated, reply_words};

/// Where two heaps parted: one update, with both replies that it was told.
#[derive(Clone, Copy, Debug, PartialEq, Eq)]
pub struct Divergence {
    /// The update's place in the history.
    pub place: u64,
    /// What the follower's heap told it.
    pub ours: Reply,
    /// What the frame says that it was told.
    pub theirs: Reply,
}

/// What became of a message.
#[derive(Clone, Copy, Debug, PartialEq, Eq)]
pub enum MessageTaken {
    /// The frame of this place was the next, and its update is done.
    Applied(u64),
    /// The update of this place was done before.
    Known(u64),
    /// The frame of this place must be sent again, once the update of the wanted place is done.
    Early {
        place: u64,
        want: u64,
    },
    /// The message is no frame.
    NotAFrame,
    /// The update of this place is done, but it was told another reply than the frame's. The heaps have
    /// parted for good, and this is the answer to each message from then on; a new opening of this heap
    /// does not know of it.
    Diverged {
        place: u64,
        ours: Reply,
        theirs: Reply,
    },
    /// The count of updates stands at its limit, or this follower has tried 2^62 of them; nothing was done.
    Spent,
    /// The device failed before the commit; nothing was done.
    Failed,
    /// The device failed at the commit. The update is not in the history, but a stop before the next
    /// repair may leave it done.
    Doubt,
}

/// Whether two replies are the same. Their words tell: equal words are equal replies, and a frame has words.
fn is_reply(ours: &Reply, theirs: &Reply) -> bool
    ensures same { OnTrue result (ours.now ≡ theirs.now) }
    ensures other { OnFalse result (codes.reply_words ours.now ≢ codes.reply_words theirs.now) }
{
    reply_words(ours).as_slice() == reply_words(theirs).as_slice()
}

impl MessageTaken {
    /// The answer to the frame of an update that this became of, and whose reply is theirs.
    pub(crate) fn of(told: Updated<Reply>, theirs: Reply) -> MessageTaken
        ensures answer { IsFrameAnswer theirs told result }
    {
        match told {
            Updated::Spent => MessageTaken::Spent,
            Updated::Failed => MessageTaken::Failed,
            Updated::Doubt => MessageTaken::Doubt,
            Updated::Done(ours, place) if is_reply(&ours, &theirs) => MessageTaken::Applied(place),
            Updated::Done(ours, place) => MessageTaken::Diverged {
                place,
                ours,
                theirs,
            },
        }
    }

    /// How many updates were done.
    pub(crate) fn done(&self) -> u64
        ensures { result ≡ updates_done self.now }
    {
        match self {
            MessageTaken::Applied(_) | MessageTaken::Diverged { .. } => 1,
            _ => 0,
        }
    }

    /// Where the heaps parted, if they did.
    pub(crate) fn parted(&self) -> Option<Divergence>
        ensures { result ≡ parted_by self.now }
    {
        match *self {
            MessageTaken::Diverged {
                place,
                ours,
                theirs,
            } => Some(Divergence {
                place,
                ours,
                theirs,
            }),
            _ => None,
        }
    }
}
