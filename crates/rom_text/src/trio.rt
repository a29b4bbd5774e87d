//! The texts of what a queue, a set and a map tell. They stand here since an `impl` stands with its
//! trait or with its type.
ghost use Rattle.std.specs.Prelude.{OnOk};
ghost use Rattle.std.specs.List.{AllByRecursion, flat_map};
ghost use Rattle.rom_text.specs.Streams.{Prints};
ghost use Rattle.rom_text.specs.Trio.{SingleFits, all_text, next_text, shown_answer, shown_reply, shown_single};

use crate::print::{print_between, print_pieces, print_text};
use crate::printing::Print;
use crate::streams::{IoFailed, Sink};
use itoa::Buffer;
use rom_model::{Answer, Kind, Reply, SingleReply};

impl Print for SingleReply {
    ghost shown = { shown_single };

    fn print<O: Sink>(&self, out: &mut O) -> Result<(), IoFailed> {
        match self {
            SingleReply::Queued => print_text(out, "queued"),
            SingleReply::Full => print_text(out, "full"),
            SingleReply::Head(v) => print_between(out, "head ", *v, ""),
            SingleReply::Empty => print_text(out, "empty"),
            SingleReply::Added => print_text(out, "added"),
            SingleReply::Present => print_text(out, "present"),
            SingleReply::Removed => print_text(out, "removed"),
            SingleReply::Absent => print_text(out, "absent"),
            SingleReply::NoPrior => print_text(out, "none"),
            SingleReply::Was(v) => print_between(out, "was ", *v, ""),
            SingleReply::Moved => print_text(out, "moved"),
            SingleReply::Short(v) => print_between(out, "short ", *v, ""),
            SingleReply::Over => print_text(out, "over"),
        }
    }
}

impl Print for Reply {
    ghost shown = { shown_reply };

    fn print<O: Sink>(&self, out: &mut O) -> Result<(), IoFailed> {
        match self.kind() {
            Kind::Single(reply) => reply.print(out),
            Kind::Several(replies) => print_all(out, replies.as_slice()),
        }
    }
}

/// Prints a reply behind others.
fn print_next<O: Sink>(out: &mut O, reply: &SingleReply) -> Result<(), IoFailed>
    ensures prints { Prints O.shown out.old out.new result (next_text reply.now) }
    ensures fits { OnOk result (SingleFits reply.now) }
{
    print_text(out, " ; ")?;
    reply.print(out)
}

/// Prints replies behind others.
fn print_listed<O: Sink>(out: &mut O, replies: &[SingleReply]) -> Result<(), IoFailed>
    ensures prints { Prints O.shown out.old out.new result (flat_map next_text replies.now) }
    ensures fits { OnOk result (AllByRecursion SingleFits replies.now) }
{
    for reply in replies {
        print_next(out, reply)?;
    }
    Ok(())
}

/// Prints what the members of a group are told.
fn print_all<O: Sink>(out: &mut O, replies: &[SingleReply]) -> Result<(), IoFailed>
    ensures prints { Prints O.shown out.old out.new result (all_text replies.now) }
    ensures fits { OnOk result (AllByRecursion SingleFits replies.now) }
{
    let [first, more @ ..] = replies else {
        return print_text(out, "all");
    };
    print_text(out, "all ")?;
    first.print(out)?;
    print_listed(out, more)
}

impl Print for Answer {
    ghost shown = { shown_answer };

    fn print<O: Sink>(&self, out: &mut O) -> Result<(), IoFailed> {
        match self {
            Answer::Yes => print_text(out, "yes"),
            Answer::No => print_text(out, "no"),
            Answer::Value(v) => print_between(out, "value ", *v, ""),
            Answer::Missing => print_text(out, "none"),
            Answer::Head(v) => print_between(out, "head ", *v, ""),
            Answer::Empty => print_text(out, "empty"),
            Answer::Sizes { queue, set, map } => {
                let mut of_queue = Buffer::new();
                let mut of_set = Buffer::new();
                let mut of_map = Buffer::new();
                let queue = of_queue.format(*queue);
                let set = of_set.format(*set);
                let map = of_map.format(*map);
                print_pieces(out, &["queue ", queue, " set ", set, " map ", map])
            }
            Answer::Total(t) => print_pieces(out, &["total ", Buffer::new().format(*t)]),
            Answer::Fresh(c) => print_between(out, "fresh ", *c, ""),
        }
    }
}
