//! The texts of what calls and queries are told.
ghost use Rattle.rom_order_region.specs.Texts.{shown_index_answer, shown_index_reply};

use crate::call::{OrderAnswer, OrderReply};
use itoa::Buffer;
use rom_text::{IoFailed, Print, Sink, print_pieces, print_text};

impl Print for OrderReply {
    ghost shown = { shown_index_reply };

    fn print<O: Sink>(&self, out: &mut O) -> Result<(), IoFailed> {
        match self {
            OrderReply::Was(v) => print_pieces(out, &["was ", Buffer::new().format(*v)]),
            OrderReply::NoPrior => print_text(out, "none"),
            OrderReply::Full => print_text(out, "full"),
        }
    }
}

impl Print for OrderAnswer {
    ghost shown = { shown_index_answer };

    fn print<O: Sink>(&self, out: &mut O) -> Result<(), IoFailed> {
        let mut first = Buffer::new();
        let mut second = Buffer::new();
        match self {
            OrderAnswer::Value(v) => print_pieces(out, &["value ", first.format(*v)]),
            OrderAnswer::Missing => print_text(out, "none"),
            OrderAnswer::Pair(k, v) => {
                let key = first.format(*k);
                let value = second.format(*v);
                print_pieces(out, &["pair ", key, " ", value])
            }
            OrderAnswer::Range { count, sum } => {
                let count = first.format(*count);
                let sum = second.format(*sum);
                print_pieces(out, &["range ", count, " sum ", sum])
            }
        }
    }
}
