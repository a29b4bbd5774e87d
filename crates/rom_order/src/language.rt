//! What the lines of a script ask an ordered index for.
ghost use Rattle.std.specs.Prelude.{◌≡◌, ◌≢◌, IfSome, IfNone};
ghost use Rattle.rom_order_region.specs.declared.call.OrderCall.{OrderCall};
ghost use Rattle.rom_order_region.specs.declared.call.OrderQuery.{OrderQuery};
ghost use Rattle.rom_order.specs.Asking.{AsksIndex, index_call_phrase, index_query_phrase};
ghost use Rattle.rom_order.specs.Lines.{ReadsIndex};
ghost use Rattle.rom_order.specs.Longest.{long_unread};

use crate::index::Ordered;
use rom_model::Step;
use rom_order_region::{OrderCall, OrderQuery};
use rom_text::{Lines, ShortLines, read_phrase};

/// The call that a line with this first word and these numbers behind it asks for.
fn asked_call(name: &[u8], numbers: &[u64]) -> Option<OrderCall>
    ensures some { IfSome result (λ c. (name.now, numbers.now) ≡ index_call_phrase c) }
    ensures none { IfNone result ((c : OrderCall) → (name.now, numbers.now) ≢ index_call_phrase c) }
{
    match (name, numbers) {
        (b"put", [k, v]) => Some(OrderCall::Put(*k, *v)),
        (b"del", [k]) => Some(OrderCall::Del(*k)),
        _ => None,
    }
}

/// The query that such a line asks for.
fn asked_query(name: &[u8], numbers: &[u64]) -> Option<OrderQuery>
    ensures some { IfSome result (λ q. (name.now, numbers.now) ≡ index_query_phrase q) }
    ensures none { IfNone result ((q : OrderQuery) → (name.now, numbers.now) ≢ index_query_phrase q) }
{
    match (name, numbers) {
        (b"get", [k]) => Some(OrderQuery::Get(*k)),
        (b"from", [k]) => Some(OrderQuery::From(*k)),
        (b"range", [a, b]) => Some(OrderQuery::Range(*a, *b)),
        _ => None,
    }
}

/// What such a line asks for.
fn asked(name: &[u8], numbers: &[u64]) -> Step<OrderCall, OrderQuery>
    ensures { AsksIndex name.now numbers.now result }
{
    if let Some(call) = asked_call(name, numbers) {
        return Step::Update(call);
    }
    match asked_query(name, numbers) {
        Some(query) => Step::Ask(query),
        None => Step::Unread,
    }
}

/// The lines `put K V`, `del K`, `get K`, `from K` and `range A B`, where each capital is a number. One space
/// stands between two words.
pub struct OrderLines;

impl Lines<Ordered> for OrderLines {
    ghost Reads = { ReadsIndex };

    fn read_line(line: &[u8]) -> Step<OrderCall, OrderQuery> {
        match read_phrase(line) {
            Some(phrase) => asked(phrase.name, &phrase.numbers),
            None => Step::Unread,
        }
    }
}

impl ShortLines<Ordered> for OrderLines {
    ghost long_unread = { long_unread };
}
