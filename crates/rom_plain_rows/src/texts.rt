//! The texts of lines and of what they are told, as the formats have them.

use rom_model::Step;
use rom_order::{OrderAnswer, OrderCall, OrderQuery, OrderReply};
use std::alloc::{AllocError, Global};

/// The first two numbers of these words. One that is not there is 0.
fn numbers_of(words: &str) -> [u64; 2] {
    let mut numbers = [0; 2];
    for (place, digits) in numbers.iter_mut().zip(words.split(' ')) {
        *place = digits.parse::<u64>().unwrap_or(0);
    }
    numbers
}

/// What a line that is well formed, or names no command, asks for.
pub fn step_of(line: &str) -> Step<OrderCall, OrderQuery> {
    let (name, words) = line.split_once(" ").unwrap_or((line, ""));
    let [first, second] = numbers_of(words);
    match name {
        "put" => Step::Update(OrderCall::Put(first, second)),
        "del" => Step::Update(OrderCall::Del(first)),
        "get" => Step::Ask(OrderQuery::Get(first)),
        "from" => Step::Ask(OrderQuery::From(first)),
        "range" => Step::Ask(OrderQuery::Range(first, second)),
        _ => Step::Unread,
    }
}

/// What is printed of an update that was told this at that place.
pub fn reply_text(alloc: Global, reply: &OrderReply, place: u64) -> Result<String, AllocError> {
    match reply {
        OrderReply::Was(value) => format!(in alloc; "was {value} @{place}"),
        OrderReply::NoPrior => format!(in alloc; "none @{place}"),
        OrderReply::Full => format!(in alloc; "full @{place}"),
    }
}

/// What is printed of a query that was told this at that front.
pub fn answer_text(alloc: Global, answer: &OrderAnswer, front: u64) -> Result<String, AllocError> {
    match answer {
        OrderAnswer::Value(value) => format!(in alloc; "value {value} #{front}"),
        OrderAnswer::Missing => format!(in alloc; "none #{front}"),
        OrderAnswer::Pair(key, value) => format!(in alloc; "pair {key} {value} #{front}"),
        OrderAnswer::Range { count, sum } => format!(in alloc; "range {count} sum {sum} #{front}"),
    }
}
