//! The texts of lines and of what they are told, as the program's manual has them.

use rom_model::{Answer, Call, Group, Kind, Query, Reply, Single, SingleReply, Step};
use std::alloc::{AllocError, Global};

/// The first three numbers of these words. One that is not there is 0.
fn numbers_of(words: &str) -> [u64; 3] {
    let mut numbers = [0; 3];
    for (place, digits) in numbers.iter_mut().zip(words.split(' ')) {
        *place = digits.parse::<u64>().unwrap_or(0);
    }
    numbers
}

/// The update of one structure that a well-formed command asks for, or `None` where it is another.
fn single_of(command: &str) -> Option<Single> {
    let (name, words) = command.split_once(" ").unwrap_or((command, ""));
    let [first, second, third] = numbers_of(words);
    match name {
        "enq" => Some(Single::Enq(first)),
        "deq" => Some(Single::Deq),
        "add" => Some(Single::Add(first)),
        "rem" => Some(Single::Rem(first)),
        "put" => Some(Single::Put(first, second)),
        "del" => Some(Single::Del(first)),
        "move" => Some(Single::Move(first, second, third)),
        _ => None,
    }
}

/// The query that a well-formed command asks for, or `None` where it is another.
fn query_of(command: &str) -> Option<Query> {
    let (name, words) = command.split_once(" ").unwrap_or((command, ""));
    let [first, _, _] = numbers_of(words);
    match name {
        "has" => Some(Query::Has(first)),
        "get" => Some(Query::Get(first)),
        "peek" => Some(Query::Peek),
        "len" => Some(Query::Len),
        "total" => Some(Query::Total),
        "fresh" => Some(Query::Fresh(first)),
        _ => None,
    }
}

/// The group whose members these commands ask for, or `None` where one is no update, or they are too
/// few or too many.
fn group_of(commands: &str) -> Option<Group> {
    let mut members = [Single::Deq; 8];
    let mut many = 0usize;
    for command in commands.split(" ; ") {
        *members.get_mut(many)? = single_of(command)?;
        many = many.saturating_add(1);
    }
    Group::of(members.get(..many)?)
}

/// What a line that is well formed, or names no command, asks for.
pub fn step_of(line: &str) -> Step<Call, Query> {
    let update = match line.split_once("tx ") {
        Some(("", commands)) => group_of(commands).map(Call::Group),
        _ => single_of(line).map(Call::plain),
    };
    if let Some(call) = update {
        return Step::Update(call);
    }
    match query_of(line) {
        Some(query) => Step::Ask(query),
        None => Step::Unread,
    }
}

/// What is printed of a reply to an update of one structure, without its place.
fn single_reply_text(alloc: Global, reply: &SingleReply) -> Result<String, AllocError> {
    match reply {
        SingleReply::Queued => format!(in alloc; "queued"),
        SingleReply::Full => format!(in alloc; "full"),
        SingleReply::Head(number) => format!(in alloc; "head {number}"),
        SingleReply::Empty => format!(in alloc; "empty"),
        SingleReply::Added => format!(in alloc; "added"),
        SingleReply::Present => format!(in alloc; "present"),
        SingleReply::Removed => format!(in alloc; "removed"),
        SingleReply::Absent => format!(in alloc; "absent"),
        SingleReply::NoPrior => format!(in alloc; "none"),
        SingleReply::Was(value) => format!(in alloc; "was {value}"),
        SingleReply::Moved => format!(in alloc; "moved"),
        SingleReply::Short(value) => format!(in alloc; "short {value}"),
        SingleReply::Over => format!(in alloc; "over"),
    }
}

/// What is printed of the replies to a group's members, without their place.
fn replies_text(alloc: Global, replies: &[SingleReply]) -> Result<String, AllocError> {
    let mut text = String::new(alloc);
    for reply in replies {
        let before = if text.is_empty() { "all" } else { " ;" };
        let own = single_reply_text(alloc, reply)?;
        text.push_str(format!(in alloc; "{before} {own}")?.as_str())?;
    }
    Ok(text)
}

/// What is printed of a reply at its place.
pub fn reply_text(alloc: Global, reply: &Reply, place: u64) -> Result<String, AllocError> {
    let text = match reply.kind() {
        Kind::Single(single) => single_reply_text(alloc, &single)?,
        Kind::Several(replies) => replies_text(alloc, replies.as_slice())?,
    };
    format!(in alloc; "{text} @{place}")
}

/// What is printed of an answer at its front.
pub fn answer_text(alloc: Global, answer: &Answer, front: u64) -> Result<String, AllocError> {
    match answer {
        Answer::Yes => format!(in alloc; "yes #{front}"),
        Answer::No => format!(in alloc; "no #{front}"),
        Answer::Value(value) => format!(in alloc; "value {value} #{front}"),
        Answer::Missing => format!(in alloc; "none #{front}"),
        Answer::Head(number) => format!(in alloc; "head {number} #{front}"),
        Answer::Empty => format!(in alloc; "empty #{front}"),
        Answer::Sizes { queue, set, map } => {
            format!(in alloc; "queue {queue} set {set} map {map} #{front}")
        }
        Answer::Total(sum) => format!(in alloc; "total {sum} #{front}"),
        Answer::Fresh(keys) => format!(in alloc; "fresh {keys} #{front}"),
    }
}
