//! What a drill tells of its results: five lines.
ghost use Rattle.std.specs.Prelude.{◌≡◌, ◌-◌, ◌*◌, ◌^◌, ◌<◌, ◌≤◌, ◌++◌, All, decimal, codes, length, map};
ghost use Rattle.std.specs.List.{flat_map};
ghost use Rattle.rom_script.specs.Drill.{drill_lines};
ghost use Rattle.rom_script.specs.Drill as summed;
ghost use Rattle.rom_lines.specs.Replies.{SaysResult};
ghost use Rattle.rom_lines.specs.Steps.{IsLine};
ghost use Rattle.rom_model.specs.Codes.{words_call, words_reply};
ghost use Rattle.rom_model.specs.declared.call.Call.{Call};
ghost use Rattle.rom_model.specs.declared.call.Reply.{Reply};
ghost use Rattle.rom_model.specs.declared.line.LineResult.{LineResult};
ghost use Rattle.rom_model.specs.declared.line.Step.{Step};
ghost use Rattle.rom_text.specs.Streams.{Prints};
ghost use Rattle.rom_text.specs.Text.{line_text};
ghost use Rattle.rom_script.specs.Trio.{answer_text};

use itoa::Buffer;
use rom_heap::Trio;
use rom_lines::{Line, Results, Script, Told};
use rom_model::{Answer, Query, Single, SingleReply, first_single, single_reply};
use rom_text::{IoFailed, Print, Report, Sink, print_gathered, print_pieces, print_text};

/// What a line has put into the queue. In a drill it is never a group's. No `Call` and no `Reply` is made of
/// its words, since each is as wide as a group.
fn enqueued_by(line: Line<'_, Query>, told: Told<'_, Answer>) -> u64
    // Whatever the line asks for and was told, by these words.
    ensures { (asks : Step Call Query) (became : LineResult Reply Answer) →
        IsLine words_call asks line.entry → SaysResult words_reply became told.entry →
        result ≡ summed.enqueued_by asks became }
{
    let Line::Update(call) = line else {
        return 0;
    };
    let Told::Done(reply, _) = told else {
        return 0;
    };
    let Some(Single::Enq(v)) = first_single(call) else {
        return 0;
    };
    match single_reply(reply) {
        Some(SingleReply::Queued) => v,
        _ => 0,
    }
}

/// What a line has taken out of it.
fn dequeued_by(told: Told<'_, Answer>) -> u64
    ensures { (became : LineResult Reply Answer) → SaysResult words_reply became told.entry →
        result ≡ summed.dequeued_by became }
{
    let Told::Done(reply, _) = told else {
        return 0;
    };
    match single_reply(reply) {
        Some(SingleReply::Head(v)) => v,
        _ => 0,
    }
}

/// The sum of what a caller's lines have put into the queue.
fn enqueued_of(script: &Script<Trio>, results: &Results<Trio>) -> u128
    requires few { length script.now.items ≤ 2 ^ 32 }
    ensures sum { result ≡ summed.enqueued_of script.now.items results.now.items }
    ensures within { result ≤ 2 ^ 32 * (2 ^ 64 - 1) }
{
    let mut sum = 0;
    for i in 0..script.len().min(results.len()) {
        sum += u128::from(enqueued_by(script.line(i), results.at(i)));
    }
    sum
}

/// The sum of what they have taken out of it.
fn dequeued_of(results: &Results<Trio>) -> u128
    requires few { length results.now.items ≤ 2 ^ 32 }
    ensures sum { result ≡ summed.dequeued_of results.now.items }
    ensures within { result ≤ 2 ^ 32 * (2 ^ 64 - 1) }
{
    let mut sum = 0;
    for i in 0..results.len() {
        sum += u128::from(dequeued_by(results.at(i)));
    }
    sum
}

/// The sum of the values that were queued.
pub fn sum_enqueued(scripts: &[Script<Trio>], results: &[Results<Trio>]) -> u128
    requires callers { length scripts.now ≤ 16 }
    requires few { All (λ v. length v.items ≤ 2 ^ 32) scripts.now }
    ensures sum { result
        ≡ summed.enqueued (map (λ v. v.items) scripts.now) (map (λ v. v.items) results.now) }
{
    let mut sum = 0;
    for (script, own) in scripts.iter().zip(results) {
        sum += enqueued_of(script, own);
    }
    sum
}

/// The sum of the values of heads that updates took.
pub fn sum_dequeued(results: &[Results<Trio>]) -> u128
    requires callers { length results.now ≤ 16 }
    requires few { All (λ v. length v.items ≤ 2 ^ 32) results.now }
    ensures sum { result ≡ summed.dequeued (map (λ v. v.items) results.now) }
{
    let mut sum = 0;
    for own in results {
        sum += dequeued_of(own);
    }
    sum
}

/// What is printed of a drill.
#[derive(Clone, Copy)]
pub struct Summary {
    pub start: u64,
    pub callers: u64,
    pub calls: u64,
    /// The sum of the values that were queued.
    pub enqueued: u128,
    /// The sum of the values of heads that updates took.
    pub dequeued: u128,
    /// What `len` is told at closing.
    pub sizes: Answer,
    /// What `total` is told at closing.
    pub total: Answer,
    /// The count at closing.
    pub count: u64,
}

/// Prints what was asked, and the sums.
fn print_sums<O: Sink>(out: &mut O, told: &Summary) -> Result<(), IoFailed>
    ensures prints { Prints O.shown out.old out.new result
        (line_text (codes "drill " ++ decimal told.now.start ++ codes " callers "
        ++ decimal told.now.callers ++ codes " calls " ++ decimal told.now.calls)
        ++ line_text (codes "enqueued " ++ decimal told.now.enqueued
        ++ codes " dequeued " ++ decimal told.now.dequeued)) }
{
    let mut of_start = Buffer::new();
    let mut of_callers = Buffer::new();
    let mut of_calls = Buffer::new();
    let mut of_enqueued = Buffer::new();
    let mut of_dequeued = Buffer::new();
    let start = of_start.format(told.start);
    let callers = of_callers.format(told.callers);
    let calls = of_calls.format(told.calls);
    let enqueued = of_enqueued.format(told.enqueued);
    let dequeued = of_dequeued.format(told.dequeued);
    print_pieces(
        out,
        &[
            "drill ",
            start,
            " callers ",
            callers,
            " calls ",
            calls,
            "\n",
        ],
    )?;
    print_pieces(out, &["enqueued ", enqueued, " dequeued ", dequeued, "\n"])
}

/// Prints the line of an answer.
fn print_answer_line<O: Sink>(out: &mut O, answer: &Answer) -> Result<(), IoFailed>
    ensures prints { Prints O.shown out.old out.new result (line_text (answer_text answer.now)) }
{
    answer.print(out)?;
    print_text(out, "\n")
}

/// Prints what is told at closing.
fn print_closing<O: Sink>(out: &mut O, told: &Summary) -> Result<(), IoFailed>
    ensures prints { Prints O.shown out.old out.new result
        (line_text (answer_text told.now.sizes) ++ line_text (answer_text told.now.total)
        ++ line_text (codes "count " ++ decimal told.now.count)) }
{
    print_answer_line(out, &told.sizes)?;
    print_answer_line(out, &told.total)?;
    print_pieces(out, &["count ", Buffer::new().format(told.count), "\n"])
}

/// Prints the five lines, piece by piece.
fn print_lines<O: Sink>(out: &mut O, told: &Summary) -> Result<(), IoFailed>
    ensures prints { Prints O.shown out.old out.new result
        (drill_lines told.now.start told.now.callers told.now.calls
        told.now.enqueued told.now.dequeued
        told.now.sizes told.now.total told.now.count) }
{
    print_sums(out, told)?;
    print_closing(out, told)
}

impl Report for Summary {
    ghost use Rattle.rom_script.specs.Summaries.{shown_summary};

    ghost shown = { shown_summary };

    fn print<O: Sink>(&self, out: &mut O) -> Result<(), IoFailed> {
        print_lines(out, self)
    }
}

/// Prints the five lines of a drill. They leave in one block, and nothing of them waits after the
/// call. It takes no memory. After `IoFailed` the sink has taken some of them, from the front.
pub fn print_drill<O: Sink>(out: &mut O, told: &Summary) -> Result<(), IoFailed>
    // The five lines are printed; after an error, some of their bytes, from the front.
    ensures prints { Prints O.shown out.old out.new result
        (drill_lines told.now.start told.now.callers told.now.calls
        told.now.enqueued told.now.dequeued
        told.now.sizes told.now.total told.now.count) }
{
    print_gathered(out, told)
}
