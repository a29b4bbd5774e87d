//! What is told of a region that is not well-formed, or is of another kind.
ghost use Rattle.std.specs.Prelude.{◌≡◌, ◌++◌, IfSome, IsNone, codes, decimal};
ghost use Rattle.rom_text.specs.Runs.{IsLineWrittenOrCutShort};
ghost use Rattle.rom_run.specs.Refusing.{another_kind_line, broken_line, refusal_line};
ghost use Rattle.rom_run.specs.Refusing as refusing;
ghost use Rattle.rom_open.specs.declared.reasons.Why.TheVariants.{Malformed};

use crate::telling::tell;
use itoa::Buffer;
use rom_model::Rule;
use rom_text::Sink;

fn rule_name(rule: Rule) -> &'static str
    ensures { result.now ≡ refusing.rule_name rule }
{
    match rule {
        Rule::Root => "root",
        Rule::Link => "link",
        Rule::Pad => "pad",
        Rule::Ends => "ends",
        Rule::Count => "count",
        Rule::Order => "order",
        Rule::Bucket => "bucket",
        Rule::Repeat => "repeat",
        Rule::Tree => "tree",
        Rule::Stamp => "stamp",
    }
}

/// The name of a kind of heap, if it has one. A line names any other by its number.
pub fn kind_name(kind: u64) -> Option<&'static str>
    ensures named { IfSome result (λ name. name.now ≡ refusing.kind_name kind) }
    ensures unnamed { IsNone result → refusing.kind_name kind ≡ codes "kind " ++ decimal kind }
{
    match kind {
        1 => Some("a queue, a set and a map"),
        2 => Some("keys with bytes"),
        3 => Some("an ordered index"),
        _ => None,
    }
}

fn tell_another_kind<O: Sink>(out: &mut O, found: u64)
    ensures told { IsLineWrittenOrCutShort O.shown out.old out.new (another_kind_line found) }
    ensures rest { O.shown.rest out.new ≡ O.shown.rest out.old }
{
    match kind_name(found) {
        Some(name) => tell(out, &["refused: another kind, ", name]),
        None => {
            let mut of_found = Buffer::new();
            let found = of_found.format(found);
            tell(out, &["refused: another kind, ", "kind ", found]);
        }
    }
}

fn tell_broken<O: Sink>(out: &mut O, offset: u64, rule: Rule)
    ensures told { IsLineWrittenOrCutShort O.shown out.old out.new (broken_line offset rule) }
    ensures rest { O.shown.rest out.new ≡ O.shown.rest out.old }
{
    let mut of_offset = Buffer::new();
    let offset = of_offset.format(offset);
    tell(
        out,
        &["refused: malformed at ", offset, ", rule ", rule_name(rule)],
    );
}

/// Whether an object of this kind tells that the heap is of another. One of kind 1 does not: its lines stay.
fn is_of_another_kind(kind: u64, offset: u64, rule: Rule) -> bool
    ensures { result ≡ refusing.is_of_another_kind kind offset rule }
{
    match rule {
        Rule::Root => offset == 0 && kind != 1,
        Rule::Link
        | Rule::Pad
        | Rule::Ends
        | Rule::Count
        | Rule::Order
        | Rule::Bucket
        | Rule::Repeat
        | Rule::Tree
        | Rule::Stamp => false,
    }
}

/// Names the word and the rule that it breaks; or the kind of the heap, where that is another.
pub(crate) fn tell_malformed<O: Sink>(out: &mut O, kind: u64, offset: u64, rule: Rule, found: u64)
    ensures told { IsLineWrittenOrCutShort O.shown out.old out.new
        (refusal_line kind (Malformed offset rule found)) }
    ensures rest { O.shown.rest out.new ≡ O.shown.rest out.old }
{
    if is_of_another_kind(kind, offset, rule) {
        tell_another_kind(out, found);
    } else {
        tell_broken(out, offset, rule);
    }
}
