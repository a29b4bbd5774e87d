//! How an element is written.
ghost use Rattle.std.specs.Prelude.{◌≡◌, ◌++◌, ◌≤◌, decimal, length};
ghost use Rattle.rom_rebuild.specs.Lines.{element_line};
ghost use Rattle.rom_text.specs.Streams.{Prints};

use crate::elements::Element;
use itoa::Buffer;
use rom_text::{IoFailed, Sink, print_pieces};

/// Prints what stands before an element, and the element.
pub fn print_element<O: Sink>(out: &mut O, before: &str, element: Element) -> Result<(), IoFailed>
    ensures prints { Prints O.shown out.old out.new result (before.now ++ element_line element) }
{
    let mut of_first = Buffer::new();
    let mut of_second = Buffer::new();
    match element {
        Element::Value(value) => print_pieces(out, &[before, "enq ", of_first.format(value)]),
        Element::Member(key) => print_pieces(out, &[before, "add ", of_first.format(key)]),
        Element::Pair(key, value) => {
            let key = of_first.format(key);
            let value = of_second.format(value);
            print_pieces(out, &[before, "put ", key, " ", value])
        }
    }
}

/// How many digits a number has.
fn digits(number: u64) -> u64
    ensures digits { result ≡ length (decimal number) }
    ensures most { result ≤ 20 }
{
    Buffer::new().format(number).len() as u64
}

/// How many bytes an element has, as it is written.
pub fn element_len(element: Element) -> u64
    ensures len { result ≡ length (element_line element) }
    ensures most { result ≤ 45 }
{
    match element {
        Element::Value(number) | Element::Member(number) => 4 + digits(number),
        Element::Pair(key, value) => 5 + digits(key) + digits(value),
    }
}
