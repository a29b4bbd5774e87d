//! A number that a monitor watches.
ghost use Rattle.std.specs.Prelude.{◌≡◌, ◌*◌, ◌/◌, ◌^◌, ◌<◌, ◌≤◌};
ghost use Rattle.rom_carry.specs.Gauges.{gauge_text};
ghost use Rattle.rom_text.specs.Streams.{Prints};

use itoa::Buffer;
use rom_text::{IoFailed, Sink, print_pieces};

/// Prints a gauge of this name and value in the text format of Prometheus: its type, and then the value. The name
/// gets `romulus_` in front.
pub fn print_gauge<K: Sink>(out: &mut K, name: &str, value: u128) -> Result<(), IoFailed>
    ensures prints { Prints K.shown out.old out.new result (gauge_text name.now value) }
{
    let mut of_value = Buffer::new();
    let value = of_value.format(value);
    print_pieces(
        out,
        &[
            "# TYPE romulus_",
            name,
            " gauge\nromulus_",
            name,
            " ",
            value,
            "\n",
        ],
    )
}

/// How much of the room is free, in per cent, rounded down.
pub fn percent_of(free: u64, room: u64) -> u64
    requires some { 0 < room }
    requires small { free ≤ 2 ^ 32 }
    ensures { result ≡ free * 100 / room }
{
    free * 100 / room
}
