//! The word of the state, written and made certain.
ghost use Rattle.std.specs.Prelude.{◌≡◌, ◌<◌, OnOk, IsTrue, slice_set};
ghost use Rattle.rom_model.specs.Faults.{Adds};
ghost use Rattle.rom_device.specs.Device.{CountsCalls, Does, IsSynced, Makes, WritesWord};
ghost use Rattle.rom_header.specs.Headers.{state_word};
ghost use Rattle.rom_header.specs.Layout.{STATE};

use rom_device::{Device, Failed};
use rom_header::{STATE, State};

/// Writes the state. It is not certain before a sync.
pub fn write_state<D: Device>(device: &mut D, state: State) -> Result<(), Failed>
    requires { STATE < D.shown.size device.old }
    ensures written { IsTrue D.shown.tells_words →
        OnOk result (D.shown.words device.new
        ≡ slice_set (D.shown.words device.old) STATE (state_word state)) }
    ensures does { Does D.shown (WritesWord STATE (state_word state)) device.old device.new }
    ensures counts { CountsCalls D.shown 0 1 0 device.old device.new result }
{
    device.write(STATE, state.word())
}

/// Writes the state and makes it certain. After `Failed` the state is the old or the new one.
pub fn set_state<D: Device>(device: &mut D, state: State) -> Result<(), Failed>
    requires { STATE < D.shown.size device.old }
    ensures written { IsTrue D.shown.tells_words →
        OnOk result (D.shown.words device.new
        ≡ slice_set (D.shown.words device.old) STATE (state_word state)) }
    ensures certain { OnOk result (IsSynced D.shown device.new) }
    ensures does { Does D.shown (WritesWord STATE (state_word state)) device.old device.new }
    ensures writes { Adds 1 (D.shown.writes device.old) (D.shown.writes device.new) }
    ensures makes { Makes D.shown 0 1 1 device.old device.new result }
{
    write_state(device, state)?;
    device.sync()
}
