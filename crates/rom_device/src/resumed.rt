//! Words in memory that an earlier program left, some of them in doubt.
ghost use Rattle.std.specs.Prelude.{◌≡◌};

use crate::device::{Device, Failed};
use crate::kept::put_older;
use crate::memory::Memory;

/// Words in memory as an earlier program left them: they read as it wrote them last, and a stop may leave
/// an older word at each place where that is another. No sync makes such a word certain until it was
/// written here. Calls are listed, and fail, as those of the memory within.
#[derive(Drop)]
pub struct Resumed {
    memory: Memory,
    older: Vec<u64>,
}

impl Resumed {
    ghost use Rattle.rom_device.specs.Resumed.{memory_of, older_of, shown_by_resumed};

    /// The words of this memory, with older ones. A missing older word is 0.
    pub fn new(memory: Memory, older: Vec<u64>) -> Resumed
        ensures memory { memory_of result ≡ memory }
        ensures older { older_of result ≡ older.items }
    {
        Resumed { memory, older }
    }

    /// What a stop now may leave: the image of the memory by this choice (`Memory::crash`), with the older
    /// word at each place where a stop may leave one and `old` says so. A missing word of `old` is false.
    pub fn crash(self, choice: &[u64], old: &[bool]) -> Vec<u64>
        ensures { shown_by_resumed.leaves self result.items }
    {
        let Resumed { memory, older } = self;
        let (mut words, start, made) = memory.crashed(choice);
        put_older(&mut words, &older, &start, &made, old);
        words
    }
}

impl Device for Resumed {
    ghost use Rattle.rom_device.specs.Doubt.{untold};
    ghost use Rattle.rom_device.specs.Images.{length-words_after};
    ghost use Rattle.rom_device.specs.Memory.{start_of};
    ghost use Rattle.rom_device.specs.Resumed.{log_of, shown_by_resumed};
    ghost use Rattle.rom_device.specs.Resuming.{resumed_told};

    ghost shown = { shown_by_resumed };

    fn len(&self) -> u64 {
        self.memory.len()
    }

    fn fault_count(&self) -> u64 {
        self.memory.fault_count()
    }

    fn read(&mut self, at: u64) -> Result<u64, Failed> {
        self.memory.read(at)
    }

    fn write(&mut self, at: u64, value: u64) -> Result<(), Failed> {
        self.memory.write(at, value)
    }

    fn sync(&mut self) -> Result<(), Failed> {
        self.memory.sync()
    }

    ghost tells_both = { λ never. untold never };

    ghost reads_image = { λ _ never. untold never };

    ghost words_fit = { λ r _. length-words_after (start_of r.memory) (log_of r) };

    ghost images_fit = { λ _ _ never _. untold never };

    ghost counts_now = { λ _ _ _ never _ _. untold never };

    ghost only_now = { λ _ _ never _. untold never };

    ghost doubts_told = { λ _. resumed_told };

    ghost size_fits = { λ r. r.memory.small };

    ghost counts_fit = { λ r. r.memory.counts_fit };
}
