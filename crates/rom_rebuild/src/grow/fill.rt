//! The queue and the set of a region that is filled.
ghost use Rattle.std.specs.Prelude.{◌≡◌, ◌++◌, ℕ, length};
ghost use Rattle.std.specs.FinSet as set;
ghost use Rattle.rom_model.specs.Blocks.{IsOrder};
ghost use Rattle.rom_model.specs.Region.{Contents};
ghost use Rattle.rom_model.specs.State.{State};
ghost use Rattle.rom_model.specs.VecSpace.{words_of_space};
ghost use Rattle.rom_queue.specs.Queue.{with_queue};
ghost use Rattle.rom_rebuild.specs.Filling.{HasRoomFor};
ghost use Rattle.rom_set.specs.Set.{with_members};

use rom_model::VecSpace;
use rom_queue::queue_push;
use rom_set::set_insert;

/// Puts values at the queue's end, in order.
pub fn push_values(space: &mut VecSpace, order: u32, values: &[u64])
    requires order { IsOrder order }
    requires room { HasRoomFor order (words_of_space space.old) (length values.now) }
    ensures pushed { (s : State) (k : ℕ) → Contents order (words_of_space space.old) s k
        → Contents order (words_of_space space.new) (with_queue s (s.queue ++ values.now)) k }
{
    for value in values {
        let _ = queue_push(space, order, *value);
    }
}

/// Puts numbers into a set that is empty, the last of them first.
pub fn insert_members(space: &mut VecSpace, order: u32, members: &[u64])
    requires order { IsOrder order }
    requires room { HasRoomFor order (words_of_space space.old) (length members.now) }
    ensures inserted { (s : State) (k : ℕ) → Contents order (words_of_space space.old) s k
        → s.members ≡ set.empty
        → Contents order (words_of_space space.new) (with_members s (set.from_list members.now)) k }
{
    let len = members.len();
    for done in 0..len {
        let _ = set_insert(space, order, members[len - 1 - done]);
    }
}
