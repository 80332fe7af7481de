// One lane as the table stores it.
ghost use Rattle.std.specs.Prelude.{◌≤◌, length};
ghost use Rattle.queue.specs.Queues.{held};

use queue::Queue;

mod holding;

// The bytes that wait on the lane, and how many were ever sent on it.
#[derive(Clone, Copy)]
pub struct Slot {
    queue: Queue<u8>,
    sent: u16,
    ghost within: { length (held queue) ≤ sent },
    ghost most: { sent ≤ 65535 },
}
