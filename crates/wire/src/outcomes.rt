// What comes of a frame that is put, by its mark.
ghost use Rattle.std.specs.Prelude.{◌≡◌, ◌++◌, ◌≤◌, length};
ghost use Rattle.queue.specs.Queues.{held};
ghost use Rattle.wire.specs.Wires.{copies, cost};
ghost use Rattle.wire.specs.Marks.{outcome_of};

use marks::Mark;
use queue::Queue;

// The troubles that a mark is.
pub(crate) fn cost(mark: Mark) -> u32
    ensures { result ≡ cost (outcome_of mark) }
{
    match mark {
        Mark::Once => 0,
        Mark::Lost | Mark::Twice => 1,
    }
}

// The frame joins a lane as often as the mark says.
pub(crate) fn join(mark: Mark, queue: &mut Queue<u16>, frame: u16)
    requires { length (held queue.old) ≤ 14 }
    ensures { held queue.new ≡ held queue.old ++ copies (outcome_of mark) frame }
{
    if mark != Mark::Lost {
        queue.push(frame).unwrap();
    }
    if mark == Mark::Twice {
        queue.push(frame).unwrap();
    }
}
