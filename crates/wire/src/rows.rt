// The frames that wait on each lane of a wire.
ghost use Rattle.std.specs.Prelude.{◌≡◌, ◌<◌, ◌≤◌, length, None, Some, MatchResult, slice_set};
ghost use Rattle.wire.specs.Wires.{wire_lane, no_such_lane, put_fault};

use fault::{Fault, Layer, Refusal};
use offices::{LaneItems, OfficeCount};
use queue::Queue;

// A frame that joins twice finds room where no more places than these are taken.
const MOST_PLACES: usize = 14;

#[derive(Drop)]
pub(crate) struct Rows {
    queues: LaneItems<Queue<u16>>,
}

impl Rows {
    ghost use Rattle.wire.specs.Rows.{queue_lane, lanes_of};
    ghost use Rattle.wire.specs.Kinds.{RowsMade};

    // Rows in which nothing waits; refuses a number of offices outside 1 to 64.
    pub(crate) fn new(offices: u32) -> Result<Rows, Fault>
        ensures { RowsMade offices result }
    {
        let offices = OfficeCount::new(Layer::Wire, offices)?;
        Ok(Rows {
            queues: LaneItems::new(offices, Queue::new(0)),
        })
    }

    // How many offices the lanes are for.
    pub(crate) fn office_count(&self) -> u32
        ensures { result ≡ self.now.queues.offices.number }
    {
        self.queues.office_count()
    }

    // The frames that wait on a lane.
    // Kept: beside the same of posts, since it tells in the words of lanes what `get` tells of items.
    pub(crate) fn queue(&self, lane: u32) -> Result<&Queue<u16>, Fault>
        ensures { MatchResult result (λ q. (lane < length (lanes_of self.now)) × (queue_lane q.now ≡ wire_lane (lanes_of self.now) lane)) (λ f. (length (lanes_of self.now) ≤ lane) × (f ≡ no_such_lane lane)) }
    {
        self.queues.get(lane).ok_or(Layer::Wire.fault(Refusal::NoSuchOfficeOrLane, lane as usize))
    }

    // The frames that wait on a lane which a frame may be put on.
    pub(crate) fn open_queue(&self, lane: u32) -> Result<&Queue<u16>, Fault>
        ensures { MatchResult result (λ q. (put_fault (lanes_of self.now) lane ≡ None) × (queue_lane q.now ≡ wire_lane (lanes_of self.now) lane)) (λ f. put_fault (lanes_of self.now) lane ≡ Some f) }
    {
        let queue = self.queue(lane)?;
        if queue.len() > MOST_PLACES {
            return Err(Layer::Wire.fault(Refusal::PlacesTaken, lane as usize));
        }
        Ok(queue)
    }

    // Has these frames wait on the lane in place of those that did; past the last lane nothing changes.
    // Kept: beside the same of posts, since it tells in the words of lanes what `set` tells of items.
    pub(crate) fn store(&mut self, lane: u32, queue: Queue<u16>)
        ensures offices { self.new.queues.offices ≡ self.old.queues.offices }
        ensures lanes { lanes_of self.new ≡ slice_set (lanes_of self.old) lane (queue_lane queue) }
    {
        self.queues.set(lane, queue);
    }
}
