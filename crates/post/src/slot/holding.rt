// What a slot does.
ghost use Rattle.std.specs.Prelude.{◌≡◌, true, [], ◌∷◌, length, is_ok, MatchOption};
ghost use Rattle.post.specs.Lanes.{no_lane, room_answer, with_byte};
ghost use Rattle.post.specs.Tables.{shown};

use super::Slot;
use fault::{Fault, Layer, Refusal};
use queue::Queue;

// The most bytes that are ever sent on a lane.
const MOST_SENT: u16 = 65_535;

// The most bytes that wait on a lane.
const MOST_WAITING: usize = 16;

impl Slot {
    pub fn new() -> Slot
        ensures { shown result ≡ no_lane }
    {
        Slot {
            queue: Queue::new(0),
            sent: 0,
        }
    }

    pub fn sent_count(&self) -> u32
        ensures { result ≡ (shown self.now).sent }
    {
        u32::from(self.sent)
    }

    pub fn waiting_count(&self) -> u32
        ensures { result ≡ length (shown self.now).waiting }
    {
        self.queue.len() as u32
    }

    // Whether the slot, which has the number `lane`, takes one byte more.
    pub fn check_room(&self, lane: u32) -> Result<(), Fault>
        ensures { result ≡ room_answer (shown self.now) lane }
    {
        if self.sent >= MOST_SENT {
            return Err(Layer::Post.fault(Refusal::AllSent, lane as usize));
        }
        if self.queue.len() >= MOST_WAITING {
            return Err(Layer::Post.fault(Refusal::SixteenWait, lane as usize));
        }
        Ok(())
    }

    // The byte joins the end, if there is room for it.
    pub fn send(&mut self, lane: u32, byte: u8) -> Result<(), Fault>
        ensures answer { result ≡ room_answer (shown self.old) lane }
        ensures after { is_ok result ≡ true → shown self.new ≡ with_byte (shown self.old) byte }
    {
        self.check_room(lane)?;
        self.queue.push(byte).unwrap();
        self.sent += 1;
        Ok(())
    }

    // The first byte that waits leaves.
    pub fn take(&mut self) -> Option<u8>
        ensures value { MatchOption result ((shown self.old).waiting ≡ []) (λ b. (shown self.old).waiting ≡ b ∷ (shown self.new).waiting) }
        ensures same { (shown self.new).sent ≡ (shown self.old).sent }
    {
        self.queue.pop()
    }
}
