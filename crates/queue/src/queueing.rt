// What a queue does.
ghost use Rattle.std.specs.Prelude.{◌≡◌, ◌≤◌, true, [], ◌∷◌, ◌++◌, length, if◌then◌else◌, is_ok, is_err, None, Ok, Err, nat_lt};
ghost use Rattle.queue.specs.Queues.{held, first, rest};

use crate::{MOST_ITEMS, Queue};

impl<T: Copy> Queue<T> {
    // An empty queue; `blank` fills the places that are not in use.
    pub fn new(blank: T) -> Queue<T>
        ensures value { held result ≡ [] }
    {
        Queue {
            items: [blank; MOST_ITEMS],
            count: 0,
        }
    }

    // How many items it holds.
    pub fn len(&self) -> usize
        ensures value { result ≡ length (held self.now) }
        ensures bound { result ≤ 16 }
    {
        self.count as usize
    }

    // The item joins the end; a full queue gives it back, and nothing changes.
    pub fn push(&mut self, item: T) -> Result<(), T>
        ensures value { result ≡ (if nat_lt (length (held self.old)) 16 then Ok tt else Err item) }
        ensures after { held self.new ≡ (if is_ok result then held self.old ++ item ∷ [] else held self.old) }
        ensures same { is_err result ≡ true → self.new ≡ self.old }
    {
        if self.len() >= MOST_ITEMS {
            return Err(item);
        }
        self.items[self.len()] = item;
        self.count += 1;
        Ok(())
    }

    // The first item, which leaves; of an empty queue none, and nothing changes.
    pub fn pop(&mut self) -> Option<T>
        ensures value { result ≡ first (held self.old) }
        ensures after { held self.new ≡ rest (held self.old) }
        ensures same { result ≡ None → self.new ≡ self.old }
    {
        if self.count == 0 {
            return None;
        }
        let first = self.items[0];
        self.items.copy_within(1..MOST_ITEMS, 0);
        self.count -= 1;
        Some(first)
    }
}
