// A queue of at most sixteen items, in a table of its own: it needs no memory from elsewhere.
#![tactic(auto)]

ghost use Rattle.std.specs.Prelude.{◌≡◌, ◌≤◌, length};

use std::alloc::AllocError;

mod queueing;

// The most items that a queue holds.
const MOST_ITEMS: usize = 16;

// The items from first to last are the first `count` of the table.
// Kept: a fixed table with its count, since a queue may not want memory and is copied.
#[derive(Copy)]
pub struct Queue<T> {
    items: [T; MOST_ITEMS],
    count: u8,
    ghost wide: { length items ≡ 16 },
    ghost fits: { count ≤ 16 },
}

// Kept: for a generic struct with a ghost field neither `derive` nor `derive_where` makes a `Clone`.
impl<T: Copy> Clone for Queue<T> {
    ghost is_clone = { λ x y. y ≡ x };

    ghost is_infallible = { λ _. Unit {0} };

    fn clone(&self) -> Result<Queue<T>, AllocError> {
        Ok(*self)
    }
}
