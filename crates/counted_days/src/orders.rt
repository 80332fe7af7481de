// The order of the lots does not matter: the same lots in several orders and over several posts end in the same books.
use crate::recording::RecordingPost;
use bit_post::BitPost;
use ladder::Halving;
use playing::play;
use post::DirectPost;
use std::test::Fail;
use window::same_books;
use wire::{CleanWire, MarkedWire};

// Seven lots at office 1, five at office 2, six at office 3, on slacks 8, 4, 2: the next lot at office 2 would close the window.
const BY_OFFICE: [u32; 18] = [1, 1, 1, 1, 1, 1, 1, 2, 2, 2, 2, 2, 3, 3, 3, 3, 3, 3];

const LAST_OFFICE_FIRST: [u32; 18] = [3, 3, 3, 3, 3, 3, 2, 2, 2, 2, 2, 1, 1, 1, 1, 1, 1, 1];

const IN_TURN: [u32; 18] = [1, 2, 3, 1, 2, 3, 1, 2, 3, 1, 2, 3, 1, 2, 3, 1, 3, 1];

const MIXED: [u32; 18] = [3, 1, 1, 2, 1, 3, 3, 1, 2, 2, 3, 1, 1, 2, 3, 2, 1, 3];

#[test]
fn same_lots_in_other_orders(rt: HostRuntime) -> Result<(), Fail> {
    let ladder = Halving::new(2, 2)?;
    let first = play(DirectPost::new(3)?, ladder, &BY_OFFICE).window;
    let second = play(BitPost::new(CleanWire::new(3)?), ladder, &LAST_OFFICE_FIRST).window;
    let marked = MarkedWire::new(rt.alloc(), 3, b"-+.-+..--+")?;
    let third = play(BitPost::new(marked), ladder, &IN_TURN).window;
    let fourth = play(
        RecordingPost::new(rt.alloc(), DirectPost::new(3)?),
        ladder,
        &MIXED,
    )
    .window;
    assert_eq!(rt; first.messages().number(), 8);
    assert!(rt; same_books(&first, &second));
    assert!(rt; same_books(&first, &third));
    assert!(rt; same_books(&first, &fourth));
    assert!(rt; same_books(&second, &third));
    assert!(rt; same_books(&second, &fourth));
    assert!(rt; same_books(&third, &fourth));
    assert!(rt; same_books(&fourth, &first));
    Ok(())
}

// One lot fewer, or the last lot at another office.
#[test]
fn other_lots(rt: HostRuntime) -> Result<(), Fail> {
    let ladder = Halving::new(2, 2)?;
    let all = play(DirectPost::new(3)?, ladder, &BY_OFFICE).window;
    let fewer = play(DirectPost::new(3)?, ladder, &BY_OFFICE[0..17]).window;
    let mut moved = play(BitPost::new(CleanWire::new(3)?), ladder, &BY_OFFICE[0..17]).window;
    assert!(rt; !same_books(&all, &fewer));
    assert!(rt; !same_books(&fewer, &all));
    assert!(rt; same_books(&fewer, &moved));
    moved.lot(2)?;
    assert!(rt; !same_books(&all, &moved));
    assert!(rt; !same_books(&moved, &fewer));
    Ok(())
}

// Six lots at each office: in each order the eighteenth closes the window, with the same books.
#[test]
fn closed_in_other_orders(rt: HostRuntime) -> Result<(), Fail> {
    let ladder = Halving::new(2, 2)?;
    let by_office = [1, 1, 1, 1, 1, 1, 2, 2, 2, 2, 2, 2, 3, 3, 3, 3, 3, 3];
    let in_turn = [3, 2, 1, 3, 2, 1, 3, 2, 1, 3, 2, 1, 3, 2, 1, 3, 2, 1];
    let one = play(DirectPost::new(3)?, ladder, &by_office);
    let other = play(BitPost::new(CleanWire::new(3)?), ladder, &in_turn);
    assert_eq!(rt; one.tally.closing, Some(18));
    assert_eq!(rt; other.tally.closing, Some(18));
    assert_eq!(rt; one.window.messages().number(), 12);
    assert!(rt; same_books(&one.window, &other.window));
    Ok(())
}
