// Lots and questions that a window refuses, in the order of the tests, and that a refused lot changes nothing.
use crate::figures::{Figures, figures_of, refusal_of};
use bit_post::BitPost;
use fault::Layer;
use ladder::Halving;
use playing::play;
use post::{DirectPost, Post};
use std::process::Abort;
use std::test::Fail;
use window::{Window, same_books};
use wire::{CleanWire, Wire};

// The window of the thirteen lots that close it, two offices on slacks 8, 4, 2.
fn closed_window() -> Result<Window<DirectPost>, Fail> {
    let lots = [1, 1, 1, 1, 1, 1, 1, 2, 2, 2, 2, 2, 2];
    let played = play(DirectPost::new(2)?, Halving::new(2, 2)?, &lots);
    Ok(played.window)
}

// Every lot is late, unless there is no such office.
#[test]
fn lots_after_the_close(rt: HostRuntime) -> Result<(), Fail> {
    let mut window = closed_window()?;
    let before = figures_of(&window);
    assert!(rt; window.is_closed());
    assert_eq!(rt; refusal_of(window.lot(1)), Some((Layer::Window, 2, 1)));
    assert_eq!(rt; refusal_of(window.lot(2)), Some((Layer::Window, 2, 2)));
    for office in [0, 3, 4_294_967_295] {
        check_no_office(&rt, &mut window, office);
    }
    assert_eq!(rt; figures_of(&window), before);
    assert!(rt; same_books(&window, &closed_window()?));
    Ok(())
}

// What is asked about an office that there is not is refused, and so are its lots.
fn check_no_office(rt: &impl Abort, window: &mut Window<DirectPost>, office: u32) {
    let refused = Some((Layer::Window, 1, office as usize));
    assert_eq!(rt; refusal_of(window.lot(office)), refused);
    assert_eq!(rt; refusal_of(window.credit(office)), refused);
    assert_eq!(rt; refusal_of(window.remainder(office)), refused);
}

// An open window with 3 lots held at office 1.
#[test]
fn lots_at_no_office(rt: HostRuntime) -> Result<(), Fail> {
    let mut window = Window::open(DirectPost::new(2)?, Halving::new(2, 2)?);
    for _ in 0..3 {
        window.lot(1)?;
    }
    let before = figures_of(&window);
    for office in [0, 3, 4_294_967_295] {
        check_no_office(&rt, &mut window, office);
    }
    assert_eq!(rt; figures_of(&window), before);
    assert_eq!(rt; window.remainder(1)?, 3);
    window.lot(1)?;
    assert_eq!(rt; window.credit(1)?, 4);
    Ok(())
}

// On a used post every lot is refused before its office is looked at, nothing is sent, and the questions answer.
fn check_used<P: Post + Drop>(rt: &impl Abort, post: P, sent: [u32; 4]) -> Result<(), Fail> {
    let mut window = Window::open(post, Halving::new(1, 1)?);
    for office in [0, 1, 2, 3, 4_294_967_295] {
        assert_eq!(rt; refusal_of(window.lot(office)), Some((Layer::Window, 5, 0)));
    }
    let unchanged = Figures {
        step: 1,
        signals: 0,
        closed: false,
        messages: 1,
        sent,
        credits: [0, 0],
        remainders: [0, 0],
    };
    assert_eq!(rt; figures_of(&window), unchanged);
    assert_eq!(rt; window.office_count(), 2);
    assert_eq!(rt; window.credit(1)?, 0);
    assert_eq!(rt; window.remainder(2)?, 0);
    assert_eq!(rt; refusal_of(window.credit(0)), Some((Layer::Window, 1, 0)));
    assert_eq!(rt;
        refusal_of(window.remainder(3)),
        Some((Layer::Window, 1, 3))
    );
    Ok(())
}

// One byte that still waits, one that was taken again, one over a wire. A refused send and an empty take do not make a post used.
#[test]
fn posts_that_were_used(rt: HostRuntime) -> Result<(), Fail> {
    let mut waiting = DirectPost::new(2)?;
    waiting.send(3, 9)?;
    check_used(&rt, waiting, [0, 0, 0, 1])?;
    let mut taken = DirectPost::new(2)?;
    taken.send(0, 33)?;
    assert_eq!(rt; taken.take(0)?, Some(33));
    check_used(&rt, taken, [1, 0, 0, 0])?;
    let mut over_wire = BitPost::new(CleanWire::new(2)?);
    over_wire.send(2, 33)?;
    check_used(&rt, over_wire, [0, 0, 1, 0])?;
    let mut unused = DirectPost::new(1)?;
    assert_eq!(rt; refusal_of(unused.send(2, 33)), Some((Layer::Post, 1, 2)));
    assert_eq!(rt; unused.take(0)?, None);
    let mut window = Window::open(unused, Halving::new(1, 1)?);
    window.lot(1)?;
    assert!(rt; window.is_closed());
    Ok(())
}
