// Windows of 64 offices: the largest grain, the longest ladders, and days that run down to the close.
use bit_post::BitPost;
use fault::Fault;
use ladder::{Halving, Ladder, Listed};
use post::{DirectPost, Post};
use std::process::Abort;
use std::test::Fail;
use window::Window;
use wire::CleanWire;

// The step, the signals, the messages and the sent numbers of all lanes added up.
fn heads_of<P: Post>(window: &Window<P>) -> [u32; 4] {
    let sent = (0..128)
        .map(|lane| window.post().sent_count(lane).unwrap_or(0))
        .fold(0, u32::saturating_add);
    [
        window.step(),
        window.signals(),
        window.messages().number(),
        sent,
    ]
}

// Some lots at each of 64 offices in turn.
fn rounds<P: Post>(window: &mut Window<P>, count: u32) -> Result<(), Fault> {
    for _ in 0..count {
        for office in 1..65 {
            window.lot(office)?;
        }
    }
    Ok(())
}

// Five lots at each office stay far below the first slack: all are held, none is signalled.
fn check_held<L: Ladder + Drop>(rt: &impl Abort, ladder: L) -> Result<(), Fail> {
    let mut window = Window::open(DirectPost::new(64)?, ladder);
    rounds(&mut window, 5)?;
    for office in 1..65 {
        assert_eq!(rt; window.credit(office)?, 0);
        assert_eq!(rt; window.remainder(office)?, 5);
    }
    assert!(rt; !window.is_closed());
    assert_eq!(rt; heads_of(&window), [1, 0, 0, 0]);
    Ok(())
}

// The largest grain, the most steps and the largest divisors that a top of 16,777,216 has room for.
#[test]
fn the_largest_tops(rt: HostRuntime) -> Result<(), Fail> {
    check_held(&rt, Halving::new(8_388_608, 1)?)?;
    check_held(&rt, Halving::new(256, 16)?)?;
    check_held(&rt, Listed::new(1, &[16, 16, 16, 16, 16, 16])?)
}

// The whole first slack of the largest grain at the last office: one signal, one message.
#[test]
fn a_signal_of_the_largest_grain(rt: HostRuntime) -> Result<(), Fail> {
    let mut window = Window::open(DirectPost::new(64)?, Halving::new(8_388_608, 1)?);
    for _ in 0..8_388_607 {
        window.lot(64)?;
    }
    assert_eq!(rt; heads_of(&window), [1, 0, 0, 0]);
    assert_eq!(rt; window.remainder(64)?, 8_388_607);
    window.lot(64)?;
    assert_eq!(rt; heads_of(&window), [1, 1, 1, 1]);
    assert_eq!(rt; window.remainder(64)?, 0);
    assert_eq!(rt; window.credit(64)?, 8_388_608);
    Ok(())
}

// Down a ladder to the close by equally many lots at each office: the last of them closes.
fn check_run_down<L: Ladder + Drop>(
    rt: &impl Abort,
    ladder: L,
    each: u32,
    heads: [u32; 4],
) -> Result<(), Fail> {
    let mut window = Window::open(DirectPost::new(64)?, ladder);
    rounds(&mut window, each.saturating_sub(1))?;
    for office in 1..64 {
        window.lot(office)?;
    }
    assert!(rt; !window.is_closed());
    window.lot(64)?;
    assert!(rt; window.is_closed());
    assert_eq!(rt; window.credit(1)?, each);
    assert_eq!(rt; window.remainder(64)?, 0);
    assert_eq!(rt; heads_of(&window), heads);
    Ok(())
}

// At grain 1 the ceiling is 64 times the top less 64, so each office has one lot less than the top; the messages are 64 times the sum of the divisors.
#[test]
fn down_to_the_close(rt: HostRuntime) -> Result<(), Fail> {
    check_run_down(&rt, Listed::new(1, &[16])?, 15, [1, 960, 1024, 1024])?;
    check_run_down(
        &rt,
        Listed::new(1, &[16, 2, 16])?,
        511,
        [3, 960, 2176, 2176],
    )?;
    check_run_down(&rt, Halving::new(1, 16)?, 65_535, [16, 64, 2048, 2048])
}

// Slacks 32, 16, 1. At the start of step 2 all offices but the last hold 15 lots, and each signals 15 times: as many as ever wait on a lane.
fn check_held_at_a_start<P: Post + Drop>(rt: &impl Abort, post: P) -> Result<(), Fail> {
    let mut window = Window::open(post, Listed::new(1, &[2, 16])?);
    for office in 1..64 {
        for _ in 0..31 {
            window.lot(office)?;
        }
    }
    assert_eq!(rt; heads_of(&window), [1, 63, 63, 63]);
    for _ in 0..16 {
        window.lot(64)?;
    }
    assert_eq!(rt; heads_of(&window), [2, 945, 1073, 1073]);
    for _ in 0..15 {
        window.lot(64)?;
    }
    assert!(rt; window.is_closed());
    assert_eq!(rt; heads_of(&window), [2, 960, 1152, 1152]);
    Ok(())
}

#[test]
fn fifteen_signals_at_a_start(rt: HostRuntime) -> Result<(), Fail> {
    check_held_at_a_start(&rt, DirectPost::new(64)?)?;
    check_held_at_a_start(&rt, BitPost::new(CleanWire::new(64)?))
}
