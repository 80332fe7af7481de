// Worked days and what comes of them, over the direct post and by the alternating bit over both wires. The comments say which wrong reading of the rules a day catches.
use crate::figures::{Figures, figures_of};
use bit_post::BitPost;
use fault::Fault;
use ladder::{Halving, Listed};
use playing::{Played, frames_of, play, play_over_wire};
use post::{DirectPost, Post};
use std::process::Abort;
use std::test::Fail;
use window::same_books;
use wire::{CleanWire, MarkedWire, Wire};

#[derive(Clone, Copy)]
enum Rungs {
    Halvings(u32),
    Divisors(&'static [u32]),
}

// A day's terms and lots, and what comes of it: the closing lot by its number among the accepted ones, and the figures after all lots.
#[derive(Clone, Copy)]
struct WorkedDay {
    offices: u32,
    rungs: Rungs,
    grain: u32,
    lots: &'static [u32],
    late: usize,
    closing: Option<usize>,
    figures: Figures,
}

const DAYS: [WorkedDay; 9] = [
    // Closing never: the first lot closes, and the second comes late.
    WorkedDay {
        offices: 1,
        rungs: Rungs::Halvings(1),
        grain: 1,
        lots: &[1, 1],
        late: 1,
        closing: Some(1),
        figures: Figures {
            step: 1,
            signals: 1,
            closed: true,
            messages: 2,
            sent: [1, 1, 0, 0],
            credits: [1, 0],
            remainders: [0, 0],
        },
    },
    // Remainders dropped at a start: office 1 holds 3 lots of the coarser step, and without them the thirteenth lot does not close.
    WorkedDay {
        offices: 2,
        rungs: Rungs::Halvings(2),
        grain: 2,
        lots: &[1, 1, 1, 1, 1, 1, 1, 2, 2, 2, 2, 2, 2],
        late: 0,
        closing: Some(13),
        figures: Figures {
            step: 2,
            signals: 2,
            closed: true,
            messages: 8,
            sent: [2, 2, 2, 2],
            credits: [6, 6],
            remainders: [1, 0],
        },
    },
    // Closing early: one lot fewer than the day before, and the window is open.
    WorkedDay {
        offices: 2,
        rungs: Rungs::Halvings(2),
        grain: 2,
        lots: &[1, 1, 1, 1, 1, 1, 1, 2, 2, 2, 2, 2],
        late: 0,
        closing: None,
        figures: Figures {
            step: 2,
            signals: 1,
            closed: false,
            messages: 5,
            sent: [2, 1, 1, 1],
            credits: [6, 4],
            remainders: [1, 1],
        },
    },
    // The same lots with office 2 first.
    WorkedDay {
        offices: 2,
        rungs: Rungs::Halvings(2),
        grain: 2,
        lots: &[2, 2, 2, 2, 2, 1, 1, 1, 1, 1, 1, 1],
        late: 0,
        closing: None,
        figures: Figures {
            step: 2,
            signals: 1,
            closed: false,
            messages: 5,
            sent: [2, 1, 1, 1],
            credits: [6, 4],
            remainders: [1, 1],
        },
    },
    // Books kept without the post, and a message count that is made up: the sent numbers of the lanes and their sum.
    WorkedDay {
        offices: 2,
        rungs: Rungs::Halvings(3),
        grain: 1,
        lots: &[2, 2, 2, 1, 1, 1, 1, 1, 1, 1, 1],
        late: 0,
        closing: None,
        figures: Figures {
            step: 2,
            signals: 1,
            closed: false,
            messages: 5,
            sent: [2, 1, 1, 1],
            credits: [8, 2],
            remainders: [0, 1],
        },
    },
    // A step finished after as many signals as there are offices, whatever its divisor: the window would close at lot 6.
    WorkedDay {
        offices: 2,
        rungs: Rungs::Divisors(&[3, 2]),
        grain: 1,
        lots: &[1, 1, 1, 1, 1, 1, 1, 1, 1, 1],
        late: 0,
        closing: Some(10),
        figures: Figures {
            step: 2,
            signals: 2,
            closed: true,
            messages: 10,
            sent: [6, 2, 0, 2],
            credits: [10, 0],
            remainders: [0, 0],
        },
    },
    // As many lots, five at each office.
    WorkedDay {
        offices: 2,
        rungs: Rungs::Divisors(&[3, 2]),
        grain: 1,
        lots: &[1, 1, 1, 1, 1, 2, 2, 2, 2, 2],
        late: 0,
        closing: Some(10),
        figures: Figures {
            step: 2,
            signals: 2,
            closed: true,
            messages: 10,
            sent: [3, 2, 3, 2],
            credits: [5, 5],
            remainders: [0, 0],
        },
    },
    // One signal at a start for several slacks held: office 2 holds two and signals twice.
    WorkedDay {
        offices: 2,
        rungs: Rungs::Divisors(&[2, 3]),
        grain: 1,
        lots: &[2, 2, 1, 1, 1, 1, 1, 1],
        late: 0,
        closing: None,
        figures: Figures {
            step: 2,
            signals: 2,
            closed: false,
            messages: 6,
            sent: [2, 1, 2, 1],
            credits: [6, 2],
            remainders: [0, 0],
        },
    },
    // Running down the ladder on the first lot, and closing always: after one lot nothing is sent, and step 1 goes on.
    WorkedDay {
        offices: 2,
        rungs: Rungs::Halvings(3),
        grain: 1,
        lots: &[1],
        late: 0,
        closing: None,
        figures: Figures {
            step: 1,
            signals: 0,
            closed: false,
            messages: 0,
            sent: [0, 0, 0, 0],
            credits: [0, 0],
            remainders: [1, 0],
        },
    },
];

// Plays a day over any post.
fn play_day<P: Post + Drop>(post: P, day: &WorkedDay) -> Result<Played<P>, Fault> {
    match day.rungs {
        Rungs::Halvings(steps) => Ok(play(post, Halving::new(day.grain, steps)?, day.lots)),
        Rungs::Divisors(divisors) => Ok(play(post, Listed::new(day.grain, divisors)?, day.lots)),
    }
}

// The day over a wire has the books that it has without one, and its frames lie within their bounds.
fn check_over_wire<W: Wire + Drop>(rt: &impl Abort, wire: W, day: &WorkedDay) -> Result<(), Fail> {
    let direct = play_day(DirectPost::new(day.offices)?, day)?;
    let over_wire = play_day(BitPost::new(wire), day)?;
    assert_eq!(rt; figures_of(&over_wire.window), day.figures);
    assert_eq!(rt; over_wire.tally.closing, day.closing);
    assert!(rt; same_books(&direct.window, &over_wire.window));
    let frames = frames_of(&over_wire.window).number();
    let least = 2 * u64::from(over_wire.window.messages().number());
    let troubles = u64::from(over_wire.window.post().troubles_used());
    assert!(rt; least <= frames);
    assert!(rt; frames <= least + 2 * troubles);
    Ok(())
}

#[test]
fn over_the_direct_post(rt: HostRuntime) -> Result<(), Fail> {
    for day in &DAYS {
        let played = play_day(DirectPost::new(day.offices)?, day)?;
        assert_eq!(rt; figures_of(&played.window), day.figures);
        assert_eq!(rt; played.tally.closing, day.closing);
        assert_eq!(rt; played.tally.late, day.late);
        assert_eq!(rt;
            played.tally.accepted.saturating_add(day.late),
            day.lots.len()
        );
    }
    Ok(())
}

#[test]
fn over_both_wires(rt: HostRuntime) -> Result<(), Fail> {
    for day in &DAYS {
        let k = day.offices;
        check_over_wire(&rt, CleanWire::new(k)?, day)?;
        check_over_wire(&rt, MarkedWire::new(rt.alloc(), k, b"-+")?, day)?;
        check_over_wire(&rt, MarkedWire::new(rt.alloc(), k, b".-+-..+-")?, day)?;
        check_over_wire(
            &rt,
            MarkedWire::new(rt.alloc(), k, b"--------++++++++-+")?,
            day,
        )?;
    }
    Ok(())
}

// A lost data frame and a doubled one for the signal, none for the close: four frames and two.
#[test]
fn frames_of_two_messages(rt: HostRuntime) -> Result<(), Fail> {
    let wire = MarkedWire::new(rt.alloc(), 1, b"-+")?;
    let played = play(BitPost::new(wire), Halving::new(1, 1)?, &[1]);
    assert_eq!(rt; frames_of(&played.window).number(), 6);
    assert_eq!(rt; played.window.post().troubles_used(), 2);
    Ok(())
}

// Two lost acknowledgements for the signal, none for the close: six frames and two, the most that two troubles can take.
#[test]
fn frames_of_a_day_over_a_wire(rt: HostRuntime) -> Result<(), Fail> {
    let wire = MarkedWire::new(rt.alloc(), 1, b".-.-")?;
    let played = play_over_wire(wire, Halving::new(1, 1)?, &[1]);
    assert_eq!(rt; frames_of(&played.window).number(), 8);
    assert_eq!(rt; played.window.messages().number(), 2);
    assert_eq!(rt; played.window.post().troubles_used(), 2);
    Ok(())
}
