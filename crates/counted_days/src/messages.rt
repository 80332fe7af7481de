// The messages of short days, byte by byte: a signal is 32 + its step, a start 64 + its step, a close 96 + its step.
use crate::recording::RecordingPost;
use ladder::{Halving, Listed};
use playing::play;
use post::DirectPost;
use std::test::Fail;

// Slacks 8, 4, 2, 1. Office 1 signals step 1 at its fourth and eighth lot; both offices are told that step 2 starts; office 2 held 3, signals one slack of 2 and keeps 1.
#[test]
fn three_and_eight_lots_at_two_offices(rt: HostRuntime) -> Result<(), Fail> {
    let post = RecordingPost::new(rt.alloc(), DirectPost::new(2)?);
    let lots = [2, 2, 2, 1, 1, 1, 1, 1, 1, 1, 1];
    let played = play(post, Halving::new(1, 3)?, &lots);
    assert_eq!(rt;
        played.window.post().sends(),
        [(0, 33), (0, 33), (1, 66), (3, 66), (2, 34)].as_slice()
    );
    Ok(())
}

// One signal closes the window; the late lot sends nothing.
#[test]
fn two_lots_at_one_office(rt: HostRuntime) -> Result<(), Fail> {
    let post = RecordingPost::new(rt.alloc(), DirectPost::new(1)?);
    let played = play(post, Halving::new(1, 1)?, &[1, 1]);
    assert_eq!(rt; played.window.post().sends(), [(0, 33), (1, 97)].as_slice());
    Ok(())
}

// Slacks 6, 3, 1. At the start of step 2 offices 1 and 3 hold 2 lots each, and each signals twice. Two lots more close the window.
#[test]
fn several_signals_at_a_start(rt: HostRuntime) -> Result<(), Fail> {
    let post = RecordingPost::new(rt.alloc(), DirectPost::new(3)?);
    let lots = [3, 3, 1, 1, 1, 1, 1, 2, 2, 2, 2, 2, 2, 3, 3];
    let played = play(post, Listed::new(1, &[2, 3])?, &lots);
    assert_eq!(rt;
        played.window.post().sends(),
        [
            (0, 33),
            (2, 33),
            (2, 33),
            (1, 66),
            (3, 66),
            (5, 66),
            (0, 34),
            (0, 34),
            (4, 34),
            (4, 34),
            (4, 34),
            (4, 34),
            (1, 98),
            (3, 98),
            (5, 98),
        ]
        .as_slice()
    );
    Ok(())
}
