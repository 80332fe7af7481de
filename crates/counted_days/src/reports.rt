// The report of one day, in buffers of several lengths.
use bit_post::FrameCount;
use post::MessageCount;
use refusals::refusal_of;
use report::{Report, report_text, write_report};
use std::alloc::{AllocError, Global};
use std::test::Fail;

const TEXT: &[u8; 97] =
    b"closed=9\nstep=2\nsignals=3\nmessages=12\nframes=26\naccepted=9\nlate=1\ncredits=6,2,1\nremainders=0,0,0\n";

const TEXT_AND_REST: &[u8; 100] =
    b"closed=no\nstep=2\nsignals=3\nmessages=12\nframes=26\naccepted=9\nlate=1\ncredits=6,2,1\nremainders=0,0,0\nxx";

fn report_of(heap: Global, closed: Option<usize>) -> Result<Report, AllocError> {
    Ok(Report {
        closed,
        step: 2,
        signals: 3,
        messages: MessageCount::new(12),
        frames: FrameCount::new(26),
        accepted: 9,
        late: 1,
        credits: vec![in heap; 6, 2, 1]?,
        remainders: vec![in heap; 0, 0, 0]?,
    })
}

#[test]
fn nine_lines(rt: HostRuntime) -> Result<(), Fail> {
    let report = report_of(rt.alloc(), Some(9))?;
    let text = report_text(rt.alloc(), &report)?;
    assert_eq!(rt; text.as_slice(), TEXT.as_slice());
    Ok(())
}

#[test]
fn buffer_of_the_length_needed_and_one_byte_short(rt: HostRuntime) -> Result<(), Fail> {
    let report = report_of(rt.alloc(), Some(9))?;
    let mut exact = [b'x'; 97];
    assert_eq!(rt; write_report(rt.alloc(), &report, &mut exact)?, 97);
    assert_eq!(rt; exact, *TEXT);
    let mut short = [b'x'; 96];
    assert_eq!(rt;
        refusal_of(write_report(rt.alloc(), &report, &mut short)),
        (15, 97)
    );
    assert_eq!(rt; short, [b'x'; 96]);
    Ok(())
}

#[test]
fn rest_of_a_longer_buffer_is_kept(rt: HostRuntime) -> Result<(), Fail> {
    let report = report_of(rt.alloc(), None)?;
    let mut buffer = [b'x'; 100];
    assert_eq!(rt; write_report(rt.alloc(), &report, &mut buffer)?, 98);
    assert_eq!(rt; buffer, *TEXT_AND_REST);
    Ok(())
}
