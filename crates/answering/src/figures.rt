// The figures of a played day, gathered into a report.
ghost use Rattle.std.specs.Prelude.{◌≡◌, IfOk};
ghost use Rattle.report.specs.Models.{report_model};
ghost use Rattle.answering.specs.Figures.{Gathers, model_of};

use bit_post::FrameCount;
use fault::Fault;
use playing::Played;
use post::Post;
use report::Report;
use std::alloc::{AllocError, Global};

// What each office answers, from office 1 on; an office that answers with a fault is left out.
fn gather<F: Fn(u32) -> Result<u32, Fault>>(
    heap: Global,
    offices: u32,
    figure: F,
) -> Result<Vec<u32>, AllocError>
    requires { F.IsAlwaysCallable figure }
    ensures { IfOk result (λ v. Gathers (F.post figure) offices v.items) }
{
    let mut list = Vec::new(heap);
    for office in 1..=offices {
        if let Ok(number) = figure(office) {
            list.push(number)?;
        }
    }
    Ok(list)
}

// The report of a played day that took so many frames.
pub fn report_of<P: Post>(
    heap: Global,
    played: &Played<P>,
    frames: FrameCount,
) -> Result<Report, AllocError>
    ensures { IfOk result (λ m. report_model m ≡ model_of P.Post.lanes played.now frames.count) }
{
    let window = &played.window;
    let offices = window.office_count();
    let credits = gather(heap, offices, |office| window.credit(office))?;
    let remainders = gather(heap, offices, |office| window.remainder(office))?;
    Ok(Report {
        closed: played.tally.closing,
        step: played.window.step(),
        signals: played.window.signals(),
        messages: played.window.messages(),
        frames,
        accepted: played.tally.accepted,
        late: played.tally.late,
        credits,
        remainders,
    })
}
