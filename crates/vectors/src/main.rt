// Answers a table of pairs of texts, which an unrelated program has answered too (see reference/).
#![tactic(auto)]

use answer_table::run_by_line;
use printing::answer;

fn main(rt: HostRuntime) -> anyhow::Result<()> {
    // Kept: a closure around `answer`; tried by its name, and a function of another crate gets no proof there.
    run_by_line(
        rt.alloc(),
        &mut rt.stdin(),
        &mut rt.stdout(),
        |heap, texts| answer(heap, texts),
    )
}
