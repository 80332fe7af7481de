// A day over a direct post on a halving ladder, for callers in other languages: numbers go in, and one figure comes out.
#![tactic(auto)]

ghost use Rattle.std.specs.Prelude.{◌≡◌, true, false};
ghost use Rattle.ladder.specs.Slacks.{halving_slack};
ghost use Rattle.window.specs.Windows.{setting_for};
ghost use Rattle.playing_library.specs.Messages.{DayMessages, LotsMessages, InRange};

use fault::Fault;
use ladder::Halving;
use playing::play;
use post::DirectPost;

// How many messages the lots of a day take.
fn day_messages(offices: u32, grain: u32, steps: u32, lots: &[u32]) -> Result<u32, Fault>
    ensures { DayMessages offices grain steps lots.now result }
{
    let post = DirectPost::new(offices)?;
    let ladder = Halving::new(grain, steps)?;
    let played = play(post, ladder, lots);
    Ok(played.window.messages().number())
}

// Plays the lots, writes how many messages they took, and tells whether they were played: they are not if a number is out of its range.
#[unsafe(no_mangle)]
pub extern "C" fn zimuralve_day_messages(
    offices: u32,
    grain: u32,
    steps: u32,
    lots: &[u32],
    messages: &mut u32,
) -> bool
    ensures played { result ≡ true → LotsMessages (setting_for offices steps (halving_slack grain steps)) lots.now messages.new }
    ensures refused { result ≡ false → InRange offices grain steps → ⊥ }
    ensures kept { result ≡ false → messages.new ≡ messages.old }
{
    match day_messages(offices, grain, steps, lots) {
        Ok(count) => {
            *messages = count;
            true
        }
        Err(_) => false,
    }
}
