// The line of a text that a fault lies in.
ghost use Rattle.std.specs.Prelude.{◌≡◌, ◌≤◌, min, length};
ghost use Rattle.printing.specs.FaultLine.{in_line, line_start, line_stop, line_at, fault_line};

use fault::{Fault, Layer};
use reader::line_end_length;
use texts::Texts;

// Whether the byte ends no line.
fn in_line(byte: u8) -> bool
    ensures { result ≡ in_line byte }
{
    line_end_length(&[byte], 0) == 0
}

// Where the line around `place` begins: past the last line end before it, or at the text's start.
fn line_start(text: &[u8], place: usize) -> usize
    ensures value { result ≡ line_start text.now place }
    ensures bound { result ≤ min place (length text.now) }
{
    let before = &text[..place.min(text.len())];
    let in_this_line = before
        .iter()
        .rev()
        .take_while(|byte| in_line(**byte))
        .count();
    before.len() - in_this_line
}

// Where the line around `place` stops: at the first line end from there on, or at the text's end.
fn line_stop(text: &[u8], place: usize) -> usize
    ensures value { result ≡ line_stop text.now place }
    ensures low_bound { min place (length text.now) ≤ result }
    ensures high_bound { result ≤ length text.now }
{
    let after = &text[place.min(text.len())..];
    let in_this_line = after.iter().take_while(|byte| in_line(**byte)).count();
    text.len() - after.len() + in_this_line
}

// The line of `text` around `place`; past the end, the last line.
fn line_at(text: &[u8], place: usize) -> &[u8]
    ensures value { result.now ≡ line_at text.now place }
{
    &text[line_start(text, place)..line_stop(text, place)]
}

// The line that the fault lies in, as a part of the text that its layer names; empty for any other layer.
pub fn fault_line<'a>(texts: Texts<'a, 'a>, fault: Fault) -> &'a [u8]
    ensures value { result.now ≡ fault_line texts.entry.terms.now texts.entry.day.now fault }
{
    match fault.layer {
        Layer::Terms => line_at(texts.terms, fault.place),
        Layer::Day => line_at(texts.day, fault.place),
        _ => &[],
    }
}
