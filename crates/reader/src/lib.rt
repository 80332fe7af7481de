// A reader over one text: it stands at a place, and moves only past what it accepts.
#![tactic(auto)]

ghost use Rattle.std.specs.Prelude.{◌≤◌, length};

use fault::Layer;

mod byte_kind;
mod line_end;
mod number_list;
mod reading;
pub mod words;

pub use byte_kind::ByteKind;
pub use line_end::line_end_length;

// The text, the layer that its faults name, and the place: an offset from 0, at most the length.
#[derive(Drop)]
pub struct Reader<'a> {
    layer: Layer,
    text: &'a [u8],
    place: usize,
    ghost within: { place ≤ length text.now },
}
