// The kinds of bytes that runs in the texts are made of.
ghost use Rattle.std.specs.Prelude.{◌≡◌};
ghost use Rattle.reader.specs.Bytes.{of_kind};

use marks::Mark;

// Kept: an enum, since `take_run` is a public call whose clause names the run of a kind.
#[derive(Clone, Copy)]
pub enum ByteKind {
    // `0` to `9`.
    Digit,
    // A mark of a wire: `.`, `-` or `+`.
    Mark,
}

impl ByteKind {
    // Whether the byte is of this kind.
    pub fn holds(self, byte: u8) -> bool
        ensures value { result ≡ of_kind self byte }
    {
        match self {
            ByteKind::Digit => byte.is_ascii_digit(),
            ByteKind::Mark => Mark::is_written(byte),
        }
    }
}
