// What a line end is for reading: nothing else that reads the two texts knows it. The writer writes line ends of its own, and the table of answers cuts and ends its lines itself.
ghost use Rattle.std.specs.Prelude.{◌≡◌, ◌+◌, ◌≤◌, length, drop};
ghost use Rattle.reader.specs.Bytes.{line_end};

// How many bytes the line end at `place` has: one, a byte 10, or 0 where none stands there.
// Kept: a text and a place, since it is a public call and the end of a slice would be no plainer to its callers.
pub fn line_end_length(text: &[u8], place: usize) -> usize
    ensures value { result ≡ line_end (drop place text.now) }
    ensures bound { place ≤ length text.now → place + result ≤ length text.now }
{
    usize::from(text.get(place) == Some(&b'\n'))
}
