// A number of frames.
ghost use Rattle.std.specs.Prelude.{◌≡◌};

// Kept: a type beside the number of messages, of another width, since clauses name the field of each and a marker type would add a parameter to both.
#[derive(Clone, Copy, Debug, PartialEq, Eq)]
pub struct FrameCount {
    count: u64,
}

impl FrameCount {
    pub fn new(count: u64) -> FrameCount
        ensures value { result.count ≡ count }
    {
        FrameCount { count }
    }

    pub fn number(self) -> u64
        ensures value { result ≡ self.count }
    {
        self.count
    }
}
