// The place of an office in the table of a window, and its two lanes.
ghost use Rattle.std.specs.Prelude.{◌≡◌, ◌+◌, ◌*◌, ◌<◌};

// Counted from 0: office 1 stands at place 0.
#[derive(Clone, Copy)]
pub struct Place {
    pub index: u32,
    ghost within: { index < 64 },
}

impl Place {
    // The lane on which the office sends to the coordinator.
    pub fn lane_up(self) -> u32
        ensures { result ≡ 2 * self.index }
    {
        2 * self.index
    }

    // The lane on which the office hears from the coordinator.
    pub fn lane_down(self) -> u32
        ensures { result ≡ 2 * self.index + 1 }
    {
        2 * self.index + 1
    }
}
