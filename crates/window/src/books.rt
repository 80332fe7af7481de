// What a window writes down: the coordinator's record and the table of the offices' records.
ghost use Rattle.std.specs.Prelude.{◌≡◌, ◌+◌, ◌^◌, ◌<◌, ◌≤◌};
ghost use Rattle.window.specs.Parts.{step_in, is_closed, slack, office, in_coordinator};

use crate::place::Place;
use crate::setting_table::SettingTable;
use offices::OfficeCount;

// The step at which the coordinator is, with the window open or closed.
#[derive(Clone, Copy, PartialEq, Eq)]
pub enum Phase {
    Open(u32),
    Closed(u32),
}

impl Phase {
    pub fn step(self) -> u32
        ensures { result ≡ step_in self }
    {
        match self {
            Phase::Open(step) | Phase::Closed(step) => step,
        }
    }

    pub fn is_closed(self) -> bool
        ensures { result ≡ is_closed self }
    {
        matches!(self, Phase::Closed(_))
    }
}

#[derive(Clone, Copy, PartialEq, Eq)]
pub struct Coordinator {
    pub phase: Phase,
    pub signals: u32,
}

#[derive(Clone, Copy)]
pub struct OfficeRecord {
    pub step: u32,
    pub credit: u32,
    pub remainder: u32,
}

// The most offices that there are.
pub const MOST_OFFICES: usize = OfficeCount::MOST as usize;

// The records of the offices stand at the places from 0 on, office 1 first.
#[derive(Clone, Copy)]
pub struct Books {
    pub setting: SettingTable,
    pub coordinator: Coordinator,
    // Kept: a fixed table, since a lot may not want memory.
    pub table: [OfficeRecord; MOST_OFFICES],
}

impl Books {
    // The office at the place is credited with a slack of the coordinator's step.
    pub fn credit_slack(&mut self, place: Place)
        requires to { step_in self.old.coordinator.phase ≤ self.old.setting.steps }
        requires fits { (office self.old place.index).credit + slack self.old.setting (step_in self.old.coordinator.phase) < 2 ^ 32 }
        ensures { self.new ≡ in_coordinator self.old place.index self.old.coordinator }
    {
        let slack = self.setting.slack(self.coordinator.phase.step());
        self.table[place.index as usize].credit += slack;
    }
}
