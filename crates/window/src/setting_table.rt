// The number of offices and the slacks of the ladder, as a window keeps them.
ghost use Rattle.std.specs.Prelude.{◌≡◌, ℕ, ◌-◌, ◌*◌, ◌/◌, ◌≤◌, slice_index};

use ladder::MOST_STEPS;

// Step 0 and each step of a ladder have a slack.
const MOST_SLACKS: usize = MOST_STEPS + 1;

#[derive(Clone, Copy)]
pub struct SettingTable {
    // Kept: a plain number of offices, since the definitions of the window name it as the rules do and `OfficeCount` would stand between.
    pub offices: u32,
    pub steps: u32,
    // Kept: a fixed table, since opening a window may not want memory.
    pub slacks: [u32; MOST_SLACKS],
    ghost some: { 1 ≤ offices },
    ghost few: { offices ≤ 64 },
    ghost least: { 1 ≤ steps },
    ghost most: { steps ≤ 16 },
    ghost top: { slice_index slacks 0 ≤ 16777216 },
    ghost grain: { (j : ℕ) → j ≤ steps → 1 ≤ slice_index slacks j },
    ghost rung: { (j : ℕ) → 1 ≤ j → j ≤ steps → slice_index slacks (j - 1) ≡ slice_index slacks (j - 1) / slice_index slacks j * slice_index slacks j },
    ghost low: { (j : ℕ) → 1 ≤ j → j ≤ steps → 2 ≤ slice_index slacks (j - 1) / slice_index slacks j },
    ghost high: { (j : ℕ) → 1 ≤ j → j ≤ steps → slice_index slacks (j - 1) / slice_index slacks j ≤ 16 },
}

impl SettingTable {
    // The slack of a step.
    pub fn slack(&self, step: u32) -> u32
        requires { step ≤ self.now.steps }
        ensures { result ≡ slice_index self.now.slacks step }
    {
        self.slacks[step as usize]
    }
}
