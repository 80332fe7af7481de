// How marks are made from bytes, and read one after another.
ghost use Rattle.std.specs.Prelude.{◌≡◌, ◌≤◌, map, length, MatchResult, refl};
ghost use Rattle.wire.specs.Wires.{costs};
ghost use Rattle.wire.specs.Marks.{byte_outcome};
ghost use Rattle.wire.specs.Kinds.{MarkedRan, marks_left};
ghost use Rattle.wire.specs.Outcomes.{reads_on};
ghost use Rattle.fault.specs.declared.failure.Failure.TheVariants.{NoMemory};

use super::Marks;
use crate::MarkSource;
use crate::outcomes::cost;
use fault::Failure;
use marks::Mark;
use std::alloc::Global;
use std::collections::VecDeque;

impl Marks {
    // The marks that the bytes are, none of them read yet.
    // Kept: `unwrap_or`. The bytes are tested before, so that a refusal comes before want of memory; `unwrap` would ask for that test here and carry it through the loop.
    pub(crate) fn from_bytes(heap: Global, bytes: &[u8]) -> Result<Marks, Failure>
        requires { length bytes.now ≤ 65535 }
        ensures { MatchResult result (λ m. (marks_left m ≡ map byte_outcome bytes.now) × (m.troubles ≡ costs (map byte_outcome bytes.now))) (λ e. e ≡ NoMemory) }
    {
        let mut list = Vec::new(heap);
        let mut troubles = 0;
        for byte in bytes {
            let mark = Mark::try_from(*byte).unwrap_or(Mark::Once);
            troubles += cost(mark);
            list.push(mark)?;
        }
        Ok(Marks {
            list: VecDeque::from_vec(list),
            troubles,
        })
    }
}

impl MarkSource for Marks {
    ghost troubles = { λ m. m.troubles };

    ghost read = { MarkedRan };

    ghost none_read = { λ m. record { read = refl; left = refl } };

    ghost reads_on = { λ r s t xs ys a b. reads_on _ xs _ ys _ a b };

    ghost few = { λ m. m.few };

    fn troubles_left(&self) -> u32 {
        self.troubles
    }

    // Past the last mark every frame joins once.
    fn next(&mut self) -> Mark {
        let mark = self.list.pop_front().unwrap_or(Mark::Once);
        self.troubles -= cost(mark);
        mark
    }
}
