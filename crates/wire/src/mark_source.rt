// Where a wire reads what becomes of the frames that are put on it: from marks, or from nowhere.
ghost use Rattle.std.specs.Prelude.{◌≡◌, ℕ, ◌+◌, ◌≤◌, List, [], ◌∷◌, ◌++◌, refl};
ghost use Rattle.wire.specs.Wires.{Outcome, cost};
ghost use Rattle.wire.specs.Marks.{outcome_of};
ghost use Rattle.wire.specs.Kinds.{CleanRan};
ghost use Rattle.wire.specs.Outcomes.{all_once};
ghost use Rattle.std.proofs.Common.{arith};

use marks::Mark;

// One mark is read for each frame that is put, on any lane.
pub trait MarkSource {
    // The losses and doublings among the marks to come.
    ghost troubles: { Self → ℕ };

    // Reading marks with these outcomes, in order, makes one source of the other.
    ghost read: { Self → Self → List Outcome → Type 0 };

    fn troubles_left(&self) -> u32
        ensures { result ≡ troubles self.now };

    fn next(&mut self) -> Mark
        ensures reads { read self.old self.new (outcome_of result ∷ []) }
        ensures falls { troubles self.old ≡ troubles self.new + cost (outcome_of result) };

    ghost none_read: { (s : Self) → read s s [] };

    ghost reads_on: { (r s t : Self) (xs ys : List Outcome) → read r s xs → read s t ys → read r t (xs ++ ys) };

    ghost few: { (s : Self) → troubles s ≤ 65535 };
}

// No marks: every frame joins once.
#[derive(Clone, Copy, Debug)]
pub struct NoMarks;

impl MarkSource for NoMarks {
    ghost troubles = { λ _. 0 };

    ghost read = { CleanRan };

    ghost none_read = { λ s. refl };

    ghost reads_on = { λ r s t xs ys a b. all_once xs ys a b };

    ghost few = { λ s. omega arith };

    fn troubles_left(&self) -> u32 {
        0
    }

    fn next(&mut self) -> Mark {
        Mark::Once
    }
}
