// Whether two ladders are the same.
ghost use Rattle.std.specs.Prelude.{Decides};
ghost use Rattle.ladder.specs.Laws.{SameLadder, AnswerAlike};

use crate::Ladder;

// Asks both ladders how many steps they have, and for the slack of each step.
// Kept: a `for` over the steps; tried as `all`, whose clauses stayed open.
pub fn same_ladder<First: Ladder, Second: Ladder>(first: &First, second: &Second) -> bool
    ensures same { Decides result (SameLadder (First.Ladder.steps first.now) (First.Ladder.slack first.now) (Second.Ladder.steps second.now) (Second.Ladder.slack second.now)) }
    ensures alike { Decides result (AnswerAlike (First.Ladder.steps first.now) (First.Ladder.slack first.now) (Second.Ladder.steps second.now) (Second.Ladder.slack second.now)) }
{
    let steps = first.step_count();
    if steps != second.step_count() {
        return false;
    }
    for step in 0..=steps {
        if first.slack_of(step) != second.slack_of(step) {
            return false;
        }
    }
    true
}
