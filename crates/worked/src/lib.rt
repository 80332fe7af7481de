// The worked days and sends of the documents, as one theorem about the rules and the alternating bit.
#![tactic(auto)]

ghost use Rattle.worked.specs.Worked.{WorkedDaysAndSends};

// Every worked day and every worked send comes out as it is written down.
pub fn worked_days_and_sends()
    ensures { WorkedDaysAndSends }
{}
