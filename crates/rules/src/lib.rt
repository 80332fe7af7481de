// The counting rules as definitions (specs/), and what holds of every run of lots by them: each function's contract is a theorem.
#![tactic(auto)]

ghost use Rattle.rules.specs.Laws.{EveryRunIsLawful, OrderNeverMatters, EveryListHasOneRun};

// Every list of lots has a run by the rules, and only one.
pub fn every_list_has_one_run()
    ensures { EveryListHasOneRun }
{}

// Where a run closes, and what its books are, by the lots accepted at each office.
pub fn every_run_is_lawful()
    ensures { EveryRunIsLawful }
{}

// Two runs have equal books exactly if each office had equally many lots accepted.
pub fn order_never_matters()
    ensures { OrderNeverMatters }
{}
