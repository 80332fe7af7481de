// The books with what always holds of them: how the coordinator and the offices change their records.
ghost use Rattle.std.specs.Prelude.{◌≡◌, ℕ, ◌+◌, ◌^◌, ◌<◌, ◌≤◌, true, false, length, take, Some, None, IfSome, ◌==◌};
ghost use Rattle.window.specs.Parts.{step_in, is_closed, heard, heard_of, byte_of, signalled, quota, slack, office, Paid, followed, followed_of, moved, due, counted};

use crate::books::{Books, Coordinator, OfficeRecord, Phase};
use crate::message::Message;
use crate::place::Place;

#[derive(Clone, Copy)]
pub struct CheckedBooks {
    pub books: Books,
    ghost tall: { length books.table ≡ 64 },
    ghost from: { 1 ≤ step_in books.coordinator.phase },
    ghost to: { step_in books.coordinator.phase ≤ books.setting.steps },
    ghost few: { books.coordinator.signals ≤ quota books.setting (step_in books.coordinator.phase) },
    ghost going: { is_closed books.coordinator.phase ≡ false → books.coordinator.signals < quota books.setting (step_in books.coordinator.phase) },
    ghost over: { is_closed books.coordinator.phase ≡ true → books.coordinator.signals ≡ quota books.setting (step_in books.coordinator.phase) },
    ghost last: { is_closed books.coordinator.phase ≡ true → step_in books.coordinator.phase ≡ books.setting.steps },
    ghost begun: { (i : ℕ) → i < 64 → 1 ≤ (office books i).step },
    ghost within: { (i : ℕ) → i < 64 → (office books i).step ≤ books.setting.steps },
    ghost left: { (i : ℕ) → i < 64 → (office books i).remainder < slack books.setting (office books i).step },
    ghost paid: { (i : ℕ) → i < 64 → Paid books.setting books.coordinator (office books i) },
}

impl CheckedBooks {
    // The record of the office at the place.
    pub fn record(&self, place: Place) -> OfficeRecord
        ensures { result ≡ office self.now.books place.index }
    {
        self.books.table[place.index as usize]
    }

    // The records of all offices.
    pub fn records(&self) -> &[OfficeRecord]
        ensures { result.now ≡ take self.now.books.setting.offices self.now.books.table }
    {
        &self.books.table[..self.books.setting.offices as usize]
    }

    // Whether one signal more reaches the quota of the coordinator's step.
    fn one_more_is_full(&self) -> bool
        ensures { result ≡ (self.now.books.coordinator.signals + 1 == quota self.now.books.setting (step_in self.now.books.coordinator.phase)) }
    {
        let step = self.books.coordinator.phase.step();
        let divisor = self.books.setting.slack(step - 1) / self.books.setting.slack(step);
        self.books.coordinator.signals + 1 == self.books.setting.offices * (divisor - 1)
    }

    // A signal that does not finish the step.
    fn count_signal(&mut self, place: Place)
        requires going { is_closed self.old.books.coordinator.phase ≡ false }
        requires more { (self.old.books.coordinator.signals + 1 == quota self.old.books.setting (step_in self.old.books.coordinator.phase)) ≡ false }
        ensures { heard_of self.new.books None ≡ signalled place.index self.old.books }
    {
        self.books.credit_slack(place);
        self.books.coordinator.signals += 1;
    }

    // The signal that finishes the step: below the last step the next one starts, at the last the window closes. Gives the message that all offices are told.
    // Kept: `fits` stands beside `did`, since a step with a bound of its own would put a proof into the definition of what a byte says.
    fn finish_step(&mut self, place: Place) -> Message
        requires going { is_closed self.old.books.coordinator.phase ≡ false }
        requires full { (self.old.books.coordinator.signals + 1 == quota self.old.books.setting (step_in self.old.books.coordinator.phase)) ≡ true }
        ensures did { heard_of self.new.books (Some result) ≡ signalled place.index self.old.books }
        ensures fits { byte_of result < 2 ^ 8 }
    {
        let step = self.books.coordinator.phase.step();
        self.books.credit_slack(place);
        if step < self.books.setting.steps {
            self.books.coordinator = Coordinator {
                phase: Phase::Open(step + 1),
                signals: 0,
            };
            return Message::Start(step + 1);
        }
        self.books.coordinator.signals += 1;
        self.books.coordinator.phase = Phase::Closed(step);
        Message::Close(step)
    }

    // The coordinator hears a message from the office at the place, and gives what it then tells all offices, if anything.
    // Kept: `fits` stands beside `did`, since a step with a bound of its own would put a proof into the definition of what a byte says.
    pub fn hear(&mut self, place: Place, message: Option<Message>) -> Option<Message>
        ensures did { heard_of self.new.books result ≡ heard place.index message self.old.books }
        ensures fits { IfSome result (λ m. byte_of m < 2 ^ 8) }
    {
        let phase = self.books.coordinator.phase;
        match (phase, message, self.one_more_is_full()) {
            (Phase::Open(step), Some(Message::Signal(of)), false) if of == step => {
                self.count_signal(place);
                None
            }
            (Phase::Open(step), Some(Message::Signal(of)), true) if of == step => Some(
                self.finish_step(place),
            ),
            _ => None,
        }
    }

    // The office at the place moves to its next step, keeps what is left of its remainder, and gives the number of signals that it owes.
    fn advance(&mut self, place: Place) -> u32
        requires { (office self.old.books place.index).step < self.old.books.setting.steps }
        ensures { followed_of self.new.books result ≡ moved place.index self.old.books }
    {
        let slack = self.books.setting.slack(self.record(place).step + 1);
        let office = &mut self.books.table[place.index as usize];
        let count = office.remainder / slack;
        office.step += 1;
        office.remainder %= slack;
        count
    }

    // The office at the place follows a message, and gives the number of signals that it owes.
    pub fn follow(&mut self, place: Place, message: Option<Message>) -> u32
        ensures { followed_of self.new.books result ≡ followed place.index message self.old.books }
    {
        match message {
            Some(Message::Start(j))
                if j == self.record(place).step + 1 && j <= self.books.setting.steps =>
                self.advance(place),
            _ => 0,
        }
    }

    // A lot at the office at the place; tells whether the office owes a signal.
    pub fn count(&mut self, place: Place) -> bool
        ensures due { result ≡ due place.index self.old.books }
        ensures counted { self.new.books ≡ counted place.index self.old.books }
    {
        let slack = self.books.setting.slack(self.record(place).step);
        let office = &mut self.books.table[place.index as usize];
        let full = office.remainder + 1 == slack;
        office.remainder = if full { 0 } else { office.remainder + 1 };
        full
    }
}
