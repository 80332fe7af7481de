// The reader's calls. Each ends past what it accepted, or, at a fault, at the fault's place.
ghost use Rattle.std.specs.Prelude.{◌≡◌, IfOk, ℕ, Bool, ◌+◌, ◌≤◌, true, length, drop, if◌then◌else◌, ◌==◌, nat_lt};
ghost use Rattle.std.specs.Fn.{FnOnceReturnsAtMut};
ghost use Rattle.reader.specs.Lines.{LineBy};
ghost use Rattle.std.specs.Str.{all_ascii_digits};
ghost use Rattle.fault.specs.Faults.{fault as fault_at};
ghost use Rattle.fault.specs.declared.Refusal.TheVariants.{OutOfRange};
ghost use Rattle.reader.specs.Bytes.{run, line_end};
ghost use Rattle.reader.specs.Readings.{begins_at, expect as expected, end_line, end_text, digits_value, number_here, number_if as numbers_if, number_in as numbers_in, line_of};
ghost use Rattle.reader.specs.Readers.{text_of, Answers, Computes, Moves, SameText};

use crate::{ByteKind, Reader, line_end_length};
use fault::{Fault, Layer, Refusal};

// The longest number that the texts hold has eight digits.
const MOST_DIGITS: usize = 8;

// How many bytes of one kind stand at the front.
fn run_length(bytes: &[u8], kind: ByteKind) -> usize
    ensures { result ≡ length (run kind bytes.now) }
{
    bytes.iter().take_while(|byte| kind.holds(**byte)).count()
}

// The number that at most eight digits write.
// Kept: a `for`, since a fold's closure has no bound on the value so far; tried, and what `fold` asks of it stayed open.
#[tactic(auto, using(crate::proofs::Scan::digit_low, crate::proofs::Scan::value_small))]
fn value_of(digits: &[u8]) -> u32
    requires digits { all_ascii_digits digits.now ≡ true }
    requires few { length digits.now ≤ 8 }
    ensures value { result ≡ digits_value 0 digits.now }
{
    let mut value = 0u32;
    for digit in digits {
        value = value * 10 + u32::from(*digit - b'0');
    }
    value
}

impl<'a> Reader<'a> {
    // A reader at the start of a text whose faults name `layer`.
    pub fn new(layer: Layer, text: &'a [u8]) -> Reader<'a>
        ensures layer { result.layer ≡ layer }
        ensures text { result.text ≡ text.entry }
        ensures place { result.place ≡ 0 }
    {
        Reader {
            layer,
            text,
            place: 0,
        }
    }

    // The fault of what stands here.
    pub fn fault(&self, refusal: Refusal) -> Fault
        ensures value { result ≡ fault_at self.now.layer refusal self.now.place }
    {
        self.layer.fault(refusal, self.place)
    }

    // What is left of the text.
    fn rest(&self) -> &'a [u8]
        ensures value { result.now ≡ drop self.now.place (text_of self.now) }
    {
        &self.text[self.place..]
    }

    // Whether the text ends here.
    pub fn at_end(&self) -> bool
        ensures value { result ≡ (self.now.place == (length (text_of self.now))) }
    {
        self.place == self.text.len()
    }

    // Whether a line ends here.
    pub fn at_line_end(&self) -> bool
        ensures value { result ≡ nat_lt 0 (line_end (drop self.now.place (text_of self.now))) }
    {
        line_end_length(self.text, self.place) > 0
    }

    // Whether `word` stands here.
    pub fn stands(&self, word: &[u8]) -> bool
        ensures value { result ≡ begins_at (text_of self.now) self.now.place word.now }
    {
        self.rest().starts_with(word)
    }

    // Moves past `word` where it stands here, and tells whether it does.
    pub fn skip(&mut self, word: &[u8]) -> bool
        ensures value { result ≡ begins_at (text_of self.old) self.old.place word.now }
        ensures moves { Moves (if result then length word.now else 0) self.old self.new }
    {
        if !self.stands(word) {
            return false;
        }
        self.place += word.len();
        true
    }

    // Moves past `word`, which is to stand here.
    pub fn expect(&mut self, word: &[u8]) -> Result<(), Fault>
        ensures { Answers (expected word.now) self.old result self.new }
    {
        if self.skip(word) {
            Ok(())
        } else {
            Err(self.fault(Refusal::NotAsExpected))
        }
    }

    // Moves past the line end that is to stand here.
    pub fn end_line(&mut self) -> Result<(), Fault>
        ensures { Answers end_line self.old result self.new }
    {
        let length = line_end_length(self.text, self.place);
        if length == 0 {
            return Err(self.fault(Refusal::NotAsExpected));
        }
        self.place += length;
        Ok(())
    }

    // Nothing is to follow.
    pub fn end_text(&self) -> Result<(), Fault>
        ensures { Answers end_text self.now result self.now }
    {
        if self.at_end() {
            Ok(())
        } else {
            Err(self.fault(Refusal::BytesAfterEnd))
        }
    }

    // The longest run of bytes of one kind that stands here, as a part of the text.
    fn run_here(&self, kind: ByteKind) -> &'a [u8]
        ensures value { result.now ≡ run kind (drop self.now.place (text_of self.now)) }
        ensures bound { self.now.place + length result.now ≤ length (text_of self.now) }
    {
        let rest = self.rest();
        &rest[..run_length(rest, kind)]
    }

    // Moves past the longest run of bytes of one kind that stands here, and hands it out as a part of the text.
    pub fn take_run(&mut self, kind: ByteKind) -> &'a [u8]
        ensures value { result.now ≡ run kind (drop self.old.place (text_of self.old)) }
        ensures moves { Moves (length result.now) self.old self.new }
    {
        let run = self.run_here(kind);
        self.place += run.len();
        run
    }

    // The number that stands here: one to eight digits, with no zero before another. The reader stays.
    #[tactic(auto, using(crate::proofs::Scan::all_digits))]
    pub fn number_here(&self) -> Result<u32, Fault>
        ensures value { result ≡ number_here self.now.layer (text_of self.now) self.now.place }
    {
        let digits = self.run_here(ByteKind::Digit);
        let count = digits.len();
        if !(1..=MOST_DIGITS).contains(&count) || (count > 1 && digits[0] == b'0') {
            return Err(self.fault(Refusal::NotANumber));
        }
        Ok(value_of(digits))
    }

    // Moves past a number that passes a test; another number is refused with `refusal`.
    // Kept: `same` beside `value`, since it holds also where no test tells what `allowed` answers.
    pub fn number_if<F: FnOnce(u32) -> bool>(
        &mut self,
        allowed: F,
        refusal: Refusal,
    ) -> Result<u32, Fault>
        requires { F.IsAlwaysCallable allowed }
        ensures value { (test : ℕ → Bool) → Computes (F.post allowed) test → Answers (numbers_if test refusal) self.old result self.new }
        ensures passed { IfOk result (λ number. F.post allowed number true) }
        ensures same { SameText self.old self.new }
        ensures forward { self.old.place ≤ self.new.place }
    {
        let number = self.number_here()?;
        if !allowed(number) {
            return Err(self.fault(refusal));
        }
        self.take_run(ByteKind::Digit);
        Ok(number)
    }

    // Moves past a number from `low` to `high`; another number is refused with `refusal`.
    pub fn number_in(&mut self, low: u32, high: u32, refusal: Refusal) -> Result<u32, Fault>
        ensures { Answers (numbers_in low high refusal) self.old result self.new }
    {
        self.number_if(|number| (low..=high).contains(&number), refusal)
    }

    // Moves past a line: a key, what `body` reads, and a line end.
    pub fn line<T: Drop, E: From<Fault>, F: FnOnce(&mut Reader<'a>) -> Result<T, E>>(
        &mut self,
        key: &[u8],
        body: F,
    ) -> Result<T, E>
        requires { F.IsAlwaysCallable body }
        ensures { LineBy E.from_gives (FnOnceReturnsAtMut F.FnOnce body) key.now self.old result self.new }
    {
        self.expect(key)?;
        let value = body(self)?;
        self.end_line()?;
        Ok(value)
    }

    // Moves past a line: a key, a number from `low` to `high` and a line end.
    pub fn number_line(&mut self, key: &[u8], low: u32, high: u32) -> Result<u32, Fault>
        ensures { Answers (line_of key.now (numbers_in low high OutOfRange)) self.old result self.new }
    {
        self.line(
            key,
            |reader| reader.number_in(low, high, Refusal::OutOfRange),
        )
    }
}
