// Numbers with commas between.
ghost use Rattle.std.specs.Prelude.{List, ℕ, [], Bool, vec_items};
ghost use Rattle.reader.specs.Answers.{GivesAt};
ghost use Rattle.reader.specs.Lists.{numbers as numbers_text, further, ComputesAfter};
ghost use Rattle.reader.specs.Readers.{text_of, SameText};
ghost use Rattle.reader.specs.Readings.{number_if};

use crate::{Reader, words};
use fault::{Failure, Refusal};
use std::alloc::Global;

impl<'a> Reader<'a> {
    // Moves past one number or more with commas between. Each is to pass a test, which is told those before it; another is refused with `refusal`. A comma after the `most` numbers that there may be is out of range.
    // Kept: `same` beside `value`, since it holds also where no test tells what `allowed` answers.
    pub fn numbers<F: Fn(&[u32], u32) -> bool>(
        &mut self,
        heap: Global,
        most: Option<usize>,
        allowed: F,
        refusal: Refusal,
    ) -> Result<Vec<u32>, Failure>
        requires { F.IsAlwaysCallable allowed }
        ensures value { (test : List ℕ → ℕ → Bool) → ComputesAfter (F.post allowed) test → GivesAt vec_items (numbers_text (further most (text_of self.old)) (λ before. number_if (test before) refusal) []) self.old result self.new }
        ensures same { SameText self.old self.new }
    {
        let mut numbers = Vec::new(heap);
        loop {
            let number = self.number_if(|number| allowed(numbers.as_slice(), number), refusal)?;
            numbers.push(number)?;
            if !self.stands(words::COMMA) {
                return Ok(numbers);
            }
            if most.is_some_and(|most| numbers.len() >= most) {
                return Err(self.fault(Refusal::OutOfRange).into());
            }
            self.skip(words::COMMA);
        }
    }
}
