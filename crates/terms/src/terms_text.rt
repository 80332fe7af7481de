// The text of the terms.
ghost use Rattle.std.specs.Prelude.{◌*◌, ◌≤◌, vec_items, IfOk};
ghost use Rattle.fault.specs.declared.Refusal.TheVariants.{OutOfRange};
ghost use Rattle.ladder.specs.Makers.{halving_fits, divisor_fits};
ghost use Rattle.reader.specs.Readings.{number_if};
ghost use Rattle.reader.specs.Readers.{Answers};
ghost use Rattle.reader.specs.Answers.{Gives, GivesAt};
ghost use Rattle.terms.specs.Models.{ladder_model, terms_model};
ghost use Rattle.terms.specs.TermsText.{divisors as divisors_text, ladder as ladder_text, post as post_text, terms as terms_reading, read_terms};

use crate::{LadderChoice, PostChoice, Terms};
use fault::{Failure, Fault, Layer, Refusal};
use ladder::{LARGEST_GRAIN, MOST_STEPS, divisor_fits, halving_fits};
use offices::OfficeCount;
use reader::{Reader, words};
use std::alloc::Global;

// The number of steps of a halving ladder over `grain`.
fn steps(reader: &mut Reader<'_>, grain: u32) -> Result<u32, Fault>
    ensures { Answers (number_if (halving_fits grain) OutOfRange) reader.old result reader.new }
{
    reader.number_if(|steps| halving_fits(grain, steps), Refusal::OutOfRange)
}

// The next divisor, where the grain and the divisors before it make `whole`.
fn divisor(reader: &mut Reader<'_>, whole: u32) -> Result<u32, Fault>
    ensures value { Answers (number_if (divisor_fits whole) OutOfRange) reader.old result reader.new }
    ensures bound { IfOk result (λ d. whole * d ≤ 16777216) }
{
    reader.number_if(|divisor| divisor_fits(whole, divisor), Refusal::OutOfRange)
}

// One to sixteen divisors with commas between.
// Kept: a loop of its own beside `Reader::numbers`, whose test is told the numbers before and would multiply them anew for each; tried, and terms with sixteen divisors took half as long again.
fn divisors(heap: Global, reader: &mut Reader<'_>, grain: u32) -> Result<Vec<u32>, Failure>
    ensures { GivesAt vec_items (divisors_text grain) reader.old result reader.new }
{
    let mut divisors = Vec::new(heap);
    let mut whole = grain;
    loop {
        let next = divisor(reader, whole)?;
        divisors.push(next)?;
        if !reader.stands(words::COMMA) {
            return Ok(divisors);
        }
        if divisors.len() >= MOST_STEPS {
            return Err(reader.fault(Refusal::OutOfRange).into());
        }
        reader.skip(words::COMMA);
        whole *= next;
    }
}

// The ladder: one of its words, and its numbers.
// Kept: memory, reader and grain as parameters: reader and grain go together through `steps`, `divisors` and `ladder`, but a struct of both would be made for one call, and each contract speaks of the reader before and after.
fn ladder(heap: Global, reader: &mut Reader<'_>, grain: u32) -> Result<LadderChoice, Failure>
    ensures { GivesAt ladder_model (ladder_text grain) reader.old result reader.new }
{
    if reader.skip(words::HALVING_WORD) {
        return Ok(LadderChoice::Halving(steps(reader, grain)?));
    }
    if reader.skip(words::LISTED_WORD) {
        return Ok(LadderChoice::Listed(divisors(heap, reader, grain)?));
    }
    Err(reader.fault(Refusal::UnknownWord).into())
}

// The post: one of its words.
fn post(reader: &mut Reader<'_>) -> Result<PostChoice, Fault>
    ensures { Answers post_text reader.old result reader.new }
{
    if reader.skip(words::DIRECT_WORD) {
        Ok(PostChoice::Direct)
    } else if reader.skip(words::BIT_WORD) {
        Ok(PostChoice::Bit)
    } else {
        Err(reader.fault(Refusal::UnknownWord))
    }
}

// The four lines of the terms, with nothing after them.
fn terms(heap: Global, reader: &mut Reader<'_>) -> Result<Terms, Failure>
    ensures { GivesAt terms_model terms_reading reader.old result reader.new }
{
    let offices = reader.number_line(words::OFFICES_KEY, 1, OfficeCount::MOST)?;
    let grain = reader.number_line(words::GRAIN_KEY, 1, LARGEST_GRAIN)?;
    let ladder = reader.line(words::LADDER_KEY, |reader| ladder(heap, reader, grain))?;
    let post = reader.line(words::POST_KEY, post)?;
    reader.end_text()?;
    Ok(Terms {
        offices,
        grain,
        ladder,
        post,
    })
}

// What the text of the terms says, or its first fault.
pub fn read_terms(heap: Global, text: &[u8]) -> Result<Terms, Failure>
    ensures value { Gives terms_model (read_terms text.now) result }
{
    terms(heap, &mut Reader::new(Layer::Terms, text))
}
