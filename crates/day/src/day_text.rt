// The text of a day.
ghost use Rattle.std.specs.Prelude.{vec_items};
ghost use Rattle.reader.specs.Answers.{Gives, GivesAt, MarksAt};
ghost use Rattle.day.specs.DayText.{marks as marks_text, lots as lots_text, day as day_reading, read_day};
ghost use Rattle.day.specs.Models.{day_model};

use crate::Day;
use fault::{Failure, Fault, Layer, Refusal};
use reader::{ByteKind, Reader, words};
use std::alloc::Global;

// The marks, as a part of the text.
fn marks<'a>(reader: &mut Reader<'a>) -> Result<&'a [u8], Fault>
    ensures { MarksAt marks_text reader.old result reader.new }
{
    let marks = reader.take_run(ByteKind::Mark);
    if !reader.at_end() && !reader.at_line_end() {
        return Err(reader.fault(Refusal::NotAMark));
    }
    Ok(marks)
}

// The offices with commas between; none where the line ends at once.
fn lots(heap: Global, reader: &mut Reader<'_>, offices: u32) -> Result<Vec<u32>, Failure>
    ensures { GivesAt vec_items (lots_text offices) reader.old result reader.new }
{
    if reader.at_line_end() {
        return Ok(Vec::new(heap));
    }
    reader.numbers(
        heap,
        None,
        |_, office| (1..=offices).contains(&office),
        Refusal::NoSuchOfficeOrLane,
    )
}

// The two lines of a day, with nothing after them.
fn day<'a>(heap: Global, reader: &mut Reader<'a>, offices: u32) -> Result<Day<'a>, Failure>
    ensures { GivesAt day_model (day_reading offices) reader.old result reader.new }
{
    let marks = reader.line(words::MARKS_KEY, marks)?;
    let lots = reader.line(words::LOTS_KEY, |reader| lots(heap, reader, offices))?;
    reader.end_text()?;
    Ok(Day { marks, lots })
}

// What the text of a day says, or its first fault, where there are so many offices.
pub fn read_day<'a>(heap: Global, text: &'a [u8], offices: u32) -> Result<Day<'a>, Failure>
    ensures value { Gives day_model (read_day offices text.now) result }
{
    day(heap, &mut Reader::new(Layer::Day, text), offices)
}
