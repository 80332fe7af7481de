// What is wrong with a text or a call: the layer that refuses, the refusal, and the place.
#![tactic(auto)]

ghost use Rattle.std.specs.Prelude.{◌≡◌};
ghost use Rattle.fault.specs.Faults.{fault as fault_of, refusal_number, layer_name};

mod failure;

pub use failure::Failure;

// The part of the system that refuses.
#[derive(Clone, Copy, Debug, PartialEq, Eq)]
pub enum Layer {
    Terms,
    Day,
    Report,
    Window,
    Ladder,
    Post,
    Wire,
}

impl Layer {
    // The layer's name as the fault lines print it.
    // Kept: no `Display`, since `name` is a public call and the fault lines copy what it gives as it stands.
    pub fn name(self) -> &'static str
        ensures { result.now ≡ layer_name self }
    {
        match self {
            Layer::Terms => "terms",
            Layer::Day => "day",
            Layer::Report => "report",
            Layer::Window => "window",
            Layer::Ladder => "ladder",
            Layer::Post => "post",
            Layer::Wire => "wire",
        }
    }

    // The layer refuses, at the place.
    pub fn fault(self, refusal: Refusal, place: usize) -> Fault
        ensures { result ≡ fault_of self refusal place }
    {
        Fault {
            layer: self,
            refusal,
            place,
        }
    }
}

// Why it refuses, with the number by which it is known outside.
#[derive(Clone, Copy, Debug, PartialEq, Eq)]
pub enum Refusal {
    // There is no such office or lane.
    NoSuchOfficeOrLane = 1,
    // The window is closed.
    WindowClosed = 2,
    // Sixteen bytes wait on the lane.
    SixteenWait = 3,
    // 65,535 bytes were sent on the lane.
    AllSent = 4,
    // The post was used before the window opened on it.
    PostUsed = 5,
    // More than 14 places of the lane are taken.
    PlacesTaken = 6,
    // There is no such step.
    NoSuchStep = 7,
    // The text has more than 65,535 bytes.
    TextTooLong = 8,
    // An expected key, separator or line end is not there.
    NotAsExpected = 9,
    // There is no digit, a zero before a digit, or more than eight digits.
    NotANumber = 10,
    // The number is outside its range.
    OutOfRange = 11,
    // The ladder or the post does not begin with one of its words.
    UnknownWord = 12,
    // The byte is no mark.
    NotAMark = 13,
    // Bytes follow the last line.
    BytesAfterEnd = 14,
    // The report does not fit its buffer.
    BufferTooShort = 15,
}

impl Refusal {
    // The number by which the refusal is known outside.
    pub fn number(self) -> u32
        ensures { result ≡ refusal_number self }
    {
        self as u32
    }
}

// One fault: in a text the place is an offset from 0, elsewhere the number that was asked for.
#[derive(Clone, Copy, Debug, PartialEq, Eq)]
pub struct Fault {
    pub layer: Layer,
    pub refusal: Refusal,
    pub place: usize,
}
