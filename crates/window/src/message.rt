// The messages between the coordinator and the offices, and the byte of each.
ghost use Rattle.std.specs.Prelude.{◌≡◌, ◌^◌, ◌<◌};

// Each names a step: an office signals a slack of it, and the coordinator tells that it starts, or that the window closed at it.
#[derive(Clone, Copy)]
pub enum Message {
    Signal(u32),
    Start(u32),
    Close(u32),
}

// A byte that says nothing.
#[derive(Clone, Copy)]
pub struct NoMessage;

impl TryFrom<u8> for Message {
    ghost use Rattle.std.specs.Result.{result_ok};
    ghost use Rattle.window.specs.Parts.{message};

    type Error = NoMessage;

    ghost try_from_gives = { λ byte r. result_ok r ≡ message byte };

    fn try_from(byte: u8) -> Result<Message, NoMessage> {
        let step = u32::from(byte % 32);
        match byte / 32 {
            1 => Ok(Message::Signal(step)),
            2 => Ok(Message::Start(step)),
            3 => Ok(Message::Close(step)),
            _ => Err(NoMessage),
        }
    }
}

impl Message {
    ghost use Rattle.window.specs.Parts.{byte_of};

    // One byte: 32 times the kind, and the step.
    // Kept: a method that asks for a byte that fits, since a step with a bound of its own would put a proof into the definition of what a byte says.
    pub fn to_byte(self) -> u8
        requires { byte_of self < 2 ^ 8 }
        ensures { result ≡ byte_of self }
    {
        match self {
            Message::Signal(step) => (32 + step) as u8,
            Message::Start(step) => (64 + step) as u8,
            Message::Close(step) => (96 + step) as u8,
        }
    }
}
