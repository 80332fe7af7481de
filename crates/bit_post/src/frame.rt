// The frames of the alternating bit, and the numbers that they travel as.
ghost use Rattle.std.specs.Prelude.{◌≡◌};
ghost use Rattle.bit_post.specs.Frames.{frame_number, frame_of};

// A byte with the bit that it is sent with, or the acknowledgement of a bit.
#[derive(Clone, Copy)]
pub(crate) enum Frame {
    Data { bit: bool, byte: u8 },
    Acknowledgement { bit: bool },
}

impl From<Frame> for u16 {
    ghost from_gives = { λ frame number. number ≡ frame_number frame };

    fn from(frame: Frame) -> u16 {
        match frame {
            Frame::Data { bit, byte } => u16::from(byte) + 256 * u16::from(bit),
            Frame::Acknowledgement { bit } => 512 + 256 * u16::from(bit),
        }
    }
}

// A number that is no frame's is given back.
impl TryFrom<u16> for Frame {
    type Error = u16;

    ghost try_from_gives = { λ number frame. frame ≡ frame_of number };

    fn try_from(number: u16) -> Result<Frame, u16> {
        match number {
            0..=511 => Ok(Frame::Data {
                bit: number >= 256,
                byte: (number % 256) as u8,
            }),
            512 => Ok(Frame::Acknowledgement { bit: false }),
            768 => Ok(Frame::Acknowledgement { bit: true }),
            _ => Err(number),
        }
    }
}
