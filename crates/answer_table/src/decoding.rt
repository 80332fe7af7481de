// Escaped texts: a letter after a backslash stands for one byte, and a number in braces for a length.
ghost use Rattle.std.specs.Prelude.{◌≡◌, IfOk, OnOk};
ghost use Rattle.answer_table.specs.Escapes.{escaped, padded, decoding, decoded};

use std::alloc::{AllocError, Global};

// The longest length that a number asks for.
const LONGEST: usize = 70000;

// Where the decoder stands inside an escape.
// Kept: a state with its value, since each byte is one match on it and a closure would hold the same state.
#[derive(Clone, Copy)]
enum Decoding {
    Plain,
    Escape,
    Count(usize),
}

// The byte that a letter stands for after a backslash.
fn escaped(letter: u8) -> u8
    ensures { result ≡ escaped letter }
{
    match letter {
        b'n' => 10,
        b'r' => 13,
        b's' => b' ',
        b't' => 9,
        b'z' => 0,
        b'h' => 255,
        _ => letter,
    }
}

// Repeats the last byte until there are `count`.
fn pad(out: &mut Vec<u8>, count: usize) -> Result<(), AllocError>
    ensures { OnOk result (out.new.items ≡ padded out.old.items count) }
{
    let last = out.last().copied().unwrap_or(b'\n');
    out.resize(count.max(out.len()), last)
}

// One byte of an escaped text.
fn step(out: &mut Vec<u8>, state: Decoding, byte: u8) -> Result<Decoding, AllocError>
    ensures { IfOk result (λ next. (out.new.items, next) ≡ decoding (out.old.items, state) byte) }
{
    match state {
        Decoding::Plain => {
            if byte == b'\\' {
                return Ok(Decoding::Escape);
            }
            out.push(byte)?;
            Ok(Decoding::Plain)
        }
        Decoding::Escape => {
            if byte == b'{' {
                return Ok(Decoding::Count(0));
            }
            out.push(escaped(byte))?;
            Ok(Decoding::Plain)
        }
        Decoding::Count(count) => {
            if byte.is_ascii_digit() {
                let digit = usize::from(byte - b'0');
                let count = count.saturating_mul(10).saturating_add(digit);
                return Ok(Decoding::Count(count.min(LONGEST)));
            }
            pad(out, count)?;
            Ok(Decoding::Plain)
        }
    }
}

// The text that an escaped text stands for.
pub fn decode(heap: Global, text: &[u8]) -> Result<Vec<u8>, AllocError>
    ensures { IfOk result (λ v. v.items ≡ decoded text.now) }
{
    let mut out = Vec::new(heap);
    let mut state = Decoding::Plain;
    for byte in text {
        state = step(&mut out, state, *byte)?;
    }
    Ok(out)
}
