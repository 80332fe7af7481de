// What joins the end of a list of bytes.
ghost use Rattle.std.specs.Prelude.{◌≡◌, [], ◌++◌, decimal, OnOk};
ghost use Rattle.reader.specs.Lists.{commas};
ghost use Rattle.reader.specs.Readings.{line};

use reader::words;
use std::alloc::{AllocError, Global};

// One line more: a key, a value and a line end.
pub fn push_line(out: &mut Vec<u8>, key: &[u8], value: &[u8]) -> Result<(), AllocError>
    ensures { OnOk result (out.new.items ≡ out.old.items ++ line key.now value.now []) }
{
    out.extend_from_slice(key)?;
    out.extend_from_slice(value)?;
    out.push(b'\n')?;
    Ok(())
}

// The digits of a number.
pub fn push_number(heap: Global, out: &mut Vec<u8>, number: u64) -> Result<(), AllocError>
    ensures { OnOk result (out.new.items ≡ out.old.items ++ decimal number) }
{
    let digits = number.to_string(heap)?;
    out.extend_from_slice(digits.as_bytes())
}

// One line more with a number for its value.
pub fn push_number_line(
    heap: Global,
    out: &mut Vec<u8>,
    key: &[u8],
    number: u64,
) -> Result<(), AllocError>
    ensures { OnOk result (out.new.items ≡ out.old.items ++ line key.now (decimal number) []) }
{
    let digits = number.to_string(heap)?;
    push_line(out, key, digits.as_bytes())
}

// Numbers with commas between.
pub fn push_numbers(heap: Global, out: &mut Vec<u8>, numbers: &[u32]) -> Result<(), AllocError>
    ensures { OnOk result (out.new.items ≡ out.old.items ++ commas numbers.now) }
{
    let Some((first, others)) = numbers.split_first() else {
        return Ok(());
    };
    push_number(heap, out, *first as u64)?;
    for other in others {
        out.extend_from_slice(words::COMMA)?;
        push_number(heap, out, *other as u64)?;
    }
    Ok(())
}
