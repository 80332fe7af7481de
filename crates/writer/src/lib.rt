// Lines of output, built up in a list of bytes: the caller's own, or one that a struct holds.
#![tactic(auto)]

ghost use Rattle.std.specs.Prelude.{◌≡◌, ℕ, List, [], ◌∷◌, ◌++◌, IfSome, OnOk};
ghost use Rattle.reader.specs.Lists.{commas};
ghost use Rattle.reader.specs.Readings.{line};

mod appending;

pub use appending::{push_line, push_number, push_number_line, push_numbers};
use std::alloc::{AllocError, Global};
use std::fmt::Display;
use std::marker::Model;

// The lines so far.
#[derive(Drop)]
pub struct Lines {
    bytes: Vec<u8>,
}

// Callers see the bytes.
impl Model for Lines {
    ghost Value = { List ℕ };

    ghost view = { λ lines. lines.bytes.items };
}

impl Lines {
    // No line yet.
    pub fn new(heap: Global) -> Lines
        ensures { result ≡ [] }
    {
        Lines {
            bytes: Vec::new(heap),
        }
    }

    // Bytes of a line.
    pub fn push(&mut self, bytes: &[u8]) -> Result<(), AllocError>
        ensures { OnOk result (self.new ≡ self.old ++ bytes.now) }
    {
        self.bytes.extend_from_slice(bytes)
    }

    // The end of a line.
    pub fn end_line(&mut self) -> Result<(), AllocError>
        ensures { OnOk result (self.new ≡ self.old ++ 10 ∷ []) }
    {
        self.push(b"\n")
    }

    // One line more: a key, a value and a line end.
    pub fn push_line(&mut self, key: &[u8], value: &[u8]) -> Result<(), AllocError>
        ensures { OnOk result (self.new ≡ self.old ++ line key.now value.now []) }
    {
        push_line(&mut self.bytes, key, value)
    }

    // The digits of a number.
    pub fn push_number<N: Display + Copy>(&mut self, number: N) -> Result<(), AllocError>
        ensures { OnOk result (IfSome (N.output number) (λ digits. self.new ≡ self.old ++ digits)) }
    {
        let digits = number.to_string(*self.bytes.allocator())?;
        self.push(digits.as_bytes())
    }

    // One line more with a number for its value.
    pub fn push_number_line<N: Display + Copy>(
        &mut self,
        key: &[u8],
        number: N,
    ) -> Result<(), AllocError>
        ensures { OnOk result (IfSome (N.output number) (λ digits. self.new ≡ self.old ++ line key.now digits [])) }
    {
        let digits = number.to_string(*self.bytes.allocator())?;
        self.push_line(key, digits.as_bytes())
    }

    // Numbers with commas between.
    pub fn push_numbers(&mut self, numbers: &[u32]) -> Result<(), AllocError>
        ensures { OnOk result (self.new ≡ self.old ++ commas numbers.now) }
    {
        push_numbers(*self.bytes.allocator(), &mut self.bytes, numbers)
    }

    // All lines, as bytes.
    pub fn into_bytes(self) -> Vec<u8>
        ensures { result.items ≡ self }
    {
        let Lines { bytes } = self;
        bytes
    }
}
