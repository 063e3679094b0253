//! One row, made field by field in room that is there.

ghost use Rattle.std.specs.Prelude.{◌≡◌, ◌+◌, ◌≤◌, ◌<◌, ◌^◌, ◌∷◌, ◌++◌, [], length, decimal, IfOk};
ghost use Rattle.bk_tables.specs.Csv.{number_or_nothing};

use itoa::write_digits;
use std::alloc::{AllocError, Global};
use std::marker::Model;

// No row has more bytes.
const ROOM: usize = 512;

/// The fields of a row so far, each with the byte that ends it. No call but `new` takes memory.
#[derive(Drop)]
pub(crate) struct Line {
    bytes: Vec<u8>,
}

impl Model for Line {
    ghost use Rattle.std.specs.Prelude.{ℕ, List, ◌≤◌};
    ghost use Rattle.std.specs.Vec.{vec_capacity};

    ghost Value = { List ℕ };

    ghost view = { λ l. l.bytes.items };

    ghost invariant = { λ l. 512 ≤ vec_capacity l.bytes };
}

impl Line {
    /// No field.
    pub fn new(alloc: Global) -> Result<Line, AllocError>
        ensures { IfOk result (λ l. l ≡ []) }
    {
        Ok(Line {
            bytes: Vec::with_capacity(alloc, ROOM)?,
        })
    }

    /// Its bytes.
    pub fn as_slice(&self) -> &[u8]
        ensures { result.now ≡ self.now }
    {
        self.bytes.as_slice()
    }

    /// Drops all fields.
    pub fn clear(&mut self)
        ensures { self.new ≡ [] }
    {
        self.bytes.clear();
    }

    /// Puts bytes.
    #[inline(always)]
    pub fn put(&mut self, text: &[u8])
        requires { length self.old + length text.now ≤ 512 }
        ensures { self.new ≡ self.old ++ text.now }
    {
        self.bytes.extend_from_slice(text).unwrap();
    }

    /// Puts a number and the byte that ends its field.
    #[inline(always)]
    pub fn put_number(&mut self, number: u64, end: u8)
        requires { length self.old + 21 ≤ 512 }
        ensures text { self.new ≡ self.old ++ (decimal number ++ end ∷ []) }
        ensures size { length self.new ≤ length self.old + 21 }
    {
        let mut text = [0; 21];
        text[20] = end;
        let start = write_digits(number, &mut text, 20);
        self.put(&text[start..]);
    }

    /// Puts a number, or nothing, and the byte that ends the field.
    pub fn put_optional(&mut self, number: Option<u64>, end: u8)
        requires { length self.old + 21 ≤ 512 }
        ensures text { self.new ≡ self.old ++ (number_or_nothing number ++ end ∷ []) }
        ensures size { length self.new ≤ length self.old + 21 }
    {
        match number {
            Some(number) => self.put_number(number, end),
            None => self.put(&[end]),
        }
    }
}
