ghost use Rattle.std.specs.Prelude.{◌≡◌, List, ℕ, IfNone, option_map};
ghost use Rattle.std.specs.Int.{w8, w16, w32, w64};
ghost use Rattle.bk_base.specs.Numbers.{number_at, bytes_at};

use std::marker::Model;

/// A reader of fixed fields from the front of a slice, big-endian. Contracts see it as the bytes that are left.
///
/// Each reader answers `None` where too few bytes are left, and then takes none.
#[derive(Debug, Drop)]
pub struct Fields<'a> {
    rest: &'a [u8],
}

impl<'a> Model for Fields<'a> {
    ghost use Rattle.std.specs.Prelude.{ℕ, List};

    ghost Value = { List ℕ };

    ghost view = { λ f. f.rest.now };
}

impl<'a> Fields<'a> {
    /// A reader of all of `bytes`.
    pub fn new(bytes: &'a [u8]) -> Self
        ensures { result ≡ bytes.now }
    {
        Fields { rest: bytes }
    }

    /// The bytes that are left.
    pub fn rest(&self) -> &'a [u8]
        ensures { result.now ≡ self.now }
    {
        self.rest
    }

    /// One byte.
    pub fn u8(&mut self) -> Option<u8>
        ensures found { option_map (λ n. (n, self.new)) result ≡ number_at w8 self.old }
        ensures none { IfNone result (self.new ≡ self.old) }
    {
        let (first, rest) = self.rest.split_first()?;
        self.rest = rest;
        Some(*first)
    }

    /// Two bytes.
    pub fn u16(&mut self) -> Option<u16>
        ensures found { option_map (λ n. (n, self.new)) result ≡ number_at w16 self.old }
        ensures none { IfNone result (self.new ≡ self.old) }
    {
        if self.rest.len() < 2 {
            return None;
        }
        let (front, rest) = self.rest.split_at(2);
        self.rest = rest;
        Some(u16::from_be_bytes([front[0], front[1]]))
    }

    /// Four bytes.
    pub fn u32(&mut self) -> Option<u32>
        ensures found { option_map (λ n. (n, self.new)) result ≡ number_at w32 self.old }
        ensures none { IfNone result (self.new ≡ self.old) }
    {
        if self.rest.len() < 4 {
            return None;
        }
        let (front, rest) = self.rest.split_at(4);
        self.rest = rest;
        Some(u32::from_be_bytes([front[0], front[1], front[2], front[3]]))
    }

    /// Eight bytes.
    pub fn u64(&mut self) -> Option<u64>
        ensures found { option_map (λ n. (n, self.new)) result ≡ number_at w64 self.old }
        ensures none { IfNone result (self.new ≡ self.old) }
    {
        if self.rest.len() < 8 {
            return None;
        }
        let (front, rest) = self.rest.split_at(8);
        self.rest = rest;
        Some(u64::from_be_bytes([
            front[0], front[1], front[2], front[3], front[4], front[5], front[6], front[7],
        ]))
    }

    /// This many bytes, as they are.
    pub fn take(&mut self, len: usize) -> Option<&'a [u8]>
        ensures found { option_map (λ s. (s.now, self.new)) result ≡ bytes_at len self.old }
        ensures none { IfNone result (self.new ≡ self.old) }
    {
        if self.rest.len() < len {
            return None;
        }
        let (front, rest) = self.rest.split_at(len);
        self.rest = rest;
        Some(front)
    }
}
