// A page that is written on from a place on. What falls past its end is left out, so that a page of one byte serves to measure a text.
ghost use Rattle.std.specs.Prelude.{◌≡◌, ◌^◌, ◌<◌, [], ◌∷◌, length};
ghost use Rattle.writing.specs.Written.{decimals, number_text};

use digits::{digit_count, powers_of_ten, take_digit};

mod digits;

/// The bytes of a page, and the place of the next byte.
#[derive(Drop)]
pub(crate) struct Page<'a> {
    bytes: &'a mut [u8],
    pub(crate) at: usize,
}

impl<'a> Page<'a> {
    ghost use Rattle.writing.specs.Page.{Adds};

    // A page with nothing on it yet.
    pub(crate) fn new(bytes: &'a mut [u8]) -> Page<'a>
        ensures same { result.bytes.ghost_name ≡ bytes.entry.ghost_name }
        ensures bytes { result.bytes.now ≡ bytes.old }
        ensures start { result.at ≡ 0 }
    {
        Page { bytes, at: 0 }
    }

    // A byte.
    fn put(&mut self, byte: u8)
        requires { self.old.at < 2 ^ 33 }
        ensures { Adds self.old (byte ∷ []) self.new }
    {
        if self.at < self.bytes.len() {
            self.bytes[self.at] = byte;
        }
        self.at += 1;
    }

    // Bytes as they are.
    #[tactic(auto, using(crate::proofs::Pages::adds_none, crate::proofs::Pages::adds_all))]
    pub(crate) fn put_bytes(&mut self, bytes: &[u8])
        requires { (self.old.at < 2 ^ 32) × (length bytes.now < 2 ^ 32) }
        ensures { Adds self.old bytes.now self.new }
    {
        for b in bytes {
            self.put(*b);
        }
    }

    // The digits of a number that has so many, from the highest on.
    #[tactic(auto, using(crate::proofs::Decimals::decimals_short))]
    fn put_digits(&mut self, n: u64, count: usize)
        requires { (self.old.at < 2 ^ 32) × (count ≡ length (decimals 20 n)) }
        ensures { Adds self.old (decimals 20 n) self.new }
    {
        let powers = powers_of_ten();
        let mut left = n;
        for k in (0..count).rev() {
            let taken = take_digit(left, powers[k]);
            self.put(taken.byte);
            left = taken.left;
        }
    }

    // The digits of a number, without leading zeros. Past the page's end they are only counted. One to three digits, as most numbers of a
    // text have, are called for by name, so that their powers are known where the code is compiled.
    #[tactic(auto, using(crate::proofs::Decimals::decimals_short))]
    fn put_decimal(&mut self, n: u64)
        requires { self.old.at < 2 ^ 32 }
        ensures { Adds self.old (decimals 20 n) self.new }
    {
        let count = digit_count(n);
        if self.bytes.len() <= self.at {
            self.at += count;
            return;
        }
        match count {
            1 => self.put_digits(n, 1),
            2 => self.put_digits(n, 2),
            3 => self.put_digits(n, 3),
            _ => self.put_digits(n, count),
        }
    }

    // A number and the byte after it.
    #[tactic(auto, using(crate::proofs::Decimals::decimals_short))]
    pub(crate) fn put_number(&mut self, n: u64, b: u8)
        requires { self.old.at < 2 ^ 32 }
        ensures { Adds self.old (number_text n b) self.new }
    {
        self.put_decimal(n);
        self.put(b);
    }
}
