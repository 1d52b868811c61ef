//! A line under composition, number by number and word by word.
ghost use Rattle.std.specs.Prelude.{◌≡◌, ℕ, ◌+◌, ◌/◌, ◌%◌, ◌^◌, ◌<◌, ◌≤◌, List, [], ◌∷◌, ◌++◌, false, length, max, take, drop, replicate, decimal};
ghost use Rattle.std.specs.Fmt.{digit_glyph, digits, signed_decimal};
ghost use Rattle.printed_lines.specs.Columns.{right, left, hex_column};
ghost use Rattle.printed_lines.specs.LineText.{decimal_room, hex_column_room, hex_column_work, hex_room, page_room, signed_room, with_words};
ghost use Rattle.printed_lines.specs.Sinks.{Puts};
ghost use Rattle.printed_lines.specs.Words.{hex, as_line};

use crate::hex_text::{hex_places, write_hex};
use crate::sink::{Failed, Sink, write_all};
use itoa::Buffer;
use std::marker::Model;

/// The most bytes of a page of lines.
pub const CAPACITY: usize = 1024;

static HEX_DIGITS: [u8; 16] = *b"0123456789abcdef";

/// The two decimal digits of each number below 100.
static DECIMAL_PAIRS: [u8; 200] =
    *b"00010203040506070809101112131415161718192021222324252627282930313233343536373839404142434445464748495051525354555657585960616263646566676869707172737475767778798081828384858687888990919293949596979899";

/// The two hexadecimal digits of each number below 256.
static HEX_PAIRS: [u8; 512] =
    *b"000102030405060708090a0b0c0d0e0f101112131415161718191a1b1c1d1e1f202122232425262728292a2b2c2d2e2f303132333435363738393a3b3c3d3e3f404142434445464748494a4b4c4d4e4f505152535455565758595a5b5c5d5e5f606162636465666768696a6b6c6d6e6f707172737475767778797a7b7c7d7e7f808182838485868788898a8b8c8d8e8f909192939495969798999a9b9c9d9e9fa0a1a2a3a4a5a6a7a8a9aaabacadaeafb0b1b2b3b4b5b6b7b8b9babbbcbdbebfc0c1c2c3c4c5c6c7c8c9cacbcccdcecfd0d1d2d3d4d5d6d7d8d9dadbdcdddedfe0e1e2e3e4e5e6e7e8e9eaebecedeeeff0f1f2f3f4f5f6f7f8f9fafbfcfdfeff";

/// A line, or several lines, under composition.
#[derive(Drop)]
pub struct LineText {
    bytes: [u8; CAPACITY],
    len: usize,
}

impl Model for LineText {
    ghost Value = { List ℕ };

    ghost view = { λ l. take l.len l.bytes };

    ghost invariant = { λ l. l.len ≤ page_room };
}

impl LineText {
    /// An empty line.
    #[inline(always)]
    pub fn new() -> LineText
        ensures { result ≡ [] }
    {
        LineText {
            bytes: [0; CAPACITY],
            len: 0,
        }
    }

    /// The number of bytes.
    #[inline(always)]
    pub fn len(&self) -> usize
        ensures { result ≡ length self.now }
    {
        self.len
    }

    /// All bytes.
    #[inline(always)]
    pub fn all(&self) -> &[u8]
        ensures { result.now ≡ self.now }
    {
        &self.bytes[..self.len]
    }

    /// Removes all bytes.
    #[inline(always)]
    pub fn clear(&mut self)
        ensures { self.new ≡ [] }
    {
        self.len = 0;
    }

    /// The bytes after the first one, which is the blank before the first word.
    #[inline(always)]
    pub fn without_blank(&self) -> &[u8]
        requires { 0 < length self.now }
        ensures { result.now ≡ drop 1 self.now }
    {
        &self.bytes[1..self.len]
    }

    /// Appends a line feed, and writes the line, without its first blank, to the sink.
    ///
    /// # Errors
    ///
    /// A write failed.
    #[inline(always)]
    pub fn put<W: Sink>(&mut self, sink: &mut W) -> Result<(), Failed>
        requires failures { W.failures sink.old < 2 ^ 63 }
        requires some { 0 < length self.old }
        requires room { length self.old < CAPACITY }
        ensures ended { self.new ≡ self.old ++ 10 ∷ [] }
        ensures puts { (words : List (List ℕ)) → self.old ≡ with_words [] words
            → Puts W.written W.failures sink.old sink.new result (as_line words) }
    {
        self.text(b"\n");
        write_all(sink, self.without_blank())
    }

    /// Appends the text as it is.
    #[inline(always)]
    pub fn text(&mut self, piece: &[u8])
        requires { length self.old + length piece.now ≤ CAPACITY }
        ensures { self.new ≡ self.old ++ piece.now }
    {
        self.len = write_text(piece, &mut self.bytes, self.len);
    }

    /// Appends a blank and the word.
    #[inline(always)]
    pub fn word(&mut self, word: &[u8])
        requires { length self.old + length word.now < CAPACITY }
        ensures text { self.new ≡ self.old ++ 32 ∷ word.now }
        ensures len { length self.new ≡ length self.old + 1 + length word.now }
    {
        self.text(b" ");
        self.text(word);
    }

    /// Appends a blank and the number.
    #[inline(always)]
    pub fn decimal(&mut self, n: u64)
        requires { length self.old + decimal_room ≤ CAPACITY }
        ensures text { self.new ≡ self.old ++ 32 ∷ decimal n }
        ensures len { length self.new ≤ length self.old + decimal_room }
    {
        self.text(b" ");
        self.decimal_digits(n);
    }

    /// Appends a blank and the number, with a `-` if it is negative.
    #[inline(always)]
    pub fn signed(&mut self, n: i64)
        requires { length self.old + signed_room ≤ CAPACITY }
        ensures text { self.new ≡ self.old ++ 32 ∷ signed_decimal n }
        ensures len { length self.new ≤ length self.old + signed_room }
    {
        if n < 0 {
            self.text(b" -");
            self.decimal_digits(n.unsigned_abs());
        } else {
            self.decimal(n.unsigned_abs());
        }
    }

    /// Appends a blank and the number, in hexadecimal digits after `0x`.
    #[inline(always)]
    #[tactic(auto, using(crate::proofs::Hex::hex_small, crate::proofs::Hex::hex_two))]
    pub fn hex(&mut self, n: u64)
        requires { length self.old + hex_room ≤ CAPACITY }
        ensures text { self.new ≡ self.old ++ 32 ∷ hex n }
        ensures len { length self.new ≤ length self.old + hex_room }
    {
        if n < 16 {
            self.text(&[b' ', b'0', b'x', hex_digit(n)]);
        } else if n < 256 {
            let [high, low] = hex_pair(n);
            self.text(&[b' ', b'0', b'x', high, low]);
        } else {
            self.text(b" 0x");
            self.hex_digits(n);
        }
    }

    /// Appends a blank and the text, right-aligned in a column.
    pub fn right(&mut self, width: usize, text: &[u8])
        requires { length self.old + max width (length text.now) < CAPACITY }
        ensures text { self.new ≡ self.old ++ 32 ∷ right width text.now }
        ensures len { length self.new ≡ length self.old + 1 + max width (length text.now) }
    {
        self.text(b" ");
        self.fill(width.saturating_sub(text.len()), b' ');
        self.text(text);
    }

    /// Appends a blank and the text, left-aligned in a column.
    pub fn left(&mut self, width: usize, text: &[u8])
        requires { length self.old + max width (length text.now) < CAPACITY }
        ensures text { self.new ≡ self.old ++ 32 ∷ left width text.now }
        ensures len { length self.new ≡ length self.old + 1 + max width (length text.now) }
    {
        self.text(b" ");
        self.text(text);
        self.fill(width.saturating_sub(text.len()), b' ');
    }

    /// Appends a blank and the number, right-aligned in a column.
    pub fn right_decimal(&mut self, width: usize, n: u64)
        requires wide { width ≤ 20 }
        requires room { length self.old + decimal_room ≤ CAPACITY }
        ensures text { self.new ≡ self.old ++ 32 ∷ right width (decimal n) }
        ensures len { length self.new ≤ length self.old + decimal_room }
    {
        let mut buffer = Buffer::new();
        self.right(width, buffer.format(n).as_bytes());
    }

    /// Appends a blank and the hexadecimal digits of a number, with leading zeros up to the width.
    pub fn hex_column(&mut self, width: usize, n: u64)
        requires wide { width ≤ 16 }
        requires room { length self.old + hex_column_work ≤ CAPACITY }
        ensures text { self.new ≡ self.old ++ 32 ∷ hex_column width n }
        ensures len { length self.new ≤ length self.old + hex_column_room }
    {
        self.text(b" ");
        self.fill(width.saturating_sub(hex_places(n)), b'0');
        self.hex_digits(n);
    }

    /// Appends a byte `count` times.
    fn fill(&mut self, count: usize, byte: u8)
        requires { length self.old + count ≤ CAPACITY }
        ensures { self.new ≡ self.old ++ replicate count byte }
    {
        let end = self.len + count;
        fill_bytes(&mut self.bytes[self.len..end], count, byte);
        self.len = end;
    }

    /// Appends the decimal digits of `n`.
    #[inline(always)]
    pub fn decimal_digits(&mut self, n: u64)
        requires { length self.old + 20 ≤ CAPACITY }
        ensures text { self.new ≡ self.old ++ decimal n }
        ensures len { length self.new ≤ length self.old + 20 }
    {
        if n < 1000 {
            self.len = write_short_decimal(n, &mut self.bytes, self.len);
        } else {
            self.long_decimal_digits(n);
        }
    }

    /// Appends the decimal digits of a long number. (A function of its own, so the code for short numbers is inlined.)
    #[cold]
    fn long_decimal_digits(&mut self, n: u64)
        requires { length self.old + 20 ≤ CAPACITY }
        ensures text { self.new ≡ self.old ++ decimal n }
        ensures len { length self.new ≤ length self.old + 20 }
    {
        let mut buffer = Buffer::new();
        self.text(buffer.format(n).as_bytes());
    }

    /// Appends the hexadecimal digits of `n`.
    #[inline(always)]
    fn hex_digits(&mut self, n: u64)
        requires { length self.old + 16 ≤ CAPACITY }
        ensures text { self.new ≡ self.old ++ digits 16 false n }
        ensures len { length self.new ≤ length self.old + 16 }
    {
        self.len = write_hex(n, &mut self.bytes, self.len);
    }
}

/// Sets all bytes to this one.
fn fill_bytes(bytes: &mut [u8], count: usize, byte: u8)
    requires { length bytes.old ≡ count }
    ensures { bytes.new ≡ replicate count byte }
{
    bytes.fill(byte);
}

/// Writes the text from `start` on, and returns its end.
#[inline(always)]
fn write_text(piece: &[u8], bytes: &mut [u8], start: usize) -> usize
    requires { start + length piece.now ≤ length bytes.old }
    ensures end { result ≡ start + length piece.now }
    ensures text { take result bytes.new ≡ take start bytes.old ++ piece.now }
    ensures len { length bytes.new ≡ length bytes.old }
{
    let mut end = start;
    for byte in piece {
        bytes[end] = *byte;
        end += 1;
    }
    end
}

/// Writes up to three decimal digits from `start` on, and returns their end.
#[inline(always)]
#[tactic(auto, using(crate::proofs::Decimal::decimal_small, crate::proofs::Decimal::decimal_two, crate::proofs::Decimal::decimal_three))]
fn write_short_decimal(n: u64, bytes: &mut [u8], start: usize) -> usize
    requires small { n < 1000 }
    requires room { start + 3 ≤ length bytes.old }
    ensures end { result ≡ start + length (decimal n) }
    ensures bound { result ≤ start + 3 }
    ensures text { take result bytes.new ≡ take start bytes.old ++ decimal n }
    ensures len { length bytes.new ≡ length bytes.old }
{
    if n < 10 {
        return write_text(&[decimal_digit(n)], bytes, start);
    }
    if n < 100 {
        return write_text(&decimal_pair(n), bytes, start);
    }
    let [tens, ones] = decimal_pair(n % 100);
    write_text(&[decimal_digit(n / 100), tens, ones], bytes, start)
}

/// The two digits of a number below 100.
#[inline(always)]
fn decimal_pair(pair: u64) -> [u8; 2]
    requires { pair < 100 }
    ensures { result ≡ (48 + pair / 10) ∷ (48 + pair % 10) ∷ [] }
{
    let from = pair as usize * 2;
    [DECIMAL_PAIRS[from], DECIMAL_PAIRS[from + 1]]
}

/// The byte of a decimal digit.
#[inline(always)]
fn decimal_digit(digit: u64) -> u8
    requires { digit < 10 }
    ensures { result ≡ 48 + digit }
{
    b'0' + digit as u8
}

/// The two hexadecimal digits of a number below 256.
#[inline(always)]
fn hex_pair(pair: u64) -> [u8; 2]
    requires { pair < 256 }
    ensures { result ≡ digit_glyph false (pair / 16) ∷ digit_glyph false (pair % 16) ∷ [] }
{
    let from = pair as usize * 2;
    [HEX_PAIRS[from], HEX_PAIRS[from + 1]]
}

/// The byte of a hexadecimal digit, in lower case.
#[inline(always)]
fn hex_digit(digit: u64) -> u8
    requires { digit < 16 }
    ensures { result ≡ digit_glyph false digit }
{
    HEX_DIGITS[digit as usize]
}
