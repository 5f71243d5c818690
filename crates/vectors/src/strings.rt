// The strings that the vectors are cut from, made from their kind and length alone.
use std::fmt;

// The kinds of string, by the number that a line gives.
#[derive(Clone, Copy, PartialEq, Eq)]
pub enum Kind {
    Zeros,
    Sevens,
    Random,
    // Random bytes of four values.
    FourValues,
    Samples,
    // A random block of 37 bytes over and over.
    Repeated,
    Ruler,
}

const BLOCK: usize = 37;

const FACTOR: u64 = 6364136223846793005;

const INCREMENT: u64 = 1442695040888963407;

// Byte i of 12-bit samples in 16 bits, high byte first: a triangle of 1,000 samples between 0 and 4,000.
fn sample_byte(i: usize) -> u8 {
    let t = i / 2 % 1000;
    let value = if t < 500 { 8 * t } else { 8 * (1000 - t) };
    let [high, low] = (value as u16).to_be_bytes();
    if i % 2 == 0 { high } else { low }
}

// Byte i of a ruler, with a mark at every 560th, 80th, 10th and 2nd byte: such a string has many nodes at every level.
fn ruler_byte(i: usize) -> u8 {
    if i % 560 == 0 {
        98
    } else if i % 80 == 0 {
        249
    } else if i % 10 == 0 {
        215
    } else if i % 2 == 0 {
        122
    } else {
        230
    }
}

impl Kind {
    // Byte i of a string of the kind, where `random` is the generator's for it.
    fn byte_at(self, i: usize, random: u8) -> u8 {
        match self {
            Kind::Zeros => 0,
            Kind::Sevens => 7,
            Kind::FourValues => random / 64,
            Kind::Samples => sample_byte(i),
            Kind::Ruler => ruler_byte(i),
            Kind::Random | Kind::Repeated => random,
        }
    }

    pub fn fill(self, string: &mut [u8]) {
        let mut x = string.len() as u64 % 131072 * 8 + self as u64;
        for i in 0..string.len() {
            x = x.wrapping_mul(FACTOR).wrapping_add(INCREMENT);
            string[i] = if self == Kind::Repeated && BLOCK <= i {
                string[i - BLOCK]
            } else {
                let [random, ..] = x.to_be_bytes();
                self.byte_at(i, random)
            };
        }
    }

    // A string of the kind and so many bytes, or as many as the buffer has, at the buffer's front.
    pub fn string(self, buffer: &mut [u8], length: usize) -> &mut [u8] {
        let length = length.min(buffer.len());
        let string = &mut buffer[..length];
        self.fill(string);
        string
    }
}

impl fmt::Display for Kind {
    fn fmt<W: fmt::Write>(&self, f: &mut fmt::Formatter<W>) -> fmt::Result {
        let number = *self as u8;
        write!(f, "{number}")
    }
}

// The middle byte is one more, 0 after 255.
pub fn change(string: &mut [u8]) {
    let middle = string.len() / 2;
    if middle < string.len() {
        string[middle] = string[middle].wrapping_add(1);
    }
}
