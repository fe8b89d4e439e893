// Mode A/C replies: their data, its four digits and refusal 10; and the twelve bits of the data with their positions, each by a table of twelve.
#![tactic(auto)]

ghost use Rattle.std.specs.Prelude.{◌≡◌, ◌%◌};
ghost use Rattle.mode_ac.specs.Data.{digit_a, digit_b, digit_c, digit_d, digits_of, bit_of};
ghost use Rattle.mode_ac.specs.Building.{from_data, from_digits};
ghost use Rattle.mode_ac.specs.Positions.{position_of};

use refusals::Refusal;

#[derive(Clone, Copy)]
pub struct ModeACReply {
    pub data: u16,
    pub spi: bool,
}

#[derive(Clone, Copy)]
pub struct Digits {
    pub a: u8,
    pub b: u8,
    pub c: u8,
    pub d: u8,
}

// The lowest octal digit of a number.
fn octal(x: u16) -> u8
    ensures { result ≡ x % 8 }
{
    (x % 8) as u8
}

impl ModeACReply {
    // Data of 4096 or more is refused.
    #[tactic(auto, unfolding(crate::specs::Building::from_data))]
    pub fn new(data: u16, spi: bool) -> Result<ModeACReply, Refusal>
        ensures { result ≡ from_data «data» spi }
    {
        if data < 4096 {
            Ok(ModeACReply { data, spi })
        } else {
            Err(Refusal::Reply)
        }
    }

    // A digit of 8 or more is refused.
    #[tactic(auto, unfolding(crate::specs::Building::from_digits, crate::specs::Building::from_data))]
    pub fn from_abcd(a: u8, b: u8, c: u8, d: u8, spi: bool) -> Result<ModeACReply, Refusal>
        ensures { result ≡ from_digits a b c d spi }
    {
        if a >= 8 || b >= 8 || c >= 8 || d >= 8 {
            return Err(Refusal::Reply);
        }
        let data = u16::from(a) * 512 + u16::from(b) * 64 + u16::from(c) * 8 + u16::from(d);
        ModeACReply::new(data, spi)
    }

    pub fn a(self) -> u8
        ensures { result ≡ digit_a self.data }
    {
        octal(self.data / 512)
    }

    pub fn b(self) -> u8
        ensures { result ≡ digit_b self.data }
    {
        octal(self.data / 64)
    }

    pub fn c(self) -> u8
        ensures { result ≡ digit_c self.data }
    {
        octal(self.data / 8)
    }

    pub fn d(self) -> u8
        ensures { result ≡ digit_d self.data }
    {
        octal(self.data)
    }

    pub fn abcd(self) -> Digits
        ensures { result ≡ digits_of self.data }
    {
        Digits {
            a: self.a(),
            b: self.b(),
            c: self.c(),
            d: self.d(),
        }
    }
}

// Where each bit stands in the data, counted from the lowest one.
const SHIFTS: [u16; 12] = [3, 9, 4, 10, 5, 11, 6, 0, 7, 1, 8, 2];

// The position of the n-th bit: every third from 3 on, with one left out in the middle.
#[tactic(auto, unfolding(crate::specs::Positions::position_of))]
pub fn position_of(n: usize) -> usize
    ensures { result ≡ position_of n }
{
    if n < 6 {
        3 * (n + 1)
    } else if n < 12 {
        3 * (n + 2)
    } else {
        0
    }
}

// The n-th bit of the data.
#[tactic(auto, using(crate::proofs::Shifts::bit_by_shift, crate::proofs::Shifts::no_bit))]
pub fn bit_of(data: u16, n: usize) -> bool
    ensures { result ≡ bit_of «data» n }
{
    n < 12 && (data >> (SHIFTS[n] % 16)) % 2 == 1
}
