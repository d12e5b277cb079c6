// Numbers: their bases and their digits.
ghost use Rattle.std.specs.Prelude.{◌≡◌, drop};
ghost use Rattle.names.specs.Numbers.{radix_of, width, digits_of, base_from};
ghost use Rattle.names.specs.Cases.{NumberTold};

use crate::tokens::behind_first;

// No value is as large.
const LIMIT: u64 = 0x8000_0000_0000_0000;

// The base of a number, in the order of the Rust's `NumberBase`.
#[derive(Clone, Copy)]
enum NumberBase {
    Decimal,
    Hexadecimal,
    Binary,
    Octal,
}

// Why a number has no value: it is 2^63 or more; it is no number.
#[derive(Clone, Copy, PartialEq, Eq)]
pub enum NumberError {
    TooLarge,
    Invalid,
}

// The base of a number token of this detail.
impl TryFrom<u16> for NumberBase {
    type Error = NumberError;

    ghost try_from_gives = { λ detail r. r ≡ base_from detail };

    #[tactic(auto, unfolding(crate::specs::Numbers::base_from, crate::specs::Numbers::base_of))]
    fn try_from(detail: u16) -> Result<Self, NumberError>
        ensures { result ≡ base_from detail }
    {
        match detail {
            0 => Ok(NumberBase::Decimal),
            1 => Ok(NumberBase::Hexadecimal),
            2 => Ok(NumberBase::Binary),
            3 => Ok(NumberBase::Octal),
            _ => Err(NumberError::Invalid),
        }
    }
}

impl NumberBase {
    // A number's text without its prefix.
    #[tactic(auto, unfolding(crate::specs::Numbers::width))]
    fn digits(self, text: &[u8]) -> &[u8]
        ensures { result.now ≡ drop (width self) text.now }
    {
        match self {
            NumberBase::Decimal => text,
            _ => behind_first(text),
        }
    }

    #[tactic(auto, unfolding(crate::specs::Numbers::radix_of))]
    fn radix(self) -> u32
        ensures { result ≡ radix_of self }
    {
        match self {
            NumberBase::Decimal => 10,
            NumberBase::Hexadecimal => 16,
            NumberBase::Binary => 2,
            NumberBase::Octal => 8,
        }
    }
}

// A value stays at 2^63 once it has reached it, so a byte behind it that is no digit is still found.
fn parse_digits(base: NumberBase, digits: &[u8]) -> Result<u64, NumberError>
    ensures { result ≡ digits_of base digits.now }
{
    if digits.is_empty() {
        return Err(NumberError::Invalid);
    }
    let radix = base.radix();
    let mut value: u64 = 0;
    for &byte in digits {
        let digit = char::from(byte)
            .to_digit(radix)
            .ok_or(NumberError::Invalid)?;
        value = value
            .saturating_mul(u64::from(radix))
            .saturating_add(u64::from(digit))
            .min(LIMIT);
    }
    if value < LIMIT {
        Ok(value)
    } else {
        Err(NumberError::TooLarge)
    }
}

// What a number token of this detail and text is worth.
pub fn parse_number(detail: u16, text: &[u8]) -> Result<u64, NumberError>
    ensures { NumberTold detail text.now result }
{
    let base = NumberBase::try_from(detail)?;
    parse_digits(base, base.digits(text))
}
