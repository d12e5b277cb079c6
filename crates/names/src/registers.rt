// Registers by name. A register is its mask index: d0 to d7 are 0 to 7, a0 to a7 are 8 to 15, and `sp` is a7.
ghost use Rattle.std.specs.Prelude.{◌≡◌, Some, length};
ghost use Rattle.names.specs.Letters.{lower};
ghost use Rattle.names.specs.Registers.{first_of_bank, program_counter, special_of, reserved};
ghost use Rattle.names.specs.Cases.{special_number, RegisterTold, SpecialTold, SuppressedTold};

use crate::letters::{lower, spells};

// The last digit of a register.
const LAST_DIGIT: u8 = b'7';

// The special registers, in the order of the Rust's `SpecialRegister`.
#[derive(Clone, Copy, PartialEq, Eq)]
pub enum SpecialRegister {
    Sr = 1,
    Ccr,
    Usp,
    Sfc,
    Dfc,
    Vbr,
    Cacr,
    Caar,
    Msp,
    Isp,
}

// The number that a record has. No plainer form for this and the eight others like it: `rt ci` refuses an own macro or derive, and the
// library has none.
impl From<SpecialRegister> for u8 {
    ghost from_gives = { λ x n. n ≡ special_number (Some x) };

    fn from(x: SpecialRegister) -> u8
        ensures { result ≡ special_number (Some x) }
    {
        x as u8
    }
}

// What is written with a `z`: a register, by its mask index, or the program counter.
#[derive(Clone, Copy, PartialEq, Eq)]
pub enum Suppressed {
    Register(u8),
    ProgramCounter,
}

// The first register of the bank that a letter stands for, d0 or a0.
fn first_of_bank(letter: u8) -> Option<u8>
    ensures { result ≡ first_of_bank (lower letter) }
{
    match lower(letter) {
        b'd' => Some(0),
        b'a' => Some(8),
        _ => None,
    }
}

// `sp`, or a bank's letter and then a digit. A digit has no capital, so it is not lowered.
pub fn parse_register(name: &[u8]) -> Option<u8>
    ensures { RegisterTold name.now result }
{
    let &[bank, digit] = name else {
        return None;
    };
    if spells(name, b"sp") {
        return Some(15);
    }
    let first = first_of_bank(bank);
    if !(b'0'..=LAST_DIGIT).contains(&digit) {
        return None;
    }
    Some(digit - b'0' + first?)
}

#[tactic(auto, unfolding(crate::specs::Registers::program_counter))]
pub fn is_program_counter(name: &[u8]) -> bool
    ensures { result ≡ program_counter name.now }
{
    spells(name, b"pc")
}

// A name of three letters: the first one leaves one register, or none. By index, under the clause of its length: a pattern would need an arm that
// never comes, which is no plainer.
fn of_three(name: &[u8]) -> Option<SpecialRegister>
    requires { length name.now ≡ 3 }
    ensures { result ≡ special_of name.now }
{
    let (word, register) = match lower(name[0]) {
        b'c' => (b"cr", SpecialRegister::Ccr),
        b'u' => (b"sp", SpecialRegister::Usp),
        b's' => (b"fc", SpecialRegister::Sfc),
        b'd' => (b"fc", SpecialRegister::Dfc),
        b'v' => (b"br", SpecialRegister::Vbr),
        b'm' => (b"sp", SpecialRegister::Msp),
        b'i' => (b"sp", SpecialRegister::Isp),
        _ => return None,
    };
    spells(&name[1..], word).then_some(register)
}

// A name of four letters: `cacr` or `caar`, which the third one tells apart. So it comes last, and `r` is compared in one place.
fn of_four(name: &[u8]) -> Option<SpecialRegister>
    requires { length name.now ≡ 4 }
    ensures { result ≡ special_of name.now }
{
    if lower(name[0]) != b'c' || lower(name[1]) != b'a' || lower(name[3]) != b'r' {
        return None;
    }
    match lower(name[2]) {
        b'c' => Some(SpecialRegister::Cacr),
        b'a' => Some(SpecialRegister::Caar),
        _ => None,
    }
}

// A special register is told by the name's length, then letter by letter in place: no more than four are looked at.
#[tactic(auto, using(crate::proofs::registers::Specials::special_other))]
fn by_length(name: &[u8]) -> Option<SpecialRegister>
    ensures { result ≡ special_of name.now }
{
    match name.len() {
        2 => spells(name, b"sr").then_some(SpecialRegister::Sr),
        3 => of_three(name),
        4 => of_four(name),
        _ => None,
    }
}

impl SpecialRegister {
    // Most names are labels, which are longer: they are left without a call.
    #[tactic(auto, using(crate::proofs::Cases::told_special))]
    pub fn parse(name: &[u8]) -> Option<SpecialRegister>
        ensures { SpecialTold name.now result }
    {
        if 4 < name.len() {
            return None;
        }
        by_length(name)
    }
}

pub fn suppressed_register(name: &[u8]) -> Option<Suppressed>
    ensures { SuppressedTold name.now result }
{
    let [letter, rest @ ..] = name else {
        return None;
    };
    if !letter.eq_ignore_ascii_case(&b'z') {
        return None;
    }
    if is_program_counter(rest) {
        return Some(Suppressed::ProgramCounter);
    }
    parse_register(rest).map(Suppressed::Register)
}

// Whether a name is one of the 28 that no symbol may have. None has more than four letters, so a label is mostly left at once.
pub fn is_reserved_name(name: &[u8]) -> bool
    ensures { result ≡ reserved name.now }
{
    // not `SpecialRegister::parse`: the length is known
    name.len() <= 4
        && (parse_register(name).is_some() || is_program_counter(name) || by_length(name).is_some())
}
