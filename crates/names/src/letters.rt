// Names are matched letter by letter, whatever their case; no lowered copy of a name is made.
ghost use Rattle.std.specs.Prelude.{◌≡◌, map};
ghost use Rattle.std.specs.Char.{to_ascii_lowercase};
ghost use Rattle.names.specs.Letters.{lower, spelled};

// The small letter of a letter, and any other byte itself.
#[tactic(auto, using(crate::proofs::letters::Spelling::lower_std))]
pub(crate) fn lower(byte: u8) -> u8
    ensures { result ≡ lower byte }
{
    byte.to_ascii_lowercase()
}

// Whether a name in small letters is this word, which is in small letters.
pub(crate) fn spells(name: &[u8], word: &[u8]) -> bool
    requires { map to_ascii_lowercase word.now ≡ word.now }
    ensures { result ≡ spelled word.now name.now }
{
    name.eq_ignore_ascii_case(word)
}
