// Labels are bytes. Capitals count as small letters wherever two of them are compared.
#![tactic(auto)]

ghost use Rattle.std.specs.Prelude.{◌≡◌, eqb};
ghost use Rattle.meaning.specs.Tree.{folded};
ghost use Rattle.meaning.specs.Paths.{is_small, is_letter};

// The small letter of a capital; any other label as it is.
#[tactic(auto, using(crate::proofs::Ascii::folded_ascii))]
pub fn folded(label: u8) -> u8
    ensures { result ≡ folded label }
{
    label.to_ascii_lowercase()
}

// Two labels are equal if their small letters are.
#[tactic(auto, using(crate::proofs::Ascii::folded_ascii))]
pub fn same(one: u8, other: u8) -> bool
    ensures { result ≡ eqb (folded one) (folded other) }
{
    one.eq_ignore_ascii_case(&other)
}

// a to z: how the name of an axis begins.
#[tactic(auto, using(crate::proofs::Ascii::small_ascii))]
pub fn is_small(byte: u8) -> bool
    ensures { result ≡ is_small byte }
{
    byte.is_ascii_lowercase()
}

// a to z or A to Z: what a path tests for.
#[tactic(auto, using(crate::proofs::Ascii::letter_ascii))]
pub fn is_letter(byte: u8) -> bool
    ensures { result ≡ is_letter byte }
{
    byte.is_ascii_alphabetic()
}
