ghost use Rattle.std.specs.Prelude.{◌≡◌, ◌+◌, ◌-◌, ◌*◌, ◌<◌, ◌^◌, true};
ghost use Rattle.std.specs.Option.{SomeIff};
ghost use Rattle.std.specs.List.{list_all};
ghost use Rattle.std.specs.Char.{is_ascii_digit, digit_value};
ghost use Rattle.std.specs.Str.Parse.{digits_value};
ghost use Rattle.hb_text.specs.Numbers.{is_number, number_read};

/// Why a word is no value.
#[derive(Clone, Copy, Debug, PartialEq, Eq)]
pub enum NumberFault {
    /// It isn't decimal digits without a leading zero.
    NotANumber,
    /// It says a number above 2^64 - 1.
    AboveLimit,
}

fn are_digits(word: &[u8]) -> bool
    ensures { result ≡ list_all is_ascii_digit word.now }
{
    word.iter().all(|digit| digit.is_ascii_digit())
}

/// Whether the word is decimal digits without a leading zero, or a lone zero.
#[tactic(auto, using(crate::proofs::NumberWords::is_number_long))]
fn is_numeral(word: &[u8]) -> bool
    ensures { result ≡ is_number word.now }
{
    match word {
        [] => false,
        [digit] => digit.is_ascii_digit(),
        [first, ..] => *first > b'0' && are_digits(word),
    }
}

/// The number with one digit more. `None` where it is above 2^64 - 1.
fn with_digit(value: u64, digit: u8) -> Option<u64>
    requires { digit_value digit ≡ digit - 48 }
    ensures { SomeIff result (value * 10 + digit_value digit < 2 ^ 64) (value * 10 + digit_value digit) }
{
    value
        .checked_mul(10)?
        .checked_add(u64::from(digit.saturating_sub(b'0')))
}

/// The number that the digits write. `None` where it is above 2^64 - 1.
fn value_of(digits: &[u8]) -> Option<u64>
    requires { is_number digits.now ≡ true }
    ensures { SomeIff result (digits_value 10 digits.now < 2 ^ 64) (digits_value 10 digits.now) }
{
    let mut value: u64 = 0;
    for digit in digits {
        value = with_digit(value, *digit)?;
    }
    Some(value)
}

/// The number that a word says: decimal digits without a sign or a leading zero, except `0`.
pub fn read_number(word: &[u8]) -> Result<u64, NumberFault>
    ensures { result ≡ number_read word.now }
{
    if !is_numeral(word) {
        return Err(NumberFault::NotANumber);
    }
    value_of(word).ok_or(NumberFault::AboveLimit)
}
