//! Numbers in texts.
ghost use Rattle.std.specs.Prelude.{
  ◌≡◌,
  ◌++◌,
  ◌==◌,
  ◌<◌,
  ◌^◌,
  ◌≤◌,
  FitsSigned,
  false,
  length,
  true,
};
ghost use Rattle.std.specs.Int.{w64};
ghost use Rattle.std.specs.List.{list_all, prefix_len};
ghost use Rattle.std.specs.Option.{SomeIff};
ghost use Rattle.std.specs.Char.{is_ascii_digit};
ghost use Rattle.cedar_extensions.specs.Numbers.{begins_with, is_no_digit, number_of, signed};
ghost use Rattle.cedar_extensions.specs.Numbers.{with_sign};

// Whether a minus sign stands in front, and what follows it.
pub(crate) fn split_sign(text: &[u8]) -> (bool, &[u8])
    ensures spelled { text.now ≡ with_sign result.0 result.1.now }
    ensures plain { result.0 ≡ false → begins_with (λ c. c == 45) result.1.now ≡ false }
{
    match text {
        [b'-', rest @ ..] => (true, rest),
        _ => (false, text),
    }
}

// The digits that a text begins with, and what follows them.
#[tactic(auto, using(crate::proofs::Splits::run_passes, crate::proofs::Splits::run_stops))]
pub(crate) fn split_digits(text: &[u8]) -> (&[u8], &[u8])
    ensures spelled { text.now ≡ result.0.now ++ result.1.now }
    ensures digits { list_all is_ascii_digit result.0.now ≡ true }
    ensures all { begins_with is_ascii_digit result.1.now ≡ false }
{
    text.split_at(digits_length(text))
}

// How many digits a text begins with.
fn digits_length(text: &[u8]) -> usize
    ensures exact { result ≡ prefix_len is_ascii_digit text.now }
    ensures bound { result ≤ length text.now }
{
    text.iter().take_while(|byte| byte.is_ascii_digit()).count()
}

// The bytes that are no digits with which a text begins, and what follows them.
#[tactic(auto, using(crate::proofs::Splits::run_passes, crate::proofs::Splits::run_stops))]
pub(crate) fn split_word(text: &[u8]) -> (&[u8], &[u8])
    ensures spelled { text.now ≡ result.0.now ++ result.1.now }
    ensures word { list_all is_no_digit result.0.now ≡ true }
    ensures all { begins_with is_no_digit result.1.now ≡ false }
{
    text.split_at(word_length(text))
}

// How many bytes that are no digits a text begins with.
fn word_length(text: &[u8]) -> usize
    ensures exact { result ≡ prefix_len is_no_digit text.now }
    ensures bound { result ≤ length text.now }
{
    text.iter()
        .take_while(|byte| !byte.is_ascii_digit())
        .count()
}

// The number that digits write, if it is below 2 ^ 64.
pub(crate) fn number(digits: &[u8]) -> Option<u64>
    requires { list_all is_ascii_digit digits.now ≡ true }
    ensures { SomeIff result (number_of digits.now < 2 ^ 64) (number_of digits.now) }
{
    let mut number: u64 = 0;
    for digit in digits {
        let tens = number.checked_mul(10)?;
        number = tens.checked_add(u64::from(*digit - b'0'))?;
    }
    Some(number)
}

// The number with its sign, if 64 bits hold it.
pub(crate) fn signed_number(is_negative: bool, number: u64) -> Option<i64>
    ensures { SomeIff result
        (FitsSigned w64 (signed is_negative number))
        (signed is_negative number) }
{
    if is_negative {
        0i64.checked_sub_unsigned(number)
    } else {
        0i64.checked_add_unsigned(number)
    }
}
