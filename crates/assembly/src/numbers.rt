// Numbers in base ten.
ghost use Rattle.std.specs.Prelude.{◌≡◌};
ghost use Rattle.assembly.specs.Numbers.{with_digit, number_of, byte_of};

// The number with one digit more.
fn appended(number: u16, digit: u8) -> Option<u16>
    ensures { result ≡ with_digit number digit }
{
    if !digit.is_ascii_digit() {
        return None;
    }
    number.checked_mul(10)?.checked_add(u16::from(digit - b'0'))
}

// The number that the word writes.
// Digit by digit: the library's `parse` takes a sign too, and reads a text, which bytes need not be.
pub(crate) fn number(word: &[u8]) -> Option<u16>
    ensures { result ≡ number_of word.now }
{
    if word.is_empty() {
        return None;
    }
    let mut number = 0;
    for digit in word {
        number = appended(number, *digit)?;
    }
    Some(number)
}

// The number that the word writes, if it is a byte.
pub(crate) fn byte(word: &[u8]) -> Option<u8>
    ensures { result ≡ byte_of word.now }
{
    u8::try_from(number(word)?).ok()
}
