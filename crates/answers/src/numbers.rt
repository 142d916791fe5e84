//! Decimal numbers.
ghost use Rattle.std.specs.Prelude.{◌≡◌};
ghost use Rattle.answers.specs.Decimals.{number_in};

/// The number that the bytes spell in decimal, or the largest there is where it is larger; `None` where they are no decimal number.
pub fn number_in(text: &[u8]) -> Option<u32>
    ensures { result ≡ number_in text.now }
{
    if text.is_empty() {
        return None;
    }
    let mut value: u32 = 0;
    for &b in text {
        let digit = char::from(b).to_digit(10)?;
        value = value.saturating_mul(10).saturating_add(digit);
    }
    Some(value)
}
