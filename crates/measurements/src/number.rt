// Whole numbers in decimal.
ghost use Rattle.std.specs.Prelude.{◌≡◌, ◌+◌, ◌-◌, ◌*◌};
ghost use Rattle.std.specs.Char.{is_ascii_digit};
ghost use Rattle.std.specs.List.{list_all};
ghost use Rattle.measurements.specs.Numbers.{fitted, number_in};

// What is wrong with the text of a number.
#[derive(Clone, Copy, Debug, PartialEq, Eq)]
pub enum NumberFault {
    Missing,
    NotDecimal,
    TooLarge,
}

fn is_decimal(text: &[u8]) -> bool
    ensures { result ≡ list_all is_ascii_digit text.now }
{
    text.iter().all(u8::is_ascii_digit)
}

// A number with one more digit behind it.
fn with_digit(value: u64, digit: u8) -> Result<u64, NumberFault>
    ensures { result ≡ fitted (value * 10 + (digit - 48)) }
{
    value
        .checked_mul(10)
        .and_then(|tens| tens.checked_add(u64::from(digit.saturating_sub(b'0'))))
        .ok_or(NumberFault::TooLarge)
}

// The number that a text of decimal digits writes. A text that has anything else in it is not decimal, however long. std's `parse`
// takes a `+` and no bytes, and does not tell the three faults apart. Digits are tested as they are taken, since a pass of its own
// over them costs a text of many zeros half as much again; of a number that is too large, those behind are tested then.
#[tactic(auto, using(crate::proofs::Decimal::not_digit, crate::proofs::Decimal::one_digit, crate::proofs::Decimal::digit_fails, crate::proofs::Decimal::digit_fits, crate::proofs::Decimal::digits_end))]
pub fn parse(text: &[u8]) -> Result<u64, NumberFault>
    ensures { result ≡ number_in text.now }
{
    if text.is_empty() {
        return Err(NumberFault::Missing);
    }
    let mut value = 0;
    for digit in text {
        if !digit.is_ascii_digit() {
            return Err(NumberFault::NotDecimal);
        }
        let late = |fault| if is_decimal(text) {
            fault
        } else {
            NumberFault::NotDecimal
        };
        value = with_digit(value, *digit).map_err(late)?;
    }
    Ok(value)
}
