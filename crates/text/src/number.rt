// Decimal numbers.
ghost use Rattle.std.specs.Prelude.{◌≡◌, ◌^◌, ◌<◌, ◌≤◌, IfSome};
ghost use Rattle.text.specs.Numbers.{number_in};

// A number of 1 to `most` digits.
fn numeral(bytes: &[u8], most: usize) -> Option<u64>
    requires { most ≤ 10 }
    ensures value { result ≡ number_in most bytes.now }
    ensures below { IfSome result (λ n. n < 10 ^ most) }
{
    if bytes.is_empty() || bytes.len() > most {
        return None;
    }
    let mut value = 0;
    for byte in bytes {
        if !byte.is_ascii_digit() {
            return None;
        }
        value = 10 * value + u64::from(*byte - b'0');
    }
    Some(value)
}

// A number of 1 to 6 digits. It and the longer one stay two calls: one call for any number of digits would have to say
// what it answers past 64 bits, which no format asks.
pub fn number(bytes: &[u8]) -> Option<u32>
    ensures { result ≡ number_in 6 bytes.now }
{
    numeral(bytes, 6).map(|value| value as u32)
}

// A number of 1 to 10 digits.
pub fn long_number(bytes: &[u8]) -> Option<u64>
    ensures { result ≡ number_in 10 bytes.now }
{
    numeral(bytes, 10)
}
