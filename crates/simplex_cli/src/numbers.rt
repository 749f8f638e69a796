//! Numbers in arguments.

ghost use Rattle.std.specs.Prelude.{◌≡◌, ◌≢◌, ◌<◌, ◌^◌, ℕ, IfOk, IfErr, decimal};

use crate::status::Failure;
use itoa::Buffer;

/// The number that a text is: decimal digits, without sign or leading zeros.
pub fn parse_number(text: &str) -> Result<u64, Failure>
    ensures number { IfOk result (λ number. text.now ≡ decimal number) }
    ensures usage { IfErr result (λ e. (number : ℕ) → number < 2 ^ 64 → text.now ≢ decimal number) }
    ensures failure { IfErr result (λ e. e ≡ Failure.Usage) }
{
    let Ok(number) = text.parse::<u64>() else {
        return Err(Failure::Usage);
    };
    if Buffer::new().format(number) != text {
        return Err(Failure::Usage);
    }
    Ok(number)
}
