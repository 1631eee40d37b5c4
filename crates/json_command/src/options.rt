// The number that an option asks for.
ghost use Rattle.std.specs.Prelude.{◌≡◌, ◌≤◌, IfSome};
ghost use Rattle.json_command.specs.Options.{has_no_leading_zero, number_up_to, number_after};

// Whether it is `0`, or begins with a digit from 1 to 9.
fn is_plain_number(digits: &str) -> bool
    ensures { result ≡ has_no_leading_zero digits.now }
{
    let bytes = digits.as_bytes();
    digits == "0" || !bytes.is_empty() && bytes[0] >= b'1' && bytes[0] <= b'9'
}

// The number that the digits are, where it is at most `max`.
fn number_in(digits: &str, max: u32) -> Option<u32>
    ensures { result ≡ number_up_to max digits.now }
{
    if !is_plain_number(digits) {
        return None;
    }
    match digits.parse::<u64>() {
        Ok(number) if number <= u64::from(max) => Some(number as u32),
        _ => None,
    }
}

/// Returns the number of an option such as `--depth=3`: 3 if `name` is `--depth`. Returns `None` if
/// the option has another name, or if what follows the first `=` is no decimal number from 0 to
/// `max` without leading zeros.
///
/// ```
/// use json_command::option_number;
/// assert_eq!(rt; option_number("--depth=3", "--depth", 1_024), Some(3));
/// assert_eq!(rt; option_number("--depth=03", "--depth", 1_024), None);
/// assert_eq!(rt; option_number("--depth=1025", "--depth", 1_024), None);
/// ```
pub fn option_number(option: &str, name: &str, max: u32) -> Option<u32>
    ensures number { result ≡ number_after name.now max option.now }
    ensures within { IfSome result (λ n. n ≤ max) }
{
    let (before, digits) = option.split_once('=')?;
    if before != name {
        return None;
    }
    number_in(digits, max)
}
