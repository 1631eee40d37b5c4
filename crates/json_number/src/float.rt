// The float nearest to the number that a literal denotes.
ghost use Rattle.std.specs.Prelude.{◌≡◌};
ghost use Rattle.std.specs.Float.{binary32, binary64};
ghost use Rattle.json_grammar.specs.Grammar.{number};
ghost use Rattle.json_number.specs.Floats.{float_in, if_finite, nearest_float};

/// Returns the `f64` that a text writes by std's rule, if it writes one that is finite.
fn finite_f64(text: &str) -> Option<f64>
    ensures { result ≡ float_in binary64 text.now }
{
    let double: f64 = fast_float::parse(text).ok()?;
    if double.is_finite() {
        Some(double)
    } else {
        None
    }
}

/// Returns the `f32` that a text writes by std's rule, if it writes one that is finite.
fn finite_f32(text: &str) -> Option<f32>
    ensures { result ≡ float_in binary32 text.now }
{
    let single: f32 = fast_float::parse(text).ok()?;
    if single.is_finite() {
        Some(single)
    } else {
        None
    }
}

/// Returns the `f64` nearest to the number that a literal denotes, of two that are equally near the
/// even one, where that is finite.
///
/// ```
/// use json_number::f64_of;
/// assert_eq!(rt; f64_of("12.10"), Some(12.1));
/// assert_eq!(rt; f64_of("1e400"), None);
/// ```
pub fn f64_of(literal: &str) -> Option<f64>
    requires { number literal.now }
    ensures double { result ≡ float_in binary64 literal.now }
    ensures nearest { (n : number literal.now)
        → result ≡ if_finite (nearest_float binary64 literal.now n) }
{
    finite_f64(literal)
}

/// Returns the `f32` nearest to the number that a literal denotes, of two that are equally near the
/// even one, where that is finite. It is rounded once, and not by way of an `f64`.
///
/// ```
/// use json_number::f32_of;
/// assert_eq!(rt; f32_of("3.4e38"), Some(3.4e38));
/// assert_eq!(rt; f32_of("3.5e38"), None);
/// ```
pub fn f32_of(literal: &str) -> Option<f32>
    requires { number literal.now }
    ensures single { result ≡ float_in binary32 literal.now }
    ensures nearest { (n : number literal.now)
        → result ≡ if_finite (nearest_float binary32 literal.now n) }
{
    finite_f32(literal)
}
