//! Decimal and octal digits.

ghost use Rattle.std.specs.Prelude.{◌≡◌};
ghost use Rattle.mi_text.specs.Digits.{is_digit, is_octal};

/// Whether this is a decimal digit.
pub fn is_digit(b: u8) -> bool
    ensures { result ≡ is_digit b }
{
    48 <= b && b <= 57
}

/// Whether this is an octal digit.
pub fn is_octal(b: u8) -> bool
    ensures { result ≡ is_octal b }
{
    48 <= b && b < 56
}
