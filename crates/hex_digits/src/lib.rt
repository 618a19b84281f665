// The two hex digits of a byte, in upper case.
#![tactic(auto)]

ghost use Rattle.std.specs.Prelude.{◌≡◌, ◌/◌, ◌%◌, ◌<◌, [], ◌∷◌};
ghost use Rattle.hex_digits.specs.Digits.{digit_of};

// The ASCII code of an upper-case hex digit.
fn digit(d: u8) -> u8
    requires { d < 16 }
    ensures { result ≡ digit_of d }
{
    if d < 10 { b'0' + d } else { b'A' - 10 + d }
}

// The high digit, then the low one.
pub fn digits(b: u8) -> [u8; 2]
    ensures { result ≡ digit_of (b / 16) ∷ digit_of (b % 16) ∷ [] }
{
    [digit(b / 16), digit(b % 16)]
}
