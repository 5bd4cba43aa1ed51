// Words that bytes spell.
ghost use Rattle.std.specs.Prelude.{◌≡◌, ◌<◌, ◌≤◌, ◌*◌, ◌^◌, length};
ghost use Rattle.rv_decode.specs.Word.{sign_extended};
ghost use Rattle.rv_exec.specs.Memory.{IsLen};
ghost use Rattle.watch_points.specs.Watches.{spelled, word_of};

// The number that at most four bytes spell, lowest first.
fn spelled(bytes: &[u8]) -> u32
    requires { length bytes.now ≤ 4 }
    ensures value { result ≡ spelled bytes.now }
    ensures range { result < 256 ^ length bytes.now }
{
    match bytes {
        [] => 0,
        [first, rest @ ..] => u32::from(*first) + 256 * spelled(rest),
    }
}

fn extend_byte(number: u32) -> u32
    requires { number < 2 ^ 8 }
    ensures { result ≡ sign_extended 8 number }
{
    if number < 0x80 {
        number
    } else {
        number + 0xFFFF_FF00
    }
}

fn extend_half(number: u32) -> u32
    requires { number < 2 ^ 16 }
    ensures { result ≡ sign_extended 16 number }
{
    if number < 0x8000 {
        number
    } else {
        number + 0xFFFF_0000
    }
}

/// The word of one, two or four bytes, with their sign or with zeros above them.
pub fn word_of(signed: bool, bytes: &[u8]) -> u32
    requires { IsLen (length bytes.now) }
    ensures { result ≡ word_of signed bytes.now }
{
    let number = spelled(bytes);
    if !signed {
        return number;
    }
    match bytes.len() {
        1 => extend_byte(number),
        2 => extend_half(number),
        _ => number,
    }
}
