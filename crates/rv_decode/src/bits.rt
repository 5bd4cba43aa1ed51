// The fields of an instruction word, and the immediates that they spell.
ghost use Rattle.std.specs.Prelude.{◌≡◌, ◌+◌, ◌≤◌, ◌<◌, ◌^◌};
ghost use Rattle.rv_decode.specs.Word.{bits, sign_extended, imm_i, imm_s, imm_b, imm_u, imm_j};

/// The `count` bits of the word from bit `low` up, as a number; `count` is 1 to 31.
pub fn bits(word: u32, low: u32, count: u32) -> u32
    requires within { low + count ≤ 32 }
    requires some { 0 < count }
    requires few { count < 32 }
    ensures value { result ≡ bits low count word }
    ensures range { result < 2 ^ count }
{
    (word >> low) & ((1 << count) - 1)
}

/// The immediate of the I format, sign-extended.
pub fn immediate_i(word: u32) -> u32
    ensures { result ≡ imm_i word }
{
    sign_extend_12(bits(word, 20, 12))
}

/// The immediate of the S format, sign-extended.
pub fn immediate_s(word: u32) -> u32
    ensures { result ≡ imm_s word }
{
    sign_extend_12((bits(word, 25, 7) << 5) + bits(word, 7, 5))
}

/// The immediate of the B format, sign-extended; a multiple of 2.
pub fn immediate_b(word: u32) -> u32
    ensures { result ≡ imm_b word }
{
    let low = (bits(word, 7, 1) << 11) + (bits(word, 25, 6) << 5) + (bits(word, 8, 4) << 1);
    if bits(word, 31, 1) == 1 {
        low + 0xFFFF_F000
    } else {
        low
    }
}

/// The immediate of the U format, with 12 zero bits below.
pub fn immediate_u(word: u32) -> u32
    ensures { result ≡ imm_u word }
{
    bits(word, 12, 20) << 12
}

/// The immediate of the J format, sign-extended; a multiple of 2.
pub fn immediate_j(word: u32) -> u32
    ensures { result ≡ imm_j word }
{
    let low = (bits(word, 12, 8) << 12) + (bits(word, 20, 1) << 11) + (bits(word, 21, 10) << 1);
    if bits(word, 31, 1) == 1 {
        low + 0xFFF0_0000
    } else {
        low
    }
}

/// 12 bits, the highest of which is the sign, as 32 bits.
fn sign_extend_12(low: u32) -> u32
    requires { low < 2 ^ 12 }
    ensures { result ≡ sign_extended 12 low }
{
    if low < 0x800 { low } else { low + 0xFFFF_F000 }
}
