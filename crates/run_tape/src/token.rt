// `Token`: what each byte of a tape means.
ghost use Rattle.std.specs.Prelude.{◌≡◌};
ghost use Rattle.run_tape.specs.Tokens.{token};

/// What a byte of a tape means. The number that it ends, or goes on with, has its digits before it.
#[derive(Clone, Copy)]
pub enum Token {
    /// The expected hart ran as many instructions as the number with these seven bits behind it.
    Count(u8),
    /// Six bits more of a number.
    Digit(u8),
    /// The hart is expected whose number has these five bits behind it.
    Hart(u8),
    /// Something else stands here.
    Note,
}

/// What a byte means.
pub fn token_of(byte: u8) -> Token
    ensures { result ≡ token byte }
{
    if byte < 128 {
        Token::Count(byte)
    } else if byte < 192 {
        Token::Digit(byte)
    } else if byte < 224 {
        Token::Hart(byte)
    } else {
        Token::Note
    }
}
