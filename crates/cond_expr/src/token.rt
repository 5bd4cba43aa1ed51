//! Tokens, and what each may do.

ghost use Rattle.std.specs.Prelude.{◌≡◌, ◌≤◌};
ghost use Rattle.cond_expr.specs.Token.{strength, start_of, follow_of, wants_behind};

use crate::fault::FaultKind;
use rv_decode::Register;

/// An operation of two sides, from the weakest level to the strongest.
#[derive(Clone, Copy)]
pub enum Binary {
    OrElse,
    AndThen,
    Or,
    Xor,
    And,
    Equal,
    NotEqual,
    Less,
    LessEqual,
    Greater,
    GreaterEqual,
    ShiftLeft,
    ShiftRight,
    Add,
    Subtract,
    Multiply,
    Divide,
    Remainder,
}

/// A type that memory is read as; `char` is unsigned.
#[derive(Clone, Copy)]
pub enum ReadType {
    Int,
    UnsignedInt,
    Short,
    UnsignedShort,
    Char,
    UnsignedChar,
}

/// An operation that stands before its one side.
#[derive(Clone, Copy)]
pub enum Prefix {
    Negate,
    Complement,
    Not,
    /// The bytes at an address, read as a type.
    Read(ReadType),
}

/// What an expression begins from.
#[derive(Clone, Copy)]
pub enum Leaf {
    Number(u32),
    Register(Register),
    /// The address of a symbol.
    Address(u32),
}

#[derive(Clone, Copy)]
pub enum Token {
    Leaf(Leaf),
    /// A number from 2^32 on.
    Large,
    /// A bare name, or a symbol or register that isn't known.
    Unknown,
    Operator(Binary),
    Tilde,
    Bang,
    Cast(ReadType),
    /// A brace with no type behind it, and the place of what stands there instead.
    Broken(u32),
    Open,
    Close,
    /// A byte that begins no token.
    Stray,
}

/// A token and the place of its first byte.
#[derive(Clone, Copy)]
pub struct Spot {
    pub token: Token,
    pub at: u32,
}

/// What a token is where an operand is wanted.
#[derive(Clone, Copy)]
pub enum Start {
    Operand(Leaf),
    Before(Prefix),
    Opens,
    /// A prefix that is cut off at this place.
    CutOff(u32),
    Refused(FaultKind),
}

/// What a token is behind an operand.
#[derive(Clone, Copy)]
pub enum Follow {
    Joins(Binary),
    Closes,
    Neither,
}

impl Binary {
    /// How strongly it binds, from 1 to 10.
    pub fn strength(self) -> u8
        ensures value { result ≡ strength self }
        ensures small { result ≤ 10 }
    {
        match self {
            Binary::OrElse => 1,
            Binary::AndThen => 2,
            Binary::Or => 3,
            Binary::Xor => 4,
            Binary::And => 5,
            Binary::Equal | Binary::NotEqual => 6,
            Binary::Less | Binary::LessEqual | Binary::Greater | Binary::GreaterEqual => 7,
            Binary::ShiftLeft | Binary::ShiftRight => 8,
            Binary::Add | Binary::Subtract => 9,
            Binary::Multiply | Binary::Divide | Binary::Remainder => 10,
        }
    }
}

impl Token {
    /// What it is where an operand is wanted.
    pub fn start(self) -> Start
        ensures { result ≡ start_of self }
    {
        match self {
            Token::Leaf(leaf) => Start::Operand(leaf),
            Token::Large => Start::Refused(FaultKind::Number),
            Token::Unknown => Start::Refused(FaultKind::Name),
            Token::Operator(Binary::Subtract) => Start::Before(Prefix::Negate),
            Token::Operator(_) => Start::Refused(FaultKind::Text),
            Token::Tilde => Start::Before(Prefix::Complement),
            Token::Bang => Start::Before(Prefix::Not),
            Token::Cast(kind) => Start::Before(Prefix::Read(kind)),
            Token::Broken(place) => Start::CutOff(place),
            Token::Open => Start::Opens,
            Token::Close | Token::Stray => Start::Refused(FaultKind::Text),
        }
    }

    /// What it is behind an operand.
    pub fn follow(self) -> Follow
        ensures { result ≡ follow_of self }
    {
        match self {
            Token::Operator(op) => Follow::Joins(op),
            Token::Close => Follow::Closes,
            _ => Follow::Neither,
        }
    }
}

impl Token {
    /// Whether an operand is wanted behind this token.
    pub fn wants_operand(&self) -> bool
        ensures { result ≡ wants_behind self.now }
    {
        matches!(
            self,
            Token::Operator(_) | Token::Tilde | Token::Bang | Token::Cast(_) | Token::Open
        )
    }
}
