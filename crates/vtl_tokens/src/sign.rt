// Signs.
ghost use Rattle.std.specs.Prelude.{◌≡◌};
ghost use Rattle.vtl_tokens.specs.Signs.{sign_text};

/// What is written in other characters than a word or a literal.
#[derive(Clone, Copy, Debug, PartialEq, Eq)]
pub enum Sign {
    /// `<-`
    Arrow,
    /// `:=`
    Assign,
    Semicolon,
    Comma,
    LeftParen,
    RightParen,
    LeftBracket,
    RightBracket,
    LeftBrace,
    RightBrace,
    Plus,
    Minus,
    Star,
    Slash,
    /// `||`
    Bars,
    Equal,
    NotEqual,
    LessThan,
    GreaterThan,
    AtMost,
    AtLeast,
    Hash,
    Colon,
}

impl Sign {
    /// How the sign is written.
    pub fn text(self) -> &'static str
        ensures { result.now ≡ sign_text self }
    {
        match self {
            Sign::Arrow => "<-",
            Sign::Assign => ":=",
            Sign::Semicolon => ";",
            Sign::Comma => ",",
            Sign::LeftParen => "(",
            Sign::RightParen => ")",
            Sign::LeftBracket => "[",
            Sign::RightBracket => "]",
            Sign::LeftBrace => "{",
            Sign::RightBrace => "}",
            Sign::Plus => "+",
            Sign::Minus => "-",
            Sign::Star => "*",
            Sign::Slash => "/",
            Sign::Bars => "||",
            Sign::Equal => "=",
            Sign::NotEqual => "<>",
            Sign::LessThan => "<",
            Sign::GreaterThan => ">",
            Sign::AtMost => "<=",
            Sign::AtLeast => ">=",
            Sign::Hash => "#",
            Sign::Colon => ":",
        }
    }
}
