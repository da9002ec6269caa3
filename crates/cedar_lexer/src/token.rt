//! What a text in Cedar's syntax is made of.
ghost use Rattle.std.specs.Prelude.{◌≡◌};
ghost use Rattle.cedar_lexer.specs.FirstTokens.{longest_sign, sign_of};
ghost use Rattle.cedar_lexer.specs.TokenKinds.{sign_kind_of, word_kind_of};

/// What a token is.
#[derive(Clone, Copy, Debug, PartialEq, Eq)]
pub enum TokenKind {
    /// An identifier that is no word of the grammar.
    Word,
    /// Decimal digits.
    Digits,
    /// A text between double quotes, which the token has too.
    Quoted,
    /// A question mark, with the letters, digits and underscores that follow.
    Slot,
    /// `true`.
    True,
    /// `false`.
    False,
    /// `if`.
    If,
    /// `then`.
    Then,
    /// `else`.
    Else,
    /// `in`.
    In,
    /// `is`.
    Is,
    /// `like`.
    Like,
    /// `has`.
    Has,
    /// `__cedar`, which may name nothing.
    Reserved,
    /// `||`.
    OrSign,
    /// `&&`.
    AndSign,
    /// `==`.
    Equal,
    /// `!=`.
    NotEqual,
    /// `<=`.
    LessEqual,
    /// `>=`.
    GreaterEqual,
    /// `<`.
    Less,
    /// `>`.
    Greater,
    /// `+`.
    Plus,
    /// `-`.
    Minus,
    /// `*`.
    Times,
    /// `!`.
    Not,
    /// `.`.
    Dot,
    /// `,`.
    Comma,
    /// `::`.
    Colons,
    /// `:`.
    Colon,
    /// `(`.
    OpenRound,
    /// `)`.
    CloseRound,
    /// `[`.
    OpenSquare,
    /// `]`.
    CloseSquare,
    /// `{`.
    OpenCurly,
    /// `}`.
    CloseCurly,
    /// `@`, which policies alone have.
    At,
    /// `;`, which policies alone have.
    Semicolon,
    /// The end of the text, which is no token of it.
    End,
}

/// A piece of a text, by the bytes where it begins and ends.
#[derive(Clone, Copy, Debug)]
pub struct Span {
    /// The first byte of it.
    pub start: usize,
    /// The first byte behind it.
    pub stop: usize,
}

impl Span {
    /// From where it begins up to here.
    pub fn up_to(self, stop: usize) -> Span
        ensures start { result.start ≡ self.start }
        ensures stop { result.stop ≡ stop }
    {
        Span {
            start: self.start,
            stop,
        }
    }
}

/// A token: what it is, its text, and where it stands.
#[derive(Clone, Copy, Debug)]
pub struct Token<'a> {
    /// What it is.
    pub kind: TokenKind,
    /// Its text.
    pub text: &'a str,
    /// Where that stands.
    pub span: Span,
}

/// What a word of letters, digits and underscores is.
pub(crate) fn word_kind(word: &str) -> TokenKind
    ensures { result ≡ word_kind_of word.now }
{
    match word {
        "true" => TokenKind::True,
        "false" => TokenKind::False,
        "if" => TokenKind::If,
        "then" => TokenKind::Then,
        "else" => TokenKind::Else,
        "in" => TokenKind::In,
        "is" => TokenKind::Is,
        "like" => TokenKind::Like,
        "has" => TokenKind::Has,
        "__cedar" => TokenKind::Reserved,
        _ => TokenKind::Word,
    }
}

/// The longest sign that a text begins with, and its length.
pub(crate) fn sign_at(text: &str) -> Option<(TokenKind, usize)>
    ensures { result ≡ longest_sign text.now }
{
    match sign_of(text, 2) {
        Some(sign) => Some(sign),
        None => sign_of(text, 1),
    }
}

// The sign of this length.
fn sign_of(text: &str, width: usize) -> Option<(TokenKind, usize)>
    ensures { result ≡ sign_of width text.now }
{
    match text.split_at_checked(width) {
        Some((sign, _)) => Some((sign_kind(sign)?, width)),
        None => None,
    }
}

// What a sign is.
fn sign_kind(sign: &str) -> Option<TokenKind>
    ensures { result ≡ sign_kind_of sign.now }
{
    match sign {
        "||" => Some(TokenKind::OrSign),
        "&&" => Some(TokenKind::AndSign),
        "==" => Some(TokenKind::Equal),
        "!=" => Some(TokenKind::NotEqual),
        "<=" => Some(TokenKind::LessEqual),
        ">=" => Some(TokenKind::GreaterEqual),
        "::" => Some(TokenKind::Colons),
        "<" => Some(TokenKind::Less),
        ">" => Some(TokenKind::Greater),
        "+" => Some(TokenKind::Plus),
        "-" => Some(TokenKind::Minus),
        "*" => Some(TokenKind::Times),
        "!" => Some(TokenKind::Not),
        "." => Some(TokenKind::Dot),
        "," => Some(TokenKind::Comma),
        ":" => Some(TokenKind::Colon),
        "(" => Some(TokenKind::OpenRound),
        ")" => Some(TokenKind::CloseRound),
        "[" => Some(TokenKind::OpenSquare),
        "]" => Some(TokenKind::CloseSquare),
        "{" => Some(TokenKind::OpenCurly),
        "}" => Some(TokenKind::CloseCurly),
        "@" => Some(TokenKind::At),
        ";" => Some(TokenKind::Semicolon),
        _ => None,
    }
}
