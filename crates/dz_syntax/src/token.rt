//! The tokens of a text, read from its front.

ghost use Rattle.std.specs.Prelude.{◌≡◌, ◌≤◌, ◌<◌, ◌+◌, length, false, IsTrue};
ghost use Rattle.std.specs.Char.{is_ascii_digit};
ghost use Rattle.dz_syntax.specs.Tokens.{bytes_of, behind, front, front_len, is_letter, is_token};
ghost use Rattle.dz_syntax.specs.Tokens.{is_name_byte, is_separator, kind_or_name, mark_at};
ghost use Rattle.dz_syntax.specs.Tokens.{mark_of, skip_from, token_of, word_or_name};

use dz_rank::Kind;

/// A reserved word.
#[derive(Clone, Copy, Debug, PartialEq, Eq)]
pub enum Word {
    Derivations,
    Ranking,
    Equations,
    Inequations,
    Questions,
    Values,
    End,
    Kind(Kind),
}

/// What stands at the front of a text.
#[derive(Clone, Copy, Debug, PartialEq, Eq)]
pub enum Token {
    Name,
    Number,
    Word(Word),
    Semicolon,
    Comma,
    OpenBracket,
    CloseBracket,
    OpenParenthesis,
    CloseParenthesis,
    Plus,
    Minus,
    Star,
    Caret,
    Equals,
    Slash,
    Differs,
    /// The text is at its end.
    Nothing,
    /// The first byte begins no token.
    Bad,
}

fn is_separator(byte: u8) -> bool
    ensures { result ≡ is_separator byte }
{
    byte == b' ' || byte == b'\t' || byte == b'\r' || byte == b'\n'
}

fn is_letter(byte: u8) -> bool
    ensures { result ≡ is_letter byte }
{
    byte.is_ascii_alphabetic() || byte == b'_'
}

fn is_name_byte(byte: u8) -> bool
    ensures { result ≡ is_name_byte byte }
{
    is_letter(byte) || byte.is_ascii_digit()
}

/// The text from its next token on: separators and comments at the front are left out.
pub(crate) fn skip(text: &[u8]) -> &[u8]
    ensures value { result.now ≡ skip_from false text.now }
    ensures within { length result.now ≤ length text.now }
{
    let mut rest = text;
    let mut comment = false;
    'bytes: while let [first, after @ ..] = rest {
        if comment {
            comment = *first != b'\n';
        } else if *first == b'#' {
            comment = true;
        } else if !is_separator(*first) {
            return rest;
        }
        rest = after;
    }
    rest
}

fn kind_or_name(name: &[u8]) -> Token
    ensures { result ≡ kind_or_name name.now }
{
    if name == b"grlexA".as_slice() {
        return Token::Word(Word::Kind(Kind::GrlexA));
    }
    if name == b"grlexB".as_slice() {
        return Token::Word(Word::Kind(Kind::GrlexB));
    }
    if name == b"degrevA".as_slice() {
        return Token::Word(Word::Kind(Kind::DegrevA));
    }
    if name == b"degrevB".as_slice() {
        return Token::Word(Word::Kind(Kind::DegrevB));
    }
    if name == b"lexA".as_slice() {
        return Token::Word(Word::Kind(Kind::LexA));
    }
    Token::Name
}

fn word_or_name(name: &[u8]) -> Token
    ensures { result ≡ word_or_name name.now }
{
    if name == b"derivations".as_slice() {
        return Token::Word(Word::Derivations);
    }
    if name == b"ranking".as_slice() {
        return Token::Word(Word::Ranking);
    }
    if name == b"equations".as_slice() {
        return Token::Word(Word::Equations);
    }
    if name == b"inequations".as_slice() {
        return Token::Word(Word::Inequations);
    }
    if name == b"questions".as_slice() {
        return Token::Word(Word::Questions);
    }
    if name == b"values".as_slice() {
        return Token::Word(Word::Values);
    }
    if name == b"end".as_slice() {
        return Token::Word(Word::End);
    }
    kind_or_name(name)
}

fn mark_of(byte: u8) -> Token
    ensures { result ≡ mark_of byte }
{
    match byte {
        b';' => Token::Semicolon,
        b',' => Token::Comma,
        b'[' => Token::OpenBracket,
        b']' => Token::CloseBracket,
        b'(' => Token::OpenParenthesis,
        b')' => Token::CloseParenthesis,
        b'+' => Token::Plus,
        b'-' => Token::Minus,
        b'*' => Token::Star,
        b'^' => Token::Caret,
        b'=' => Token::Equals,
        b'/' => Token::Slash,
        _ => Token::Bad,
    }
}

fn mark_at(first: u8, after: &[u8]) -> (Token, usize)
    ensures value { result ≡ mark_at first after.now }
    ensures some { IsTrue (is_token result.0) → 0 < result.1 }
    ensures within { result.1 ≤ length after.now + 1 }
{
    if first == b'!' {
        return match after {
            [b'=', ..] => (Token::Differs, 2),
            _ => (Token::Bad, 0),
        };
    }
    match mark_of(first) {
        Token::Bad => (Token::Bad, 0),
        token => (token, 1),
    }
}

fn name_len(text: &[u8]) -> usize
    ensures value { result ≡ front_len is_name_byte text.now }
    ensures within { result ≤ length text.now }
{
    let mut size = 0;
    let mut rest = text;
    'letters: while let [first, after @ ..] = rest {
        if !is_name_byte(*first) {
            return size;
        }
        size += 1;
        rest = after;
    }
    size
}

fn number_len(text: &[u8]) -> usize
    ensures value { result ≡ front_len is_ascii_digit text.now }
    ensures within { result ≤ length text.now }
{
    let mut size = 0;
    let mut rest = text;
    'digits: while let [first, after @ ..] = rest {
        if !first.is_ascii_digit() {
            return size;
        }
        size += 1;
        rest = after;
    }
    size
}

/// The token at the front of a text, and how many bytes it has.
#[tactic(auto, unfolding(crate::specs::Tokens::token_of))]
pub(crate) fn token_of(text: &[u8]) -> (Token, usize)
    ensures value { result ≡ token_of text.now }
    ensures some { IsTrue (is_token result.0) → 0 < result.1 }
    ensures within { result.1 ≤ length text.now }
{
    let [first, after @ ..] = text else {
        return (Token::Nothing, 0);
    };
    if is_letter(*first) {
        let size = name_len(text);
        (word_or_name(&text[..size]), size)
    } else if first.is_ascii_digit() {
        (Token::Number, number_len(text))
    } else {
        mark_at(*first, after)
    }
}

/// The token at the front of a text, and the text from the next token on.
#[tactic(auto, unfolding(crate::specs::Tokens::front, crate::specs::Tokens::behind))]
pub(crate) fn next(text: &[u8]) -> (Token, &[u8])
    ensures front { result.0 ≡ front text.now }
    ensures behind { result.1.now ≡ behind text.now }
    ensures within { length result.1.now ≤ length text.now }
    ensures shorter { IsTrue (is_token result.0) → length result.1.now < length text.now }
{
    let (token, size) = token_of(text);
    (token, skip(&text[size..]))
}

/// The bytes of the token at the front.
#[tactic(auto, unfolding(crate::specs::Tokens::bytes_of))]
pub(crate) fn bytes_of(text: &[u8]) -> &[u8]
    ensures { result.now ≡ bytes_of text.now }
{
    let (_, size) = token_of(text);
    &text[..size]
}
