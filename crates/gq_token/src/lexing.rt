//! Splits bytes into tokens by longest match, with spaces and tabs between tokens.
ghost use Rattle.std.specs.Prelude.{◌≡◌, ◌≤◌, ◌<◌, ◌-◌, IfOk, IfErr, string_bytes, length, take, drop, slice_index, map, true};
ghost use Rattle.std.specs.Char.{is_ascii_digit};
ghost use Rattle.std.specs.List.{prefix_len};
ghost use Rattle.std.specs.Str.{all_ascii_digits};
ghost use Rattle.std.specs.Str.Parse.{digits_value};
ghost use Rattle.gq_token.specs.Results.{Gives};
ghost use Rattle.gq_token.specs.Lexing.{is_blank, is_word_byte, starts_word, skip_blanks, quoted, digits_at, sign_at, word_at, word as word_of, name_in_quotes, text_in_quotes, token_at, lexed, lookup_word, reserved_words, lower, signed, begins};
ghost use Rattle.gq_token.specs.declared.parse_error.ParseError.TheVariants.{Memory};

use crate::parse_error::ParseError;
use crate::queue::Tokens;
use crate::token::{Terminal, Token};
use gq_row::Text;
use std::alloc::Global;

#[inline]
fn is_blank(byte: u8) -> bool
    ensures { result ≡ is_blank byte }
{
    byte == b' ' || byte == b'\t'
}

#[inline]
fn starts_word(byte: u8) -> bool
    ensures { result ≡ starts_word byte }
{
    byte.is_ascii_alphabetic() || byte == b'_'
}

#[inline]
fn is_word_byte(byte: u8) -> bool
    ensures { result ≡ is_word_byte byte }
{
    starts_word(byte) || byte.is_ascii_digit()
}

fn blank_len(bytes: &[u8]) -> usize
    ensures value { result ≡ prefix_len is_blank bytes.now }
    ensures within { result ≤ length bytes.now }
    ensures ascii { 0 < result → slice_index bytes.now (result - 1) < 128 }
{
    bytes.iter().take_while(|b| is_blank(**b)).count()
}

fn word_len(bytes: &[u8]) -> usize
    ensures value { result ≡ prefix_len is_word_byte bytes.now }
    ensures within { result ≤ length bytes.now }
    ensures ascii { 0 < result → slice_index bytes.now (result - 1) < 128 }
{
    bytes.iter().take_while(|b| is_word_byte(**b)).count()
}

fn digits_len(bytes: &[u8]) -> usize
    ensures value { result ≡ prefix_len is_ascii_digit bytes.now }
    ensures within { result ≤ length bytes.now }
    ensures ascii { 0 < result → slice_index bytes.now (result - 1) < 128 }
{
    bytes.iter().take_while(|b| b.is_ascii_digit()).count()
}

/// Splits a text after its first `len` bytes, which are ASCII.
fn split_ascii(text: &str, len: usize) -> (&str, &str)
    requires within { len ≤ length text.now }
    requires ascii { 0 < len → slice_index text.now (len - 1) < 128 }
    ensures taken { result.0.now ≡ take len text.now }
    ensures back { result.1.now ≡ drop len text.now }
{
    text.split_at(len)
}

/// The text before the closing quote, in which doubled quotes are undone, and the text after that
/// quote.
fn quoted(alloc: Global, quote: char, text: &str) -> Result<(String, &str), ParseError>
    requires { quote < 128 }
    ensures { Gives (λ x. (string_bytes x.0, x.1.now)) result (quoted quote text.now) }
{
    let mut value = String::new(alloc);
    let mut rest = text;
    while let Some((piece, after)) = rest.split_once(quote) {
        value.push_str(piece)?;
        match after.strip_prefix(quote) {
            None => return Ok((value, after)),
            Some(next) => {
                value.push(quote)?;
                rest = next;
            }
        }
    }
    Err(ParseError::Syntax)
}

/// The reserved words, in lower case.
const RESERVED: [(&[u8], Terminal); 26] = [
    (b"create", Terminal::Create),
    (b"drop", Terminal::Drop),
    (b"load", Terminal::Load),
    (b"upsert", Terminal::Upsert),
    (b"delete", Terminal::Delete),
    (b"show", Terminal::Show),
    (b"group", Terminal::Group),
    (b"distinct", Terminal::Distinct),
    (b"by", Terminal::By),
    (b"on", Terminal::On),
    (b"where", Terminal::Where),
    (b"not", Terminal::Not),
    (b"exists", Terminal::Exists),
    (b"having", Terminal::Having),
    (b"and", Terminal::And),
    (b"is", Terminal::Is),
    (b"null", Terminal::Null),
    (b"key", Terminal::Key),
    (b"int", Terminal::Int),
    (b"text", Terminal::Text),
    (b"count", Terminal::Count),
    (b"sum", Terminal::Sum),
    (b"min", Terminal::Min),
    (b"max", Terminal::Max),
    (b"nocase", Terminal::NoCase),
    (b"rollup", Terminal::Rollup),
];

/// The terminal that the table has for a word, in any case.
fn lookup(table: &[(&[u8], Terminal)], word: &[u8]) -> Option<Terminal>
    ensures { result ≡ lookup_word (map (λ e. (lower e.0.now, e.1)) table.now) (lower word.now) }
{
    for (spelled, terminal) in table {
        if word.eq_ignore_ascii_case(spelled) {
            return Some(*terminal);
        }
    }
    None
}

/// The reserved word with this spelling, in any case.
fn reserved(word: &str) -> Option<Terminal>
    ensures { result ≡ lookup_word reserved_words (lower word.now) }
{
    lookup(&RESERVED, word.as_bytes())
}

#[tactic(auto, unfolding(crate::specs::Lexing::word))]
fn word_token(alloc: Global, word: &str) -> Result<Token, ParseError>
    ensures ok { IfOk result (λ t. t ≡ word_of word.now) }
    ensures err { IfErr result (λ e. e ≡ Memory) }
{
    match reserved(word) {
        Some(terminal) => Ok(Token::Fixed(terminal)),
        None => Ok(Token::Name(Text::of(alloc, word)?)),
    }
}

#[tactic(auto, unfolding(crate::specs::Lexing::word_at))]
fn word_of(alloc: Global, text: &str) -> Result<(Token, &str), ParseError>
    ensures { Gives (λ x. (x.0, x.1.now)) result (word_at text.now) }
{
    let (word, rest) = split_ascii(text, word_len(text.as_bytes()));
    Ok((word_token(alloc, word)?, rest))
}

/// The number with this sign and these digits, if it fits 64 bits.
fn signed(negative: bool, digits: &str) -> Option<i64>
    requires { (0 < length digits.now) × (all_ascii_digits digits.now ≡ true) }
    ensures { result ≡ signed negative (digits_value 10 digits.now) }
{
    if negative {
        let magnitude = digits.parse::<u64>().ok()?;
        if magnitude <= 1 << 63 {
            Some(0i64.wrapping_sub_unsigned(magnitude))
        } else {
            None
        }
    } else {
        digits.parse::<i64>().ok()
    }
}

#[tactic(auto, unfolding(crate::specs::Lexing::sign_at))]
fn sign_of(text: &str) -> Result<(Token, &str), ParseError>
    ensures { Gives (λ x. (x.0, x.1.now)) result (sign_at text.now) }
{
    let bytes = text.as_bytes();
    let (terminal, len) = match bytes {
        [b'<', b'>', ..] => (Terminal::NotEqual, 2),
        [b'<', b'=', ..] => (Terminal::LessEqual, 2),
        [b'>', b'=', ..] => (Terminal::GreaterEqual, 2),
        [b'(', ..] => (Terminal::Open, 1),
        [b')', ..] => (Terminal::Close, 1),
        [b',', ..] => (Terminal::Comma, 1),
        [b'*', ..] => (Terminal::Star, 1),
        [b'=', ..] => (Terminal::Equal, 1),
        [b'<', ..] => (Terminal::Less, 1),
        [b'>', ..] => (Terminal::Greater, 1),
        _ => return Err(ParseError::Syntax),
    };
    let (_, rest) = split_ascii(text, len);
    Ok((Token::Fixed(terminal), rest))
}

#[tactic(auto, unfolding(crate::specs::Lexing::name_in_quotes))]
fn quoted_name(alloc: Global, text: &str) -> Result<(Token, &str), ParseError>
    ensures { Gives (λ x. (x.0, x.1.now)) result (name_in_quotes text.now) }
{
    let (name, rest) = quoted(alloc, '"', text)?;
    if name.is_empty() {
        return Err(ParseError::Syntax);
    }
    Ok((Token::Name(Text::from_string(alloc, name)?), rest))
}

#[tactic(auto, unfolding(crate::specs::Lexing::text_in_quotes))]
fn quoted_text(alloc: Global, text: &str) -> Result<(Token, &str), ParseError>
    ensures { Gives (λ x. (x.0, x.1.now)) result (text_in_quotes text.now) }
{
    let (value, rest) = quoted(alloc, '\'', text)?;
    Ok((Token::Text(Text::from_string(alloc, value)?), rest))
}

/// The text without leading spaces and tabs.
fn trimmed(text: &str) -> &str
    ensures { result.now ≡ skip_blanks text.now }
{
    split_ascii(text, blank_len(text.as_bytes())).1
}

#[tactic(auto, unfolding(crate::specs::Lexing::digits_at))]
fn number_of(negative: bool, text: &str) -> Result<(Token, &str), ParseError>
    ensures { Gives (λ x. (x.0, x.1.now)) result (digits_at negative text.now) }
{
    let len = digits_len(text.as_bytes());
    let (digits, rest) = split_ascii(text, len);
    if len == 0 || begins_word(rest) {
        return Err(ParseError::Syntax);
    }
    match signed(negative, digits) {
        Some(number) => Ok((Token::Number(number), rest)),
        None => Err(ParseError::Syntax),
    }
}

fn begins_word(text: &str) -> bool
    ensures { result ≡ begins is_word_byte text.now }
{
    match text.as_bytes() {
        [] => false,
        [first, ..] => is_word_byte(*first),
    }
}

/// The text after its first byte, which is ASCII.
fn after_first(text: &str) -> &str
    requires { (0 < length text.now) × (slice_index text.now 0 < 128) }
    ensures { result.now ≡ drop 1 text.now }
{
    split_ascii(text, 1).1
}

#[tactic(auto, unfolding(crate::specs::Lexing::token_at))]
fn token_of(alloc: Global, text: &str) -> Result<(Token, &str), ParseError>
    ensures { Gives (λ x. (x.0, x.1.now)) result (token_at text.now) }
{
    let Some(first) = text.as_bytes().first() else {
        return Err(ParseError::Syntax);
    };
    let first = *first;
    if starts_word(first) {
        word_of(alloc, text)
    } else if first.is_ascii_digit() {
        number_of(false, text)
    } else if first == b'+' {
        number_of(false, after_first(text))
    } else if first == b'-' {
        number_of(true, after_first(text))
    } else if first == b'"' {
        quoted_name(alloc, after_first(text))
    } else if first == b'\'' {
        quoted_text(alloc, after_first(text))
    } else {
        sign_of(text)
    }
}

/// The tokens of a text.
#[tactic(auto, unfolding(crate::specs::Lexing::lexed))]
pub fn lex(alloc: Global, text: &str) -> Result<Tokens, ParseError>
    ensures { Gives (λ tokens. tokens) result (lexed text.now) }
{
    let mut tokens = Tokens::new(alloc);
    let mut rest = trimmed(text);
    for _ in 0..text.len() {
        if rest.is_empty() {
            break;
        }
        let (token, after) = token_of(alloc, rest)?;
        tokens.push(token)?;
        rest = trimmed(after);
    }
    if rest.is_empty() {
        Ok(tokens)
    } else {
        Err(ParseError::Syntax)
    }
}
