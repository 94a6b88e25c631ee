//! The token at the start of a text, and its length in bytes.
ghost use Rattle.std.specs.Prelude.{◌≡◌, ◌≤◌, ◌<◌, ◌⊎◌, length, IfSome, IfNone, true, false, slice_index, drop, pred};
ghost use Rattle.std.specs.Str.{IsCharBoundary, IsUtf8};
ghost use Rattle.lq_predicate_formula.specs.Words.{WordIs};
ghost use Rattle.lq_predicate_formula.specs.TokenView.{front_of, token_of};
ghost use Rattle.lq_predicate_formula.specs.Lexing.{fixed as fixed_front, front_at, is_symbol, longer as longer_front, quoted_bytes, quoted_front, symbol_front, word_bytes, word_front};

use crate::count::{count_quoted, count_word};
use crate::token::Token;
use lq_value::Op;

// A token, its length in bytes, and the offset of its raw text.
#[derive(Clone, Copy)]
pub(crate) struct Piece<'a> {
    pub(crate) token: Token<'a>,
    pub(crate) size: usize,
    pub(crate) inside: usize,
}

fn fixed(token: Token<'static>, size: usize) -> Piece<'static>
    ensures value { front_of result ≡ fixed_front (token_of token.entry) size }
    ensures inside { result.inside ≡ 0 }
{
    Piece {
        token,
        size,
        inside: 0,
    }
}

// The longer token, if the second byte is this one.
fn longer(byte: u8, bytes: &[u8], long: Token<'static>, short: Token<'static>) -> Piece<'static>
    requires { 0 < length bytes.now }
    ensures value { front_of result
        ≡ longer_front byte (drop 1 bytes.now) (token_of long.entry) (token_of short.entry) }
    ensures bound { result.size ≤ length bytes.now }
    ensures some { 0 < result.size }
    ensures inside { result.inside ≡ 0 }
    ensures last { byte < 128 → slice_index bytes.now 0 < 128
        → slice_index bytes.now (pred result.size) < 128 }
{
    if bytes.len() > 1 && bytes[1] == byte {
        fixed(long, 2)
    } else {
        fixed(short, 1)
    }
}

// The token that begins with a symbol.
fn symbol(bytes: &[u8]) -> Option<Piece<'static>>
    requires { 0 < length bytes.now }
    ensures none { IfNone result (is_symbol (slice_index bytes.now 0) ≡ false) }
    ensures some { IfSome result (λ p. (is_symbol (slice_index bytes.now 0) ≡ true)
        × (front_of p ≡ symbol_front (slice_index bytes.now 0) (drop 1 bytes.now))) }
    ensures bound { IfSome result
        (λ p. (0 < p.size) × (p.size ≤ length bytes.now) × (p.inside ≡ 0)) }
    ensures last { IfSome result (λ p. slice_index bytes.now (pred p.size) < 128) }
    ensures text { IfSome result (λ p. WordIs IsUtf8 (token_of p.token)) }
{
    match bytes[0] {
        b'(' => Some(fixed(Token::Opens, 1)),
        b')' => Some(fixed(Token::Closes, 1)),
        b'!' => Some(longer(b'=', bytes, Token::Is(Op::Ne), Token::Bang)),
        b'=' => Some(longer(b'=', bytes, Token::Is(Op::Eq), Token::Is(Op::Eq))),
        b'<' => Some(longer(b'=', bytes, Token::Is(Op::Le), Token::Is(Op::Lt))),
        b'>' => Some(longer(b'=', bytes, Token::Is(Op::Ge), Token::Is(Op::Gt))),
        b'&' => Some(longer(b'&', bytes, Token::Ands, Token::Lone)),
        b'|' => Some(longer(b'|', bytes, Token::Ors, Token::Lone)),
        _ => None,
    }
}

// A quoted text, from its opening mark.
fn quoted<'a>(rest: &'a str) -> Piece<'a>
    requires some { 0 < length rest.now }
    requires mark { (slice_index rest.now 0 ≡ 34) ⊎ (slice_index rest.now 0 ≡ 39) }
    ensures value { front_of result ≡ quoted_front (drop 1 rest.entry.now)
        (quoted_bytes (slice_index rest.entry.now 0) false (drop 1 rest.entry.now)) }
    ensures boundary { IsCharBoundary rest.entry.now result.size }
    ensures some { 0 < result.size }
    ensures inside { result.inside ≤ result.size }
    ensures text { WordIs IsUtf8 (token_of result.token) }
{
    let mark = rest.as_bytes()[0];
    let (_, after) = rest.split_at(1);
    match count_quoted(mark, after.as_bytes()) {
        None => Piece {
            token: Token::Cut,
            size: rest.len(),
            inside: 0,
        },
        Some(n) => {
            let (raw, _) = after.split_at(n);
            Piece {
                token: Token::Word(raw),
                size: n + 2,
                inside: 1,
            }
        }
    }
}

// A word, or a `\` with nothing after it.
fn word<'a>(rest: &'a str) -> Piece<'a>
    requires { 0 < length rest.now }
    ensures value { front_of result ≡ word_front rest.entry.now (word_bytes false rest.entry.now) }
    ensures boundary { IsCharBoundary rest.entry.now result.size }
    ensures some { 0 < result.size }
    ensures inside { result.inside ≤ result.size }
    ensures text { WordIs IsUtf8 (token_of result.token) }
{
    let n = count_word(rest.as_bytes());
    if n == 0 {
        return Piece {
            token: Token::Cut,
            size: rest.len(),
            inside: 0,
        };
    }
    let (raw, _) = rest.split_at(n);
    Piece {
        token: Token::Word(raw),
        size: n,
        inside: 0,
    }
}

// The token at the start of a text.
pub(crate) fn read_piece<'a>(rest: &'a str) -> Piece<'a>
    requires { 0 < length rest.now }
    ensures value { front_of result ≡ front_at rest.entry.now }
    ensures boundary { IsCharBoundary rest.entry.now result.size }
    ensures some { 0 < result.size }
    ensures inside { result.inside ≤ result.size }
    ensures text { WordIs IsUtf8 (token_of result.token) }
{
    let bytes = rest.as_bytes();
    if let Some(piece) = symbol(bytes) {
        return piece;
    }
    let b = bytes[0];
    if b == b'"' || b == b'\'' {
        quoted(rest)
    } else {
        word(rest)
    }
}
