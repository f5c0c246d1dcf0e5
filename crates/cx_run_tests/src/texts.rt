//! Places, numerals and tokens. The values were worked by hand.

use cx_ast::{Sign, TokenKind};
use cx_lex::{LexKind, lex};
use cx_text::{Cursor, DESIGN_BYTES, Place, decimal};
use std::alloc::Global;
use std::process::Abort;
use std::test::Fail;

/// The line, the column and the byte at each step over `a`, two line feeds, `b` and `c`. Counted by hand: a line feed has the place of its
/// own line, and the byte behind it begins the next.
const PLACES: [(u32, u32, Option<u8>); 7] = [
    (1, 1, Some(b'a')),
    (1, 2, Some(b'\n')),
    (2, 1, Some(b'\n')),
    (3, 1, Some(b'b')),
    (3, 2, Some(b'c')),
    (3, 3, None),
    (3, 3, None),
];

#[test]
fn places_count_from_one(rt: HostRuntime) {
    let mut cursor = Cursor::new(b"a\n\nbc");
    for (line, column, byte) in PLACES {
        assert_eq!(rt; cursor.place(), Place { line, column });
        assert_eq!(rt; cursor.peek(), byte);
        assert_eq!(rt; cursor.next(), byte);
    }
}

/// Digits and their number. 2 to the 128 is 340282366920938463463374607431768211456.
const DECIMALS: [(&[u8], Option<u128>); 7] = [
    (b"", None),
    (b"0", Some(0)),
    (b"00042", Some(42)),
    (b"4x", None),
    (b"-1", None),
    (b"340282366920938463463374607431768211455", Some(u128::MAX)),
    (b"340282366920938463463374607431768211456", None),
];

#[test]
fn decimals_stop_at_128_bits(rt: HostRuntime) {
    for (digits, want) in DECIMALS {
        assert_eq!(rt; decimal(digits), want);
    }
}

/// What a token is, with bytes that are lent.
#[derive(Clone, Copy)]
enum Plain {
    Word(&'static [u8]),
    Text(&'static [u8]),
    Number(u64),
    Literal(u32, u128),
    Sign(Sign),
}

/// Whether a kind is of this token.
fn is_of(kind: &TokenKind, plain: Plain) -> bool {
    match (kind, plain) {
        (TokenKind::Word(name), Plain::Word(bytes)) => name.bytes() == bytes,
        (TokenKind::Text(name), Plain::Text(bytes)) => name.bytes() == bytes,
        (TokenKind::Number(a), Plain::Number(b)) => *a == b,
        (TokenKind::Literal(v, a), Plain::Literal(w, b)) => *v == w && *a == b,
        (TokenKind::Sign(a), Plain::Sign(b)) => *a == b,
        _ => false,
    }
}

/// Tokens in order, each with its line and column, worked by hand.
const WANTED: [(u32, u32, Plain); 22] = [
    (1, 1, Plain::Word(b"cell")),
    (2, 6, Plain::Word(b"r1")),
    (2, 8, Plain::Sign(Sign::Equal)),
    (2, 9, Plain::Word(b"std_reg")),
    (2, 16, Plain::Sign(Sign::OpenParen)),
    (2, 17, Plain::Number(32)),
    (2, 19, Plain::Sign(Sign::CloseParen)),
    (2, 20, Plain::Sign(Sign::Semicolon)),
    (3, 2, Plain::Word(b"g")),
    (3, 3, Plain::Sign(Sign::OpenBracket)),
    (3, 4, Plain::Word(b"done")),
    (3, 8, Plain::Sign(Sign::CloseBracket)),
    (3, 9, Plain::Sign(Sign::GreaterEqual)),
    (3, 11, Plain::Literal(8, 255)),
    (3, 16, Plain::Sign(Sign::Question)),
    (3, 17, Plain::Literal(4, 10)),
    (3, 24, Plain::Sign(Sign::Arrow)),
    (3, 26, Plain::Text(b"a\t\xff")),
    (3, 32, Plain::Literal(6, 15)),
    (3, 38, Plain::Number(42)),
    (3, 43, Plain::Sign(Sign::LessEqual)),
    (3, 46, Plain::Sign(Sign::Less)),
];

#[test]
fn tokens_have_their_places(rt: HostRuntime) -> Result<(), Fail> {
    let text =
        b"cell /* a\n* **/r1=std_reg(32); // end\r\n\tg[done]>=8'hFF?4'b1010->\"a\t\xff\" 6'o17 00042<= <";
    let tokens = lex(rt.alloc(), text).ok().ok_or("a fault")?;
    assert_eq!(rt; tokens.len(), WANTED.len());
    for (token, (line, column, kind)) in tokens.iter().zip(WANTED) {
        assert!(rt; is_of(&token.kind, kind), "{line} {column}");
        assert_eq!(rt; token.place, Place { line, column });
    }
    Ok(())
}

/// How many tokens a text has, or its fault with its line and column.
fn outcome(rt: &impl Abort, alloc: Global, text: &[u8]) -> Result<usize, (LexKind, u32, u32)> {
    assert!(rt; text.len() <= DESIGN_BYTES);
    match lex(alloc, text) {
        Ok(tokens) => Ok(tokens.len()),
        Err(fault) => Err((fault.kind, fault.place.line, fault.place.column)),
    }
}

/// From the rules of the tokens: the count of tokens of a text, or its first fault.
const FAULTS: [(&[u8], Result<usize, (LexKind, u32, u32)>); 30] = [
    (b"", Ok(0)),
    (b" \t\r\n", Ok(0)),
    (b"a;b", Ok(3)),
    (b"foo $", Err((LexKind::BadByte, 1, 5))),
    (b"a\n /b", Err((LexKind::BadByte, 2, 2))),
    (b"a -b", Err((LexKind::BadByte, 1, 3))),
    (b"caf\xc3\xa9", Err((LexKind::BadByte, 1, 4))),
    (b"/*/", Err((LexKind::OpenComment, 1, 1))),
    (b"/**/a", Ok(1)),
    (b"a /* * /\n", Err((LexKind::OpenComment, 1, 3))),
    (b"// /* \" $\na", Ok(1)),
    (b"a \"b\nc\"", Err((LexKind::OpenString, 1, 3))),
    (b"\"", Err((LexKind::OpenString, 1, 1))),
    (b"\"\"", Ok(1)),
    (b"32'd10x", Err((LexKind::BadLiteral, 1, 1))),
    (b"32'd10", Ok(1)),
    (b"32'd", Err((LexKind::BadLiteral, 1, 1))),
    (b"32'D1", Err((LexKind::BadLiteral, 1, 1))),
    (b"32 'd1", Err((LexKind::BadByte, 1, 4))),
    (b"4'b102", Err((LexKind::BadLiteral, 1, 1))),
    (b"4'o8", Err((LexKind::BadLiteral, 1, 1))),
    (b"8'xfF", Ok(1)),
    (b"8'xg", Err((LexKind::BadLiteral, 1, 1))),
    (b"1'd1'd1", Err((LexKind::BadLiteral, 1, 1))),
    (b"7_", Err((LexKind::BadLiteral, 1, 1))),
    (b"18446744073709551615", Ok(1)),
    (b"18446744073709551616", Err((LexKind::BadLiteral, 1, 1))),
    (b"4294967296'd0", Err((LexKind::BadLiteral, 1, 1))),
    (b"128'd340282366920938463463374607431768211455", Ok(1)),
    (
        b"128'd340282366920938463463374607431768211456",
        Err((LexKind::BadLiteral, 1, 1)),
    ),
];

#[test]
fn faults_are_the_first(rt: HostRuntime) {
    for (text, wanted) in FAULTS {
        assert_eq!(rt; outcome(&rt, rt.alloc(), text), wanted);
    }
}

/// A name and a string of 255 bytes are read, and none of 256.
#[test]
fn names_have_255_bytes(rt: HostRuntime) -> Result<(), Fail> {
    let mut text = vec![in rt.alloc(); b'a'; 258]?;
    text[0] = b'"';
    text[257] = b'"';
    let cases: [(&[u8], Result<usize, (LexKind, u32, u32)>); 4] = [
        (&text[1..256], Ok(1)),
        (&text[1..257], Err((LexKind::BadLiteral, 1, 1))),
        (&text[..257], Err((LexKind::OpenString, 1, 1))),
        (&text, Err((LexKind::BadLiteral, 1, 1))),
    ];
    for (text, wanted) in cases {
        assert_eq!(rt; outcome(&rt, rt.alloc(), text), wanted);
    }
    Ok(())
}
