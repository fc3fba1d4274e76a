//! Texts with each kind of token, and the line of the first bad byte.
ghost use Rattle.std.specs.Prelude.{◌≤◌, length};

use qm_lex::*;
use qm_limits::MOST_BYTES;
use std::alloc::Global;
use std::test::Fail;

/// Whether a text has as many tokens as this, or a bad byte on this line.
#[derive(Clone, Copy, Debug, PartialEq, Eq)]
enum Found {
    Tokens(u32),
    BadByte(u32),
}

fn found_in(alloc: Global, text: &[u8]) -> Result<Found, Fail>
    requires { length text.now ≤ MOST_BYTES }
{
    match lex(alloc, text) {
        Ok(tokens) => Ok(Found::Tokens(tokens.len())),
        Err(LexError::BadByte { line }) => Ok(Found::BadByte(line)),
        Err(LexError::Memory) => Err(Fail::from("out of memory")),
    }
}

#[test]
fn tokens_are_counted_up_to_a_bad_byte(rt: HostRuntime) -> Result<(), Fail> {
    let rows: [(&'static [u8], Found); 18] = [
        (b"", Found::Tokens(0)),
        (b" \t\r\n", Found::Tokens(0)),
        (b"12ab", Found::Tokens(2)),
        (b"12_", Found::BadByte(1)),
        (b"a_ _", Found::BadByte(1)),
        (b"a_", Found::Tokens(1)),
        (b"1..2", Found::Tokens(3)),
        (b"1.5", Found::BadByte(1)),
        (b".", Found::BadByte(1)),
        (b"...", Found::BadByte(1)),
        (b"{}()+-*/%..", Found::Tokens(10)),
        (b"a\nb # $ \xff\n$", Found::BadByte(3)),
        (b"a\r$", Found::BadByte(1)),
        (b"# $\n\n\n a $", Found::BadByte(4)),
        (b"# $", Found::Tokens(0)),
        (b"#", Found::Tokens(0)),
        (b"a#b\nc", Found::Tokens(2)),
        (b"\x80", Found::BadByte(1)),
    ];
    for (text, wanted) in rows {
        assert!(rt; text.len() <= MOST_BYTES);
        let found = found_in(rt.alloc(), text)?;
        assert_eq!(rt; found, wanted);
    }
    Ok(())
}

#[test]
fn tokens_are_slices_with_lines(rt: HostRuntime) -> Result<(), Fail> {
    let Ok(tokens) = lex(rt.alloc(), b"ab # c\n 12..") else {
        return Err(Fail::from("no tokens"));
    };
    let wanted = [
        (TokenKind::Word, 0, 2, 1),
        (TokenKind::Number, 8, 10, 2),
        (TokenKind::Symbol, 10, 12, 2),
    ];
    for (j, (kind, start, stop, line)) in wanted.into_iter().enumerate() {
        assert_eq!(rt;
            tokens.token(j as u32),
            Some(Token {
                kind,
                start,
                stop,
                line
            })
        );
    }
    assert_eq!(rt; tokens.token(3), None);
    Ok(())
}
