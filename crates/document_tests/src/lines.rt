// Tokens and lines, each read with ample memory.

use dia_lines::{Line, Part, Position, read_line};
use dia_tokens::{Keyword, Symbol, Token, tokens, tokens_into};
use std::alloc::Global;
use std::test::Fail;

#[test]
fn tokens_of_a_line(rt: HostRuntime) -> Result<(), Fail> {
    let tokens = tokens(rt.alloc(), b"let x == -007 # all")?;
    assert!(rt;
        matches!(
            tokens.as_slice(),
            [
                Token::Keyword(Keyword::Let),
                Token::Name(_),
                Token::Symbol(Symbol::Equal),
                Token::Number(-7),
            ]
        )
    );
    Ok(())
}

#[test]
fn tokens_take_the_place_of_others(rt: HostRuntime) -> Result<(), Fail> {
    let mut held = Vec::new(rt.alloc());
    tokens_into(b"a b c", &mut held)?;
    assert_eq!(rt; held.len(), 3);
    tokens_into(b"done 5", &mut held)?;
    assert!(rt;
        matches!(
            held.as_slice(),
            [Token::Keyword(Keyword::Done), Token::Number(5)]
        )
    );
    assert!(rt; tokens_into(b"a ?", &mut held).is_err());
    assert!(rt; held.is_empty());
    Ok(())
}

// Lines before a last one.
static LINES: [&[u8]; 6] = [
    b"dbp 1",
    b"policy fp",
    b"until 10",
    b"event e",
    b"task a every 5 cost 1",
    b"let x = 1 + 2",
];

static LAST: &[u8] = b"read y = pre b.z at 3";

// The position after `LINES`.
fn position_of_last(alloc: Global) -> Result<Position, Fail> {
    let mut position = Position::start();
    for line in &LINES {
        let (_, next) = read_line(alloc, position, line)?;
        position = next;
    }
    Ok(position)
}

fn is_delayed_read(line: &Line) -> bool {
    matches!(
        line,
        Line::Part(Part::Read {
            delay: 1,
            at: 3,
            ..
        })
    )
}

// Whether the last line is a read so delayed, and the position after it.
fn last_read(alloc: Global, before: Position) -> Result<(bool, Position), Fail> {
    let (last, position) = read_line(alloc, before, LAST)?;
    Ok((is_delayed_read(&last), position))
}

#[test]
fn a_line_after_others(rt: HostRuntime) -> Result<(), Fail> {
    let before = position_of_last(rt.alloc())?;
    let (is_read, position) = last_read(rt.alloc(), before)?;
    assert!(rt; is_read);
    assert_eq!(rt; position.counts.events, 1);
    assert_eq!(rt; position.counts.body, 2);
    assert_eq!(rt; position.counts.links, 1);
    assert!(rt; !position.is_ended());
    Ok(())
}
