// Tokens and numbers, printed with ample memory.

use dia_print::Printer;
use dia_tokens::{Keyword, Symbol, Token};
use std::test::Fail;

// No space stands between some of the tokens.
static SPACED: &[u8] = b"- 5 - -5 min((-, not () 18446744073709551615\n kept7";

fn push_spaced(printer: &mut Printer) -> Result<(), Fail> {
    let tokens = [
        Token::Symbol(Symbol::Minus),
        Token::Number(5),
        Token::Symbol(Symbol::Minus),
        Token::Number(-5),
        Token::Keyword(Keyword::Min),
        Token::Symbol(Symbol::Open),
        Token::Symbol(Symbol::Open),
        Token::Symbol(Symbol::Minus),
        Token::Symbol(Symbol::Comma),
        Token::Keyword(Keyword::Not),
        Token::Symbol(Symbol::Open),
        Token::Symbol(Symbol::Close),
    ];
    for token in tokens {
        printer.push(token)?;
    }
    printer.push_count(u64::MAX)?;
    printer.push_bytes(b"\n kept")?;
    printer.push_count(7)?;
    Ok(())
}

#[test]
fn tokens_are_printed(rt: HostRuntime) -> Result<(), Fail> {
    let mut printer = Printer::new(rt.alloc());
    push_spaced(&mut printer)?;
    assert_eq!(rt; printer.into_text().as_slice(), SPACED);
    Ok(())
}
