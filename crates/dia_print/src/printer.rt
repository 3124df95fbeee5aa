// A text that grows by tokens and lines.

ghost use Rattle.std.specs.Prelude.{◌≡◌};
ghost use Rattle.dia_tokens.specs.TokenText.{edge_of, is_apart, clings, is_open};

use dbp_plan::{Name, NoMemory};
use dia_tokens::{Edge, Symbol, Token};
use itoa::{Buffer, Integer};
use std::alloc::Global;
use std::marker::Model;

/// A text that is written token by token and line by line, into one buffer that grows. A contract sees the text, and how
/// its last line ends. After `NoMemory` a part may have been written.
#[derive(Drop)]
pub struct Printer {
    text: Vec<u8>,
    edge: Edge,
}

impl Model for Printer {
    ghost use Rattle.dia_print.specs.Printed.{Printed};

    ghost Value = { Printed };

    ghost view = { λ p. record { text = p.text.items; edge = p.edge } };
}

fn clings(token: &Token) -> bool
    ensures { result ≡ clings token.now }
{
    matches!(
        token,
        Token::Symbol(Symbol::Close | Symbol::Comma | Symbol::Point)
    )
}

fn is_open(token: &Token) -> bool
    ensures { result ≡ is_open token.now }
{
    matches!(token, Token::Symbol(Symbol::Open))
}

fn is_apart(edge: Edge, token: &Token) -> bool
    ensures { result ≡ is_apart edge token.now }
{
    match edge {
        Edge::Tight => false,
        Edge::Call => !(is_open(token) || clings(token)),
        Edge::Loose => !clings(token),
    }
}

fn edge_of(token: &Token) -> Edge
    ensures { result ≡ edge_of token.now }
{
    match token {
        Token::Symbol(Symbol::Open | Symbol::Point) => Edge::Tight,
        Token::Keyword(keyword) if keyword.begins_call() => Edge::Call,
        _ => Edge::Loose,
    }
}

impl Printer {
    ghost use Rattle.std.specs.Prelude.{◌≡◌, ◌++◌, pos, [], ◌∷◌, OnOk};
    ghost use Rattle.dia_tokens.specs.declared.token.Token.TheVariants.{Name as NameToken, Number as NumberToken};
    ghost use Rattle.dia_tokens.specs.Spelling.{symbol_text};
    ghost use Rattle.dia_tokens.specs.declared.edge.Edge.TheVariants.{Tight as TightEdge, Loose as LooseEdge};
    ghost use Rattle.dia_tokens.specs.TokenText.{gap};
    ghost use Rattle.dia_print.specs.Printed.{with_token, with_bytes, ended};

    /// The empty text. It takes no memory.
    pub fn new(alloc: Global) -> Printer
        ensures { result ≡ record { text = []; edge = TightEdge } }
    {
        Printer {
            text: Vec::new(alloc),
            edge: Edge::Tight,
        }
    }

    fn push_text(&mut self, text: &[u8]) -> Result<(), NoMemory>
        ensures { OnOk result (self.new
            ≡ record { text = self.old.text ++ text.now; edge = self.old.edge }) }
    {
        self.text.extend_from_slice(text)?;
        Ok(())
    }

    fn push_number<N: Integer>(&mut self, number: N) -> Result<(), NoMemory>
        ensures { OnOk result (self.new
            ≡ record { text = self.old.text ++ N.text number; edge = self.old.edge }) }
    {
        self.push_text(Buffer::new().format(number).as_bytes())
    }

    fn push_gap(&mut self, token: &Token) -> Result<(), NoMemory>
        ensures { OnOk result (self.new
            ≡ record {
              text = self.old.text
                  ++ gap self.old.edge token.now;
              edge = self.old.edge;
            }) }
    {
        if is_apart(self.edge, token) {
            self.text.push(b' ')?;
        }
        Ok(())
    }

    // Symbols mostly have one byte.
    fn push_symbol(&mut self, symbol: Symbol) -> Result<(), NoMemory>
        ensures { OnOk result (self.new
            ≡ record { text = self.old.text ++ symbol_text symbol; edge = self.old.edge }) }
    {
        match symbol.text() {
            [byte] => self.text.push(*byte)?,
            text => self.push_text(text)?,
        }
        Ok(())
    }

    /// Adds the token.
    pub fn push(&mut self, token: Token) -> Result<(), NoMemory>
        ensures { OnOk result (self.new ≡ with_token self.old token) }
    {
        self.push_gap(&token)?;
        match token {
            Token::Keyword(keyword) => self.push_text(keyword.text())?,
            Token::Name(name) => self.push_text(name.bytes())?,
            Token::Number(number) => self.push_number(number)?,
            Token::Symbol(symbol) => self.push_symbol(symbol)?,
        }
        self.edge = edge_of(&token);
        Ok(())
    }

    // Adds a name, as `push` does.
    pub(crate) fn push_name(&mut self, name: &Name) -> Result<(), NoMemory>
        ensures { OnOk result (self.new ≡ with_token self.old (NameToken name.now)) }
    {
        if !matches!(self.edge, Edge::Tight) {
            self.text.push(b' ')?;
        }
        self.push_text(name.bytes())?;
        self.edge = Edge::Loose;
        Ok(())
    }

    /// Adds a number that isn't negative.
    pub fn push_count(&mut self, count: u64) -> Result<(), NoMemory>
        ensures { OnOk result (self.new ≡ with_token self.old (NumberToken (pos count))) }
    {
        self.push_gap(&Token::Number(0))?;
        self.push_number(count)?;
        self.edge = Edge::Loose;
        Ok(())
    }

    /// Adds bytes as they are, after which a line begins.
    pub fn push_bytes(&mut self, bytes: &[u8]) -> Result<(), NoMemory>
        ensures { OnOk result (self.new ≡ with_bytes self.old bytes.now) }
    {
        self.push_text(bytes)?;
        self.edge = Edge::Tight;
        Ok(())
    }

    /// Ends the line.
    pub fn end_line(&mut self) -> Result<(), NoMemory>
        ensures { OnOk result (self.new ≡ ended self.old) }
    {
        self.push_bytes(b"\n")
    }

    /// The text.
    pub fn into_text(self) -> Vec<u8>
        ensures { result.items ≡ self.text }
    {
        self.text
    }
}
