// Tokens.

ghost use Rattle.std.specs.Prelude.{◌≡◌};
ghost use Rattle.dia_tokens.specs.Spelling.{symbol_text};
ghost use Rattle.dia_tokens.specs.Keywords.{begins_call, keyword_text};

use dbp_plan::Name;

/// A keyword. It is no name.
#[derive(Clone, Copy, Debug, PartialEq, Eq)]
pub enum Keyword {
    Dbp,
    Policy,
    Fp,
    Edf,
    Until,
    Input,
    Event,
    Task,
    Every,
    From,
    On,
    Prio,
    Deadline,
    Cost,
    State,
    Sense,
    Let,
    Next,
    Read,
    Pre,
    At,
    Out,
    Then,
    If,
    Else,
    And,
    Or,
    Not,
    Min,
    Max,
    Trace,
    Script,
    Done,
    When,
    Cpu,
}

impl Keyword {
    /// The bytes of the keyword.
    pub fn text(self) -> &'static [u8]
        ensures { result.now ≡ keyword_text self }
    {
        match self {
            Keyword::Dbp => b"dbp",
            Keyword::Policy => b"policy",
            Keyword::Fp => b"fp",
            Keyword::Edf => b"edf",
            Keyword::Until => b"until",
            Keyword::Input => b"input",
            Keyword::Event => b"event",
            Keyword::Task => b"task",
            Keyword::Every => b"every",
            Keyword::From => b"from",
            Keyword::On => b"on",
            Keyword::Prio => b"prio",
            Keyword::Deadline => b"deadline",
            Keyword::Cost => b"cost",
            Keyword::State => b"state",
            Keyword::Sense => b"sense",
            Keyword::Let => b"let",
            Keyword::Next => b"next",
            Keyword::Read => b"read",
            Keyword::Pre => b"pre",
            Keyword::At => b"at",
            Keyword::Out => b"out",
            Keyword::Then => b"then",
            Keyword::If => b"if",
            Keyword::Else => b"else",
            Keyword::And => b"and",
            Keyword::Or => b"or",
            Keyword::Not => b"not",
            Keyword::Min => b"min",
            Keyword::Max => b"max",
            Keyword::Trace => b"trace",
            Keyword::Script => b"script",
            Keyword::Done => b"done",
            Keyword::When => b"when",
            Keyword::Cpu => b"cpu",
        }
    }

    /// Whether the keyword is an operator that is written as a call: no space stands between it and its `(`.
    pub fn begins_call(self) -> bool
        ensures { result ≡ begins_call self }
    {
        matches!(self, Keyword::Min | Keyword::Max)
    }
}

/// A symbol.
#[derive(Clone, Copy, Debug, PartialEq, Eq)]
pub enum Symbol {
    /// `=`
    Assign,
    /// `==`
    Equal,
    /// `!=`
    Unequal,
    /// `<`
    Less,
    /// `<=`
    AtMost,
    /// `>`
    Greater,
    /// `>=`
    AtLeast,
    /// `+`
    Plus,
    /// `-`
    Minus,
    /// `*`
    Star,
    /// `/`
    Slash,
    /// `%`
    Percent,
    /// `(`
    Open,
    /// `)`
    Close,
    /// `,`
    Comma,
    /// `.`
    Point,
}

impl Symbol {
    /// The bytes of the symbol.
    pub fn text(self) -> &'static [u8]
        ensures { result.now ≡ symbol_text self }
    {
        match self {
            Symbol::Assign => b"=",
            Symbol::Equal => b"==",
            Symbol::Unequal => b"!=",
            Symbol::Less => b"<",
            Symbol::AtMost => b"<=",
            Symbol::Greater => b">",
            Symbol::AtLeast => b">=",
            Symbol::Plus => b"+",
            Symbol::Minus => b"-",
            Symbol::Star => b"*",
            Symbol::Slash => b"/",
            Symbol::Percent => b"%",
            Symbol::Open => b"(",
            Symbol::Close => b")",
            Symbol::Comma => b",",
            Symbol::Point => b".",
        }
    }
}

/// A token of a line.
#[derive(Clone, Copy)]
pub enum Token {
    Keyword(Keyword),
    Name(Name),
    Number(i64),
    Symbol(Symbol),
}
