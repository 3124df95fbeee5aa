// The numbers and names of codes, and the names of limits.

use crate::fault::{Limit, ReadCode};
use std::fmt;

impl ReadCode {
    ghost use Rattle.std.specs.Prelude.{◌≡◌};
    ghost use Rattle.dia_lines.specs.Codes.{code_number, code_name};

    /// The number of the code.
    pub fn number(self) -> u32
        ensures { result ≡ code_number self }
    {
        match self {
            ReadCode::BadByte => 1,
            ReadCode::BadToken => 2,
            ReadCode::BadLine => 3,
            ReadCode::NumberTooWide => 4,
            ReadCode::NameTooLong => 5,
            ReadCode::LimitHit(_) => 6,
            ReadCode::MissingDone => 7,
            ReadCode::MissingHeader => 8,
            ReadCode::DepthHit => 9,
        }
    }

    /// The name of the code.
    pub fn name(self) -> &'static str
        ensures { result.now ≡ code_name self }
    {
        match self {
            ReadCode::BadByte => "BadByte",
            ReadCode::BadToken => "BadToken",
            ReadCode::BadLine => "BadLine",
            ReadCode::NumberTooWide => "NumberTooWide",
            ReadCode::NameTooLong => "NameTooLong",
            ReadCode::LimitHit(_) => "LimitHit",
            ReadCode::MissingDone => "MissingDone",
            ReadCode::MissingHeader => "MissingHeader",
            ReadCode::DepthHit => "DepthHit",
        }
    }
}

impl Limit {
    ghost use Rattle.std.specs.Prelude.{◌≡◌};
    ghost use Rattle.dia_lines.specs.Codes.{limit_name};

    /// The name of the limit.
    pub fn name(self) -> &'static str
        ensures { result.now ≡ limit_name self }
    {
        match self {
            Limit::Tasks => "tasks",
            Limit::Reads => "reads",
            Limit::Links => "links",
            Limit::Outs => "outs",
            Limit::Inputs => "inputs",
            Limit::Events => "events",
            Limit::Body => "body",
            Limit::Nodes => "nodes",
            Limit::Number => "number",
        }
    }
}

impl fmt::Display for Limit {
    ghost use Rattle.std.specs.Prelude.{Some};
    ghost use Rattle.dia_lines.specs.Codes.{limit_name};

    ghost output = { λ limit. Some (limit_name limit) };

    fn fmt<W: fmt::Write>(&self, f: &mut fmt::Formatter<W>) -> fmt::Result {
        f.write_str(self.name())
    }
}

/// The number and the name of the code, with the limit's name after a passed limit, as a refusal has them after the number
/// of its line.
impl fmt::Display for ReadCode {
    ghost use Rattle.std.specs.Prelude.{Some};
    ghost use Rattle.dia_lines.specs.Codes.{code_text};

    ghost output = { λ code. Some (code_text code) };

    fn fmt<W: fmt::Write>(&self, f: &mut fmt::Formatter<W>) -> fmt::Result {
        write!(f, "{} {}", self.number(), self.name())?;
        if let ReadCode::LimitHit(limit) = *self {
            write!(f, " {limit}")?;
        }
        Ok(())
    }
}
