// The limits of a document, and why a line or a text is refused.

ghost use Rattle.std.specs.Prelude.{◌≡◌};
ghost use Rattle.dia_lines.specs.Answers.{error_of_text, error_of_expression};
ghost use Rattle.dia_lines.specs.declared.fault.LineError.TheVariants.{Refused};
ghost use Rattle.dia_lines.specs.declared.fault.ReadCode.TheVariants.{LimitHit};

use dia_exprs::ExpressionFail;
use dia_tokens::LineFail;

/// A limit of a document.
#[derive(Clone, Copy, Debug, PartialEq, Eq)]
pub enum Limit {
    Tasks,
    /// `read` lines of one task.
    Reads,
    /// `read` lines of the document.
    Links,
    Outs,
    Inputs,
    Events,
    /// Lines of one task's body.
    Body,
    /// Nodes of an expression.
    Nodes,
    /// A number's own limits.
    Number,
}

/// Why a text is no document.
#[derive(Clone, Copy, Debug, PartialEq, Eq)]
pub enum ReadCode {
    /// 1: a byte that isn't allowed in its section.
    BadByte,
    /// 2: a text that makes no token.
    BadToken,
    /// 3: tokens that are no statement that may stand there.
    BadLine,
    /// 4: a number outside of 64 bits.
    NumberTooWide,
    /// 5: a name of more than 24 bytes.
    NameTooLong,
    /// 6: a limit is passed.
    LimitHit(Limit),
    /// 7: the text ends without `done`.
    MissingDone,
    /// 8: the first line with tokens is neither `dbp 1` nor `dbp 2`.
    MissingHeader,
    /// 9: more than 64 parentheses of a line open at once.
    DepthHit,
}

/// Why a line wasn't read.
#[derive(Clone, Copy, Debug, PartialEq, Eq)]
pub enum LineError {
    /// The line's first fault.
    Refused(ReadCode),
    /// Memory ran out. That may be at any time.
    NoMemory,
}

impl From<ReadCode> for LineError {
    ghost from_gives = { λ code e. e ≡ Refused code };

    fn from(code: ReadCode) -> LineError {
        LineError::Refused(code)
    }
}

impl From<Limit> for LineError {
    ghost from_gives = { λ limit e. e ≡ Refused (LimitHit limit) };

    fn from(limit: Limit) -> LineError {
        LineError::Refused(ReadCode::LimitHit(limit))
    }
}

impl From<LineFail> for LineError {
    ghost from_gives = { λ fail e. e ≡ error_of_text fail };

    fn from(fail: LineFail) -> LineError {
        match fail {
            LineFail::BadByte => LineError::Refused(ReadCode::BadByte),
            LineFail::BadToken => LineError::Refused(ReadCode::BadToken),
            LineFail::NumberTooWide => LineError::Refused(ReadCode::NumberTooWide),
            LineFail::NameTooLong => LineError::Refused(ReadCode::NameTooLong),
            LineFail::NoMemory => LineError::NoMemory,
        }
    }
}

impl From<ExpressionFail> for LineError {
    ghost from_gives = { λ fail e. e ≡ error_of_expression fail };

    fn from(fail: ExpressionFail) -> LineError {
        match fail {
            ExpressionFail::NoExpression => LineError::Refused(ReadCode::BadLine),
            ExpressionFail::NoMemory => LineError::NoMemory,
        }
    }
}
