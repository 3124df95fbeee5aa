// The ends of lines.

/// How the end of a line stands to the next token.
#[derive(Clone, Copy, Debug, PartialEq, Eq)]
pub enum Edge {
    /// No space stands after it: the line is empty, or ends with `(` or the point.
    Tight,
    /// It ends with a keyword that begins a call: no space stands before a `(`.
    Call,
    /// A space stands after it, except for tokens that cling to the one before them.
    Loose,
}
