// The levels of expressions.

/// Where an expression may stand, the loosest first.
#[derive(Clone, Copy, Debug, PartialEq, Eq)]
pub enum Level {
    /// Alone, in parentheses, or as a part of a call or of a choice.
    Whole,
    /// Where a whole expression stands that begins with no `if`.
    Disjunction,
    /// An operand of `or`.
    Conjunction,
    /// An operand of `and`.
    Comparison,
    /// An operand of a comparison.
    Sum,
    /// An operand of `+` or `-`.
    Product,
    /// An operand of `*`, `/` or `%`.
    Prefixed,
    /// What no operator splits.
    Factor,
}
