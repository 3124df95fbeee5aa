// The operators of expressions, and their nodes.

/// An operator before one operand.
#[derive(Clone, Copy, Debug, PartialEq, Eq)]
pub enum UnOp {
    Neg,
    Not,
}

/// How an operator between two operands is written: as a call, or infix at a level of its own. The loosest level is the first.
#[derive(Clone, Copy, Debug, PartialEq, Eq)]
pub enum Notation {
    /// As a call of two arguments.
    Call,
    /// As `or`.
    Disjunction,
    /// As `and`.
    Conjunction,
    /// As `<`; a comparison of a comparison needs parentheses.
    Comparison,
    /// As `+`.
    Sum,
    /// As `*`.
    Product,
}

/// An operator between two operands.
#[derive(Clone, Copy, Debug, PartialEq, Eq)]
pub enum BinOp {
    Add,
    Sub,
    Mul,
    Div,
    Rem,
    Eq,
    Ne,
    Lt,
    Le,
    Gt,
    Ge,
    And,
    Or,
    Min,
    Max,
}

impl BinOp {
    ghost use Rattle.std.specs.Prelude.{◌≡◌};
    ghost use Rattle.dbp_plan.specs.Operators.{notation_of};

    /// How the operator is written.
    pub fn notation(self) -> Notation
        ensures { result ≡ notation_of self }
    {
        match self {
            BinOp::Or => Notation::Disjunction,
            BinOp::And => Notation::Conjunction,
            BinOp::Eq | BinOp::Ne | BinOp::Lt | BinOp::Le | BinOp::Gt | BinOp::Ge => {
                Notation::Comparison
            }
            BinOp::Add | BinOp::Sub => Notation::Sum,
            BinOp::Mul | BinOp::Div | BinOp::Rem => Notation::Product,
            _ => Notation::Call,
        }
    }
}

/// A node of an expression. Operands are named by their places in the list of nodes.
#[derive(Clone, Copy, Debug, PartialEq, Eq)]
pub enum Node<V> {
    /// A number.
    Num(i64),
    /// A variable: a name as it was read, or a place of a task's environment.
    Var(V),
    /// An operator and its operand.
    Un(UnOp, u32),
    /// An operator, its left and its right operand.
    Bin(BinOp, u32, u32),
    /// `if .. then .. else ..`: the condition, the value if it isn't 0, and the value if it is.
    Pick(u32, u32, u32),
}
