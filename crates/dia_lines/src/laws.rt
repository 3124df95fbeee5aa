// Laws of the definitions.

ghost use Rattle.std.specs.Prelude.{◌≡◌, ℕ, List as Items};
ghost use Rattle.dia_tokens.specs.declared.token.Token.{Token as Spelled};
ghost use Rattle.dia_lines.specs.declared.fault.ReadCode.{ReadCode as Code};
ghost use Rattle.dia_lines.specs.Lines.{Content, Reads, HasFault};
ghost use Rattle.dia_lines.specs.Statements.{Statement, IsStatement};

/// The tokens of a line are one statement at most.
pub fn one_statement()
    ensures { (ts : Items Spelled) (s u : Statement) → IsStatement ts s → IsStatement ts u → s ≡ u }
{}

/// After the same lines a line says one thing at most.
pub fn one_reading()
    ensures { (before : Items Content) (line : Items ℕ) (a b : Content) → Reads before line a
        → Reads before line b → a ≡ b }
{}

/// After the same lines a line that says something has no fault, and one that says nothing has one first fault at most.
pub fn one_line_fault()
    ensures none { (before : Items Content) (line : Items ℕ) (a : Content) (code : Code)
        → Reads before line a → HasFault before line code → ⊥ }
    ensures one { (before : Items Content) (line : Items ℕ) (c d : Code) → HasFault before line c
        → HasFault before line d → c ≡ d }
{}
