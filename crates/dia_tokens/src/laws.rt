// Laws of the definitions.

ghost use Rattle.std.specs.Prelude.{◌≡◌, ℕ, true, All, List as Items};
ghost use Rattle.dia_tokens.specs.declared.line.LineFail.{LineFail as Fault};
ghost use Rattle.dia_tokens.specs.declared.token.Token.{Token as Spelled};
ghost use Rattle.dia_tokens.specs.declared.token.Keyword.{Keyword as Reserved};
ghost use Rattle.dia_tokens.specs.KeepsSigns.{KeepsSigns};
ghost use Rattle.dia_tokens.specs.Lexes.{Lexes};
ghost use Rattle.dia_tokens.specs.Line.{Spells, HasFault};
ghost use Rattle.dia_tokens.specs.Pieces.{Piece as Text, keyword};
ghost use Rattle.dia_tokens.specs.Printable.{IsPrintableToken};
ghost use Rattle.dia_tokens.specs.Spelling.{joined, IsSpelling};
ghost use Rattle.dia_tokens.specs.TokenText.{line_text};
ghost use Rattle.dia_tokens.specs.Keywords.{keyword_text, keyword_of};

/// A line has one list of tokens at most.
pub fn one_list()
    ensures { (line : Items ℕ) (a b : Items Spelled) → Spells line a → Spells line b → a ≡ b }
{}

/// A line with tokens has no fault, and one without has one first fault at most.
pub fn one_fault()
    ensures none { (line : Items ℕ) (ts : Items Spelled) (f : Fault) → Spells line ts
        → HasFault line f → ⊥ }
    ensures one { (line : Items ℕ) (f g : Fault) → HasFault line f → HasFault line g → f ≡ g }
{}

/// A line has one spelling at most.
pub fn one_spelling()
    ensures { (line a b : Items ℕ) → IsSpelling line a → IsSpelling line b → a ≡ b }
{}

/// The spelling of a line has the line's tokens, and is its own spelling.
pub fn spelled_again()
    ensures tokens { (line : Items ℕ) (ps : Items Text) → Lexes true line ps
        → Lexes true (joined ps) ps }
    ensures again { (line text : Items ℕ) → IsSpelling line text → IsSpelling text text }
{}

/// A keyword is read from its text.
pub fn read_keyword()
    ensures { (w : Reserved) → keyword_of (keyword_text w) ≡ keyword w }
{}

/// The line of tokens spells these tokens, if each can be printed and negative numbers stand where a `-` belongs to
/// the number after it.
pub fn line_spells()
    ensures { (ts : Items Spelled) → All IsPrintableToken ts → KeepsSigns true ts
        → Spells (line_text ts) ts }
{}
