// Laws of the definitions.

ghost use Rattle.std.specs.Prelude.{◌≡◌, ℕ, List as Items};
ghost use Rattle.dia_lines.specs.declared.fault.ReadCode.{ReadCode as Code};
ghost use Rattle.dia_read.specs.declared.document.Doc.{Doc as Document};
ghost use Rattle.dia_read.specs.declared.document.Body.{Body as BodyPrinted};
ghost use Rattle.dia_read.specs.Canonical.{canonical_text, SpellsBody};
ghost use Rattle.dia_read.specs.Documents.{Spells, IsFirstFault, upgraded};
ghost use Rattle.dia_read.specs.Printable.{HasItemLines, IsPrintable};

/// A text spells one document at most.
pub fn one_document()
    ensures { (bytes : Items ℕ) (d e : Document) → Spells bytes d → Spells bytes e → d ≡ e }
{}

/// A text that spells a document has no fault, and any other has one first fault at most.
pub fn one_first_fault()
    ensures none { (bytes : Items ℕ) (d : Document) (line : ℕ) (code : Code) → Spells bytes d
        → IsFirstFault bytes line code → ⊥ }
    ensures one { (bytes : Items ℕ) (k l : ℕ) (c d : Code) → IsFirstFault bytes k c
        → IsFirstFault bytes l d → (k ≡ l) × (c ≡ d) }
{}

/// The canonical text of a body that can be printed spells a document with this body.
pub fn canonical_text_spells()
    ensures { (body : BodyPrinted) → IsPrintable body → SpellsBody (canonical_text body) body }
{}

/// The canonical text of a body that can be printed is its own canonical text.
pub fn canonical_text_again()
    ensures { (body : BodyPrinted) (d : Document) → IsPrintable body
        → Spells (canonical_text body) d → canonical_text d.body ≡ canonical_text body }
{}

/// A document that a text spells has a line of each of its items.
pub fn each_item_has_a_line()
    ensures { (bytes : Items ℕ) (d : Document) → Spells bytes d → HasItemLines d }
{}

/// A document that a text spells can be printed, however long the text is.
pub fn a_document_can_be_printed()
    ensures { (bytes : Items ℕ) (d : Document) → Spells bytes d → IsPrintable d.body }
{}

/// A body that can be printed still can in version 2.
pub fn an_upgraded_body_can_be_printed()
    ensures { (body : BodyPrinted) → IsPrintable body → IsPrintable (upgraded body) }
{}
