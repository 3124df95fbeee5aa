// Names.

ghost use Rattle.std.specs.Prelude.{◌≡◌, ◌↔◌, IfSome, IsSome, IsTrue};
ghost use Rattle.dbp_plan.specs.Name.{IsName};

use crate::MAX_NAME;
use std::fmt;
use std::marker::Model;

/// The name of a task, an input or the like: 1 to 24 ASCII letters, digits and `_`, of which the first is no
/// digit. A contract sees its bytes. Names are compared by them.
#[derive(Clone, Copy)]
pub struct Name {
    held: [u8; MAX_NAME],
    count: usize,
}

impl Model for Name {
    ghost use Rattle.std.specs.Prelude.{List, ℕ};

    ghost Value = { List ℕ };

    ghost use Rattle.dbp_plan.specs.NameInside.{name_view, IsNameInside, name_inverse, name_inverse_ok};

    ghost view = { name_view };

    ghost invariant = { IsNameInside };

    ghost inverse = { name_inverse };

    ghost inverse_ok = { name_inverse_ok };
}

impl Name {
    /// The name with these bytes, if they are one.
    pub fn of(bytes: &[u8]) -> Option<Name>
        ensures some { IfSome result (λ name. name ≡ bytes.now) }
        ensures exact { IsSome result ↔ IsName bytes.now }
    {
        if is_name(bytes) {
            Some(Name::of_text(bytes))
        } else {
            None
        }
    }

    /// The name with these bytes, for a caller who knows that they are one.
    pub fn of_text(bytes: &[u8]) -> Name
        requires { IsName bytes.now }
        ensures { result ≡ bytes.now }
    {
        let mut held = [0; MAX_NAME];
        for i in 0..bytes.len() {
            held[i] = bytes[i];
        }
        Name {
            held,
            count: bytes.len(),
        }
    }

    /// The name's bytes.
    pub fn bytes(&self) -> &[u8]
        ensures value { result.now ≡ self.now }
        ensures name { IsName self.now }
    {
        &self.held[..self.count]
    }

    /// Whether this is the other name.
    #[inline(always)]
    pub fn is(&self, other: &Name) -> bool
        ensures { IsTrue result ↔ (self.now ≡ other.now) }
    {
        // eight bytes at a time
        self.held.as_chunks::<8>().0 == other.held.as_chunks::<8>().0 && self.count == other.count
    }
}

impl PartialEq for Name {
    ghost use Rattle.std.specs.Prelude.{nat_eq};
    ghost use Rattle.std.specs.Cmp.{partial_equiv_from_equiv};
    ghost use Rattle.std.specs.Cmp.Lexicographic.{pointwise, nat_list_eq_equiv};

    ghost eq = { pointwise nat_eq };

    ghost laws = { partial_equiv_from_equiv nat_list_eq_equiv };

    #[inline(always)]
    fn eq(&self, other: &Name) -> bool {
        self.is(other)
    }
}

impl Eq for Name {
    ghost use Rattle.std.specs.Cmp.Lexicographic.{nat_list_eq_equiv};

    ghost laws = { nat_list_eq_equiv };
}

/// The name's text, as it stands in a document.
impl fmt::Debug for Name {
    ghost use Rattle.std.specs.Prelude.{Some};

    ghost debug_output = { λ name. Some name };

    fn fmt<W: fmt::Write>(&self, f: &mut fmt::Formatter<W>) -> fmt::Result {
        match std::str::from_utf8(self.bytes()) {
            Ok(text) => f.write_str(text),
            Err(_) => unreachable!(),
        }
    }
}

fn is_name(bytes: &[u8]) -> bool
    ensures { IsTrue result ↔ IsName bytes.now }
{
    !bytes.is_empty()
        && bytes.len() <= MAX_NAME
        && !bytes[0].is_ascii_digit()
        && bytes
            .iter()
            .all(|b| b.is_ascii_alphanumeric() || *b == b'_')
}
