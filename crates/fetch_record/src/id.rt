//! The ids of the record's rows, as the keys of a map.

ghost use Rattle.std.specs.Prelude.{◌≡◌, IfOk};
ghost use Rattle.std.specs.Cmp.{on_equiv, on_per, partial_equiv_from_equiv};
ghost use Rattle.std.specs.Cmp.Lexicographic.{bytes_decides, nat_list_eq_equiv};
ghost use Rattle.std.specs.Str.{bytes_eq};
ghost use Rattle.std.specs.Hash as fed;
ghost use Rattle.std.proofs.Common.{ap};
ghost use Rattle.fetch_record.specs.Ids.{id_octets};

use arrayvec::ArrayString;
use indexmap::Equivalent;
use std::alloc::{AllocError, Global};
use std::hash::{Hash, Hasher};

/// An id of at most so many octets, as most servers give them, needs no memory of its own.
const SHORT: usize = 16;

/// An id. It is kept as a text, since a text is hashed as a whole and bytes one by one.
#[derive(Drop)]
pub enum Id {
    Short(ArrayString<SHORT>),
    Long(String),
}

impl Id {
    pub(crate) fn from_text(alloc: Global, text: &str) -> Result<Id, AllocError>
        ensures { IfOk result (λ id. id_octets id ≡ text.now) }
    {
        match ArrayString::from(text) {
            Ok(short) => Ok(Id::Short(short)),
            Err(_) => Ok(Id::Long(String::from_str(alloc, text)?)),
        }
    }

    pub(crate) fn as_str(&self) -> &str
        ensures { result.now ≡ id_octets self.now }
    {
        match self {
            Id::Short(short) => short.as_str(),
            Id::Long(long) => long.as_str(),
        }
    }
}

impl PartialEq for Id {
    ghost eq = { λ x y. bytes_eq (id_octets x) (id_octets y) };

    ghost laws = { on_per id_octets (partial_equiv_from_equiv nat_list_eq_equiv) };

    fn eq(&self, other: &Id) -> bool {
        self.as_str() == other.as_str()
    }
}

impl Eq for Id {
    ghost laws = { on_equiv id_octets nat_list_eq_equiv };
}

impl Hash for Id {
    ghost hash_input = { λ id. fed.str (id_octets id) };

    ghost respects_eq = { λ x y h. ap fed.str ((bytes_decides (id_octets x) (id_octets y)).0 h) };

    fn hash<H: Hasher>(&self, state: &mut H) {
        self.as_str().hash(state);
    }
}

impl Equivalent<Id> for &str {
    ghost equivalent = { λ text id. bytes_eq text.now (id_octets id) };

    ghost respects_hash = { λ text id h. ap fed.str ((bytes_decides text.now (id_octets id)).0 h) };

    ghost respects_eq = { λ text x y. nat_list_eq_equiv.congr text.now (id_octets x) (id_octets y) };

    fn equivalent(&self, key: &Id) -> bool {
        *self == key.as_str()
    }
}
