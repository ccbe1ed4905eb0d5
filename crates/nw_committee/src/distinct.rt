//! A test for distinct keys.
ghost use Rattle.std.specs.Prelude.{◌≡◌, ◌↔◌, map, Contains, IsTrue};
ghost use Rattle.nw_committee.specs.declared.member.Key.{Key};
ghost use Rattle.nw_committee.specs.Committee.{AreDistinct};

use crate::{Key, Member};

/// A value with a key.
pub(crate) trait Keyed {
    ghost key_of: { Self → Key };

    fn key(&self) -> &Key
        ensures { result.now ≡ key_of self.now };
}

impl Keyed for Key {
    ghost key_of = { λ k. k };

    fn key(&self) -> &Key {
        self
    }
}

impl Keyed for Member {
    ghost key_of = { λ m. m.key };

    fn key(&self) -> &Key {
        &self.key
    }
}

/// Whether no two of the values have the same key.
pub(crate) fn are_distinct<T: Keyed>(keyed: &[T]) -> bool
    ensures { IsTrue result ↔ AreDistinct (map T.key_of keyed.now) }
{
    for (i, one) in keyed.iter().enumerate() {
        if has_key(&keyed[..i], one.key()) {
            return false;
        }
    }
    true
}

/// Whether one of the values has this key.
fn has_key<T: Keyed>(keyed: &[T], key: &Key) -> bool
    ensures { IsTrue result ↔ Contains (map T.key_of keyed.now) key.now }
{
    for one in keyed {
        if one.key() == key {
            return true;
        }
    }
    false
}
