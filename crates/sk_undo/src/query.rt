// What is looked for among keys in order. It need be no key: a name may be looked for by its bytes, or all keys of one name at once.
ghost use Rattle.std.specs.Prelude.{◌≡◌};
ghost use Rattle.std.specs.declared.cmp.Ordering.{Ordering};
ghost use Rattle.sk_undo.specs.Queries.{key_query};
ghost use Rattle.sk_undo.specs.Sorted.{IsQuery};

use std::cmp::Ordering;

/// What is looked for among keys: how it compares with each of them. It matches the keys to which it compares `Equal`, and these stand together.
pub trait Query<K: Ord> {
    ghost order: { Self → K → Ordering };

    fn cmp_key(&self, key: &K) -> Ordering
        ensures { result ≡ order self.now key.now };

    ghost is_query: { (query : Self) → IsQuery K.cmp (order query) };
}

/// A key matches the keys that are equal to it.
impl<K: Ord> Query<K> for K {
    ghost order = { K.cmp };

    fn cmp_key(&self, key: &K) -> Ordering {
        self.cmp(key)
    }

    ghost is_query = { λ key. key_query K.total key };
}
