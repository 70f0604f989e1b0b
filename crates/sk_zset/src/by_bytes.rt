// Members looked for by their bytes, so that nothing is copied for it.
ghost use Rattle.std.proofs.lemmas.Cmp.{nat_list_cmp_total};
ghost use Rattle.sk_resp.specs.WordOrder.{text_cmp};
ghost use Rattle.sk_undo.specs.Queries.{key_query};

use sk_resp::{Word, compare_bytes};
use sk_undo::Query;
use std::cmp::Ordering;

/// The member of these bytes.
#[derive(Drop)]
pub struct ByBytes<'a> {
    pub bytes: &'a [u8],
}

impl<'a> Query<Word> for ByBytes<'a> {
    ghost order = { λ query. text_cmp query.bytes.now };

    fn cmp_key(&self, key: &Word) -> Ordering {
        compare_bytes(self.bytes, key.bytes())
    }

    ghost is_query = { λ query. key_query nat_list_cmp_total query.bytes.now };
}
