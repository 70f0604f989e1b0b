// What is looked for among leases in order.
ghost use Rattle.std.specs.Prelude.{◌≡◌};
ghost use Rattle.sk_leases.specs.Parts.{lease_order, lease_query, part_order};

use sk_resp::Word;
use sk_undo::Query;
use std::cmp::Ordering;

/// Which leases of a name are meant, by a moment in milliseconds since 1970. In their order those that are over come first.
#[derive(Clone, Copy, Drop)]
pub enum Part {
    All,
    Over(u64),
    Standing(u64),
}

impl Part {
    // How it compares with a deadline.
    fn cmp_deadline(self, deadline: u64) -> Ordering
        ensures { result ≡ part_order self deadline }
    {
        match self {
            Part::All => Ordering::Equal,
            Part::Over(now) if now < deadline => Ordering::Less,
            Part::Over(_) => Ordering::Equal,
            Part::Standing(now) if now < deadline => Ordering::Equal,
            Part::Standing(_) => Ordering::Greater,
        }
    }
}

/// A part of a name's leases.
#[derive(Drop)]
pub struct LeasesOf<'a> {
    pub name: &'a [u8],
    pub part: Part,
}

impl<'a> Query<(Word, u64)> for LeasesOf<'a> {
    ghost order = { λ query. lease_order query.name.now query.part };

    fn cmp_key(&self, lease: &(Word, u64)) -> Ordering {
        self.name
            .cmp(lease.0.bytes())
            .then(self.part.cmp_deadline(lease.1))
    }

    ghost is_query = { λ query. lease_query query.name.now query.part };
}
