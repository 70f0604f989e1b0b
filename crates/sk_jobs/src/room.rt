// Whether there is room for a job.
ghost use Rattle.std.specs.Prelude.{◌≡◌, ◌∷◌, [], false};
ghost use Rattle.sk_places.specs.Totals.{IsCountable};
ghost use Rattle.sk_places.specs.declared.origin.Origin.TheVariants.{Outside};
ghost use Rattle.sk_model.specs.Room.{is_full};
ghost use Rattle.sk_store.specs.Stored.{world};

use sk_payload::JobText;
use sk_store::Store;

/// With the job, counted as new, there would be more than the store takes.
pub fn is_too_much(store: &Store, payload: &JobText) -> bool
    ensures is { result ≡ is_full (world store.now) (payload.now ∷ []) }
    ensures room { result ≡ false → IsCountable Outside (world store.now).tally }
{
    let bytes = payload.text().bytes().len() as u128;
    store.is_full(1, bytes)
}
