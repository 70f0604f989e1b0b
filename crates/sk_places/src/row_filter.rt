// Which rows of a place are to go.
ghost use Rattle.std.specs.Prelude.{◌≡◌};
ghost use Rattle.sk_places.specs.RowLists.{listed};
ghost use Rattle.sk_places.specs.RowFilter.{selects};

use crate::row::Place;
use crate::tagged_payload::TaggedPayload;
use sk_base::Score;
use sk_payload::JobText;
use sk_resp::Word;
use sk_undo::Predicate;

/// Which of a place's rows are to go.
#[derive(Drop)]
pub enum RowFilter<'a> {
    /// Those with this text.
    Member(&'a Word),
    /// Those with this text and the score 0.
    Copies(&'a Word),
}

// Whether a row of the place with this score and this text is wanted.
#[tactic(auto, using(crate::proofs::Parted::at_itself))]
fn picks(place: &Place, wanted: &RowFilter, score: Score, text: &Word) -> bool
    ensures { result ≡ selects place.now wanted.now (listed place.now (score, text.now)) }
{
    match wanted {
        RowFilter::Member(own) => own.bytes() == text.bytes(),
        RowFilter::Copies(own) => 0 == score.micros() && own.bytes() == text.bytes(),
    }
}

/// Passes the items of a place that are wanted.
#[derive(Drop)]
pub struct PickedItem<'a, 'b> {
    pub place: &'a Place,
    pub wanted: &'a RowFilter<'b>,
}

impl<'a, 'b> Predicate<(Score, TaggedPayload)> for PickedItem<'a, 'b> {
    ghost passes = { λ t e. selects t.place.now t.wanted.now (listed t.place.now e) };

    fn test(&self, entry: &(Score, TaggedPayload)) -> bool {
        picks(self.place, self.wanted, entry.0, entry.1.payload().text())
    }
}

impl<'a, 'b> Predicate<(Score, JobText)> for PickedItem<'a, 'b> {
    ghost passes = { λ t e. selects t.place.now t.wanted.now (listed t.place.now e) };

    fn test(&self, entry: &(Score, JobText)) -> bool {
        picks(self.place, self.wanted, entry.0, entry.1.text())
    }
}
