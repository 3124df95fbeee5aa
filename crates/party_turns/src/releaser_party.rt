// The party of the releaser.

ghost use Rattle.std.specs.Prelude.{◌≡◌};
ghost use Rattle.party_turns.specs.Booked.{IsBooked};

use release_book::Book;
use word_rule::ReleaserSeat;

/// The party of the releaser: its seat and its book. By its type the book is made for the seat's plan, and has the part
/// that the seat has.
pub struct ReleaserParty {
    pub(crate) seat: ReleaserSeat,
    pub(crate) book: Book,
    // how many turns a crew has counted of it, for the pace
    pub(crate) turns: u64,
    ghost booked: { IsBooked seat book },
}

// By hand, as the prover then takes one step where it is dropped, and not one for each part.
impl Drop for ReleaserParty {
    fn drop(self) {
        let ReleaserParty {
            seat: _,
            book: _,
            turns: _,
        } = self;
    }
}

impl ReleaserParty {
    /// The seat of the party.
    pub fn seat(&self) -> &ReleaserSeat
        ensures { result.now ≡ self.now.seat }
    {
        &self.seat
    }
}
