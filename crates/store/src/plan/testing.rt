// The questions of a plan.
ghost use Rattle.std.specs.Prelude.{◌≡◌, MatchResult};
ghost use Rattle.store.specs.Plans.{Planned, Unplanned};

use super::Plan;
use engine::Room;
use orders::Refusal;

impl Plan {
    // A plan with these numbers: declined by 1 where the pieces are not 2 to 16, then by 2 where the capacity is not 1 to 2,046.
    pub fn new(pieces: u64, capacity: u64, season: u32, mark: u32) -> Result<Plan, Refusal>
        ensures { MatchResult result (Planned pieces capacity season mark) (Unplanned pieces capacity) }
    {
        if pieces < 2 || pieces > 16 {
            return Err(Refusal::BadPieces);
        }
        if capacity == 0 {
            return Err(Refusal::BadCapacity);
        }
        let room = Room::new(capacity as usize).ok_or(Refusal::BadCapacity)?;
        Ok(Plan {
            pieces: pieces as u8,
            room,
            season,
            mark,
        })
    }

    // How many pieces the film has.
    pub fn pieces(self) -> u8
        ensures { result ≡ self.pieces }
    {
        self.pieces
    }

    // The season in which the store begins.
    pub(crate) fn season(self) -> u32
        ensures { result ≡ self.season }
    {
        self.season
    }

    // What tells the store's holds from those of others.
    pub(crate) fn mark(self) -> u32
        ensures { result ≡ self.mark }
    {
        self.mark
    }

    // Room for that many nodes.
    pub(crate) fn room(self) -> Room
        ensures { result ≡ self.room }
    {
        self.room
    }
}
