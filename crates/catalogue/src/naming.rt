// What is named in a request, as a store takes it. Numbers that are too large for it are declined, and never cut to smaller ones.
ghost use Rattle.std.specs.Prelude.{◌≡◌};
ghost use Rattle.store.specs.Views.{view};
ghost use Rattle.store.specs.Questions.{answered, or_else, handle_asked};
ghost use Rattle.catalogue.specs.Requests.{handle_named, set_call, spot_fits, names_asked};

use super::request::{Asked, Name};
use caches::Cache;
use orders::{Chain, Refusal};
use store::{Handle, SetCall, Store};

impl Name {
    // The handle that is named, if the store accepts it.
    pub(crate) fn known<G: Chain, C: Cache>(self, store: &Store<G, C>) -> Result<Handle, Refusal>
        ensures { result ≡ answered (handle_asked (view store.now) (handle_named self)) (handle_named self) }
    {
        let season = store.season();
        if self.season != u64::from(season) {
            return Err(Refusal::OtherSeason);
        }
        let number = u32::try_from(self.number).map_err(|_| Refusal::NoSuchNumber)?;
        let handle = Handle { season, number };
        store.number_of(handle)?;
        Ok(handle)
    }
}

// The handles of two names, the first asked first.
fn both_known<G: Chain, C: Cache>(
    store: &Store<G, C>,
    first: Name,
    second: Name,
) -> Result<(Handle, Handle), Refusal>
    ensures { result ≡ answered (or_else (handle_asked (view store.now) (handle_named first)) (handle_asked (view store.now) (handle_named second))) (handle_named first, handle_named second) }
{
    let a = first.known(store)?;
    let b = second.known(store)?;
    Ok((a, b))
}

// A piece and a place as bytes. 16 is the most that a film has; `try_from` would let 17 to 255 through.
fn spot(piece: u64, place: u64) -> Result<(u8, u8), Refusal>
    ensures { result ≡ answered (spot_fits piece place) (piece, place) }
{
    if piece > 16 || place > 16 {
        return Err(Refusal::OutOfRange);
    }
    Ok((piece as u8, place as u8))
}

// The handle of a name, and a piece and a place to be looked for in it.
fn known_with_spot<G: Chain, C: Cache>(
    store: &Store<G, C>,
    name: Name,
    piece: u64,
    place: u64,
) -> Result<(Handle, (u8, u8)), Refusal>
    ensures { result ≡ answered (or_else (handle_asked (view store.now) (handle_named name)) (spot_fits piece place)) (handle_named name, (piece, place)) }
{
    let handle = name.known(store)?;
    let spot = spot(piece, place)?;
    Ok((handle, spot))
}

// The call that works out what is asked for, once what it names was asked about. Each call asks its own questions in its own order, so there is no
// map over its parts.
pub(crate) fn set_call<G: Chain, C: Cache>(
    store: &Store<G, C>,
    asked: Asked,
) -> Result<SetCall<Handle, u8>, Refusal>
    ensures { result ≡ answered (names_asked (view store.now) asked) (set_call asked) }
{
    match asked {
        SetCall::Single(order) => Ok(SetCall::Single(order)),
        SetCall::Join(a, b) => {
            let (a, b) = both_known(store, a, b)?;
            Ok(SetCall::Join(a, b))
        }
        SetCall::Meet(a, b) => {
            let (a, b) = both_known(store, a, b)?;
            Ok(SetCall::Meet(a, b))
        }
        SetCall::Without(a, b) => {
            let (a, b) = both_known(store, a, b)?;
            Ok(SetCall::Without(a, b))
        }
        SetCall::Carry(a, order) => {
            let a = a.known(store)?;
            Ok(SetCall::Carry(a, order))
        }
        SetCall::Follow(a, b) => {
            let (a, b) = both_known(store, a, b)?;
            Ok(SetCall::Follow(a, b))
        }
        SetCall::Pick(a, piece, place) => {
            let (a, (piece, place)) = known_with_spot(store, a, piece, place)?;
            Ok(SetCall::Pick(a, piece, place))
        }
    }
}
