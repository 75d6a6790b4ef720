// The sheet of a set, in memory of its own.
ghost use Rattle.std.specs.Prelude.{◌≡◌, IfOk};
ghost use Rattle.store.specs.Views.{view};
ghost use Rattle.store.specs.Questions.{handle_asked};
ghost use Rattle.deposits.specs.Writing.{sheet_text, Writes};
ghost use Rattle.catalogue.specs.Calls.{sheet_on};
ghost use Rattle.catalogue.specs.Requests.{handle_named, bytes_of, page};

use crate::request::Name;
use caches::Cache;
use deposits::write;
use orders::{Chain, Refusal};
use std::alloc::{AllocError, Global};
use store::Store;

// How long the page is that a sheet is written on.
const PAGE: usize = 40000;

// Writes the sheet of a named set at the start of a page, and answers where it ends.
fn written<G: Chain, C: Cache>(
    store: &Store<G, C>,
    name: Name,
    page: &mut [u8],
) -> Result<usize, Refusal>
    ensures { Writes G.CODE (view store.now) (handle_named name) page.old page.new result }
{
    let handle = name.known(store)?;
    write(store, handle, page)
}

// The sheet of a named set, by way of a page.
fn on_page<G: Chain, C: Cache>(
    heap: Global,
    store: &Store<G, C>,
    name: Name,
) -> Result<Result<Vec<u8>, Refusal>, AllocError>
    ensures { IfOk result (λ b. bytes_of b ≡ sheet_on (handle_asked (view store.now) (handle_named name)) (sheet_text G.CODE (view store.now).nodes name.number) page) }
{
    let mut page = [0; PAGE];
    match written(store, name, &mut page) {
        Ok(end) => Ok(Ok(page[..end].to_vec(heap)?)),
        Err(refusal) => Ok(Err(refusal)),
    }
}

// The sheet of a set. The name is asked first, so that no page is made for one that the store declines.
pub fn sheet<G: Chain, C: Cache>(
    heap: Global,
    store: &Store<G, C>,
    name: Name,
) -> Result<Result<Vec<u8>, Refusal>, AllocError>
    ensures { IfOk result (λ b. bytes_of b ≡ sheet_on (handle_asked (view store.now) (handle_named name)) (sheet_text G.CODE (view store.now).nodes name.number) page) }
{
    if let Err(refusal) = name.known(store) {
        return Ok(Err(refusal));
    }
    on_page(heap, store, name)
}
