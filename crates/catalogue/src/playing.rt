// Lists of requests, made of a store that is begun for them.
use super::request::Answer;
use caches::Cache;
use orders::Chain;
use store::Store;

mod replaying;

pub use replaying::replay;

// What came of a list of requests: the store, with no hold left on it, and an answer to each request.
#[derive(Drop)]
pub struct Transcript<G: Chain, C: Cache> {
    pub store: Store<G, C>,
    pub answers: Vec<Answer>,
}
