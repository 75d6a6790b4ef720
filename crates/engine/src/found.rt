// What a task answers: its set, and how many triples were entered for it, its own included.
#[derive(Clone, Copy)]
pub struct Found<S> {
    pub set: S,
    pub entries: u64,
}
