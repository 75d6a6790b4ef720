// The catalogue: lists of calls, and what all stores agree on after them.
#![tactic(auto)]

mod agreement;
mod desk;
mod naming;
mod playing;
mod rack;
mod request;

pub use agreement::agreement_stands;
pub use playing::{Transcript, replay};
pub use request::{Answer, Asked, Claim, Name, Request};
