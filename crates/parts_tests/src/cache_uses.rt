// What a caller knows of any cache, and of slots.
ghost use Rattle.std.specs.Prelude.{◌≡◌, ◌⊎◌, Some, None, ◌≢◌};
ghost use Rattle.caches.specs.Slotted.{slot_of, held};

use caches::{Cache, Slots, Triple};

// Asked for the pair just told, any cache gives its answer or none, and a sure one gives its answer.
pub fn told_and_asked<C: Cache>(cache: &mut C, triple: Triple, answer: u32) -> Option<u32>
    ensures any { (result ≡ Some answer) ⊎ (result ≡ None) }
    ensures surely { C.SURE ≡ 1 → result ≡ Some answer }
{
    cache.tell(triple, answer);
    cache.ask(triple)
}

// Told one pair and asked for another triple, slots give what they had of it, if that is on another slot.
pub fn told_beside(cache: &mut Slots, triple: Triple, answer: u32, other: Triple) -> Option<u32>
    ensures { (slot_of other.kind other.first other.second ≢ slot_of triple.kind triple.first triple.second)
        → result ≡ held cache.old other.kind other.first other.second }
{
    cache.tell(triple, answer);
    cache.ask(other)
}
