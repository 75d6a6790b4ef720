// What is read off a store and its sets: how many orders it has, the order of a number, and the number of an order.
ghost use Rattle.std.specs.Prelude.{◌≡◌, length, IfOk};
ghost use Rattle.diagrams.specs.Table.{Exists, count_of, In};
ghost use Rattle.numbering.specs.Numbered.{Many, Numbered, Placed, order_at, place_of};
ghost use Rattle.store.specs.Views.{view};
ghost use Rattle.store.specs.Questions.{answered, or_else, handle_asked, order_asked, or_past};

use super::Store;
use crate::plan::Plan;
use crate::shapes::Handle;
use caches::Cache;
use numbering::Set;
use orders::{Chain, Order, Refusal};

impl<G: Chain, C: Cache> Store<G, C> {
    // The plan that the store was begun from.
    pub fn plan(&self) -> Plan
        ensures { result ≡ (view self.now).plan }
    {
        self.plan
    }

    // The present season.
    pub fn season(&self) -> u32
        ensures { result ≡ (view self.now).season }
    {
        self.season
    }

    // How many nodes stand.
    pub fn len(&self) -> usize
        ensures { result ≡ length (view self.now).nodes }
    {
        self.engine.table().len()
    }

    // The set of a number.
    fn set(&self, number: u32) -> Set<'_>
        requires { Exists (view self.now).nodes number }
        ensures number { result.number ≡ number }
        ensures table { result.table.now ≡ self.now.engine.table }
    {
        Set {
            table: self.engine.table(),
            number,
        }
    }

    // How many orders a set has.
    pub fn count(&self, handle: Handle) -> Result<u64, Refusal>
        ensures reply { result ≡ answered (handle_asked (view self.now) handle) (count_of (view self.now).nodes handle.number) }
        ensures means { IfOk result (Many (In G.table (view self.now).nodes handle.number)) }
    {
        Ok(self.set(self.number_of(handle)?).count())
    }

    // The order with the number `k` in a set; declined by 12 where `k` is not below the count.
    pub fn order_at(&self, handle: Handle, k: u64) -> Result<Order, Refusal>
        ensures reply { result ≡ or_past (handle_asked (view self.now) handle) (order_at G.table (view self.now).nodes handle.number k) }
        ensures means { IfOk result (Numbered G.table (view self.now).nodes handle.number k) }
    {
        let set = self.set(self.number_of(handle)?);
        set.order_at::<G>(k).ok_or(Refusal::PastEnd)
    }

    // The number of an order in a set, or none where the order is not in it.
    pub fn place_of(&self, handle: Handle, order: Order) -> Result<Option<u64>, Refusal>
        ensures reply { result ≡ answered (or_else (handle_asked (view self.now) handle) (order_asked (view self.now) order)) (place_of G.table (view self.now).nodes handle.number order) }
        ensures means { IfOk result (Placed G.table (view self.now).nodes handle.number order) }
    {
        let set = self.set(self.number_with_order(handle, order)?);
        Ok(set.place_of::<G>(order))
    }
}
