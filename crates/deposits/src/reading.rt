// A sheet, read into a store.
ghost use Rattle.std.specs.Prelude.{◌≡◌, ◌+◌, ◌≤◌, length, IfOk};
ghost use Rattle.lists.specs.Items.{items_of, room_of};
ghost use Rattle.sheets.specs.Reading.{Lent};
ghost use Rattle.store.specs.Views.{view};
ghost use Rattle.deposits.specs.Reading.{enters, Gave, reads};
ghost use Rattle.deposits.specs.Writing.{sheet_text};

use super::writing::BLANK;
use caches::Cache;
use lists::{Filled, NodeLine};
use orders::Chain;
use sheets::{FIRST_LINE, Fault, Part, check, number_of};
use store::{Handle, Store};
use tables::ROOM;

// Finds or adds the node of each line, and lists the number that it has in the store.
fn enter<G: Chain, C: Cache>(
    store: &mut Store<G, C>,
    lines: &[NodeLine],
    numbers: &mut Filled<u32>,
) -> Result<(), Fault>
    requires room { length (items_of numbers.old) + length lines.now ≤ length (room_of numbers.old) }
    requires few { length (room_of numbers.old) ≤ 2046 }
    ensures is { Gave (enters (view store.old) (items_of numbers.old) lines.now) (view store.new) (items_of numbers.new) result }
    ensures lent { Lent numbers.old numbers.new }
{
    for line in lines {
        let number = numbers.len() as u64 + FIRST_LINE;
        let lo = number_of(numbers.items(), line.lo);
        let hi = number_of(numbers.items(), line.hi);
        let handle = store
            .add(NodeLine {
                lo: u64::from(lo),
                hi: u64::from(hi),
                ..*line
            })
            .map_err(|refusal| Fault::new(refusal, number, Part::Store))?;
        numbers.add(handle.number).unwrap();
    }
    Ok(())
}

// Checks a whole sheet, and then finds or adds its nodes in the store, line by line. Answers the set's handle, and the text is that set's own
// sheet; or the fault: of the sheet, and then nothing has changed, or of the line whose node found no room, and then the nodes made so far stay.
pub fn read<G: Chain, C: Cache>(store: &mut Store<G, C>, text: &[u8]) -> Result<Handle, Fault>
    ensures is { (view store.new, result) ≡ reads G.CODE (view store.old) text.now }
    ensures sheet { IfOk result (λ h. text.now ≡ sheet_text G.CODE (view store.new).nodes h.number) }
{
    let mut room = [BLANK; ROOM];
    let mut lines = Filled::new(&mut room);
    let checked = check(text, store.plan().pieces(), G::CODE, &mut lines)?;
    let mut places = [0; ROOM];
    let mut numbers = Filled::new(&mut places);
    enter(store, lines.items(), &mut numbers)?;
    Ok(Handle {
        season: store.season(),
        number: number_of(numbers.items(), checked.root),
    })
}
