// Lines 1 to 3 of a sheet.
ghost use Rattle.std.specs.Prelude.{◌≡◌, ◌≤◌, Ok, Err, MatchResult};
ghost use Rattle.sheets.specs.Checks.{Top, top};

use super::fault::{Fault, Part};
use super::texts::{after_head, after_node_names, line_array};
use orders::Refusal;
use tables::ROOM;

// What the first table says, and the text after the names of the second.
#[derive(Clone, Copy)]
pub(crate) struct TopLines<'a> {
    pub nodes: usize,
    pub orders: u64,
    pub rest: &'a [u8],
}

// Lines 1 to 3: 14 of each, and 15 of line 2.
pub(crate) fn read_top(text: &[u8], chain: u8) -> Result<TopLines<'_>, Fault>
    ensures { MatchResult result
        (λ h. (h.nodes ≤ 2046) × (top chain text.now ≡ Ok record { nodes = h.nodes; orders = h.orders; rest = h.rest.now }))
        (λ f. top chain text.now ≡ Err f) }
{
    let text = after_head(text)?;
    let (values, text) = line_array::<3>(text, 2)?;
    let [code, nodes, orders] = values;
    let nodes = nodes as usize;
    if nodes > ROOM {
        return Err(Fault::bad_line(2));
    }
    if code != u64::from(chain) {
        return Err(Fault::new(Refusal::OtherChain, 2, Part::Sheet));
    }
    let rest = after_node_names(text)?;
    Ok(TopLines {
        nodes,
        orders,
        rest,
    })
}
