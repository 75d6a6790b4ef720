// Takes orders apart: reads rows from standard input, one a line, and prints the factors of each by swaps and by rotations.
#![tactic(auto)]

mod account;
mod rows;
mod text;

use account::Account;
use rows::next_line;
use std::alloc::{AllocError, Global};
use std::io::Read;

// The account of all lines, and how many were orders.
fn account_of(heap: Global, input: &[u8]) -> Result<String, AllocError> {
    let mut account = Account::new(heap);
    let mut rest = input;
    // Each step says itself how much it took, so there is no list of lines to go over.
    while !rest.is_empty() {
        let (line, after) = next_line(rest);
        account.tell(line)?;
        rest = after;
    }
    account.end()
}

fn main(rt: HostRuntime) -> anyhow::Result<()> {
    let mut input = Vec::new(rt.alloc());
    rt.stdin().read_to_end(&mut input)?;
    let text = account_of(rt.alloc(), input.as_slice())?;
    print!(rt; "{text}")?;
    Ok(())
}

#[cfg(test)]
mod tests {
    use super::*;
    use std::test::Fail;

    #[test]
    fn nothing_at_all_is_an_account_of_no_line(rt: HostRuntime) -> Result<(), Fail> {
        let text = account_of(rt.alloc(), b"")?;
        assert!(rt; text.as_str() == "0 orders, 0 refused\n");
        Ok(())
    }

    #[test]
    fn a_last_line_without_an_end_counts(rt: HostRuntime) -> Result<(), Fail> {
        let text = account_of(rt.alloc(), b"2 1")?;
        assert!(rt;
            text.as_str() == "1: dimension 2; swaps (2,1); rotations (2,1)\n1 orders, 0 refused\n"
        );
        Ok(())
    }

    #[test]
    fn a_number_is_not_cut_to_a_smaller_one(rt: HostRuntime) -> Result<(), Fail> {
        let text = account_of(rt.alloc(), b"258 257\n18446744073709551618 1\n")?;
        assert!(rt; text.as_str() == "1: refused 3\n2: refused 3\n0 orders, 2 refused\n");
        Ok(())
    }
}
