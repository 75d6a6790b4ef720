// Orders, chains and lines of numbers, run on examples.
#![tactic(auto)]

#[cfg(test)]
mod examples {
    use lines::{add_bytes, add_line, fields, first_line, order_of, put_bytes, put_line};
    use lists::Filled;
    use orders::{Chain, Order, Refusal, Rotation, Swap, factors, product};
    use std::test::Fail;

    // The order of a row of up to four entries.
    fn order(row: [u8; 4], len: u8) -> Result<Order, Fail> {
        let [a, b, c, d] = row;
        Ok(Order::from_row([a, b, c, d, 0, 0, 0, 0, 0, 0, 0, 0, 0, 0, 0, 0], len)?)
    }

    // Whether a row of four is refused as no order.
    fn is_refused(row: [u8; 4], len: u8) -> bool {
        let [a, b, c, d] = row;
        Order::from_row([a, b, c, d, 0, 0, 0, 0, 0, 0, 0, 0, 0, 0, 0, 0], len).is_err_and(
            |refusal| refusal == Refusal::BadRow && refusal.number() == 3,
        )
    }

    #[test]
    fn a_row_read_back_is_the_order(rt: HostRuntime) -> Result<(), Fail> {
        let row = <[u8; 16]>::from(order([3, 1, 4, 2], 4)?);
        assert!(rt; row[0] == 3 && row[1] == 1 && row[2] == 4 && row[3] == 2);
        assert!(rt; row[4] == 5 && row[15] == 16);
        Ok(())
    }

    #[test]
    fn an_orders_row_and_code_make_it_again(rt: HostRuntime) -> Result<(), Fail> {
        let a = order([3, 1, 4, 2], 4)?;
        assert!(rt; Order::from_row(a.into(), 16) == Ok(a));
        assert!(rt; Order::from_code(a.into()) == Some(a));
        Ok(())
    }

    #[test]
    fn what_lies_beyond_the_length_is_not_read(rt: HostRuntime) -> Result<(), Fail> {
        assert!(rt; order([2, 1, 1, 9], 2)? == order([2, 1, 3, 4], 4)?);
        Ok(())
    }

    #[test]
    fn a_row_must_have_each_number_once(rt: HostRuntime) {
        assert!(rt; is_refused([1, 2, 3, 4], 0));
        assert!(rt; is_refused([1, 2, 3, 4], 17));
        assert!(rt; is_refused([1, 2, 3, 4], 255));
        assert!(rt; is_refused([0, 1, 2, 3], 4));
        assert!(rt; is_refused([1, 2, 3, 5], 4));
        assert!(rt; !is_refused([1, 2, 3, 4], 3));
        assert!(rt; is_refused([2, 2, 1, 0], 3));
    }

    #[test]
    fn a_code_is_an_order_exactly_when_its_digits_differ(rt: HostRuntime) {
        assert!(rt; Order::from_code(0xfedc_ba98_7654_3210) == Some(Order::standing()));
        assert!(rt; Order::from_code(0xfedc_ba98_7654_3211) == None);
        assert!(rt; Order::from_code(0) == None);
        assert!(rt; Order::from_code(u64::MAX) == None);
    }

    #[test]
    fn one_order_followed_by_another(rt: HostRuntime) -> Result<(), Fail> {
        let a = order([3, 1, 2, 0], 3)?;
        let b = order([3, 2, 1, 0], 3)?;
        assert!(rt; a.then(b) == order([1, 3, 2, 0], 3)?);
        assert!(rt; b.then(a) == order([2, 1, 3, 0], 3)?);
        assert!(rt; a.then(a.inverse()) == Order::standing());
        assert!(rt; a.dimension() == 3 && Order::standing().dimension() == 0);
        assert!(rt; a.place(1) == 3 && a.place(17) == 17 && a.place(0) == 0);
        Ok(())
    }

    #[test]
    fn the_moves_of_both_chains(rt: HostRuntime) -> Result<(), Fail> {
        assert!(rt; Swap::CODE == 1 && Rotation::CODE == 2);
        assert!(rt; Swap::step(4, 2) == order([1, 4, 3, 2], 4)?);
        assert!(rt; Rotation::step(4, 2) == order([1, 3, 4, 2], 4)?);
        assert!(rt; Swap::step(2, 2) == Order::standing());
        assert!(rt; Rotation::step(17, 1) == Order::standing());
        assert!(rt; Rotation::step(1, 0) == Order::standing());
        Ok(())
    }

    #[test]
    fn an_order_is_the_product_of_its_factors(rt: HostRuntime) -> Result<(), Fail> {
        let a = order([3, 1, 4, 2], 4)?;
        let swaps = factors::<Swap>(a);
        assert!(rt; swaps[1] == 1 && swaps[2] == 2 && swaps[3] == 2);
        assert!(rt; product::<Swap>(swaps) == a);
        let rotations = factors::<Rotation>(a);
        assert!(rt; rotations[1] == 1 && rotations[2] == 3 && rotations[3] == 2);
        assert!(rt; product::<Rotation>(rotations) == a);
        Ok(())
    }

    #[test]
    fn a_line_is_read_as_it_would_be_written(rt: HostRuntime) -> Result<(), Fail> {
        let read = fields(b"0 10 99999999999999").ok_or("no line")?;
        assert!(rt; read.count == 3 && read.values[2] == 99999999999999);
        assert!(rt; fields(b"").is_none() && fields(b" 1").is_none() && fields(b"1 ").is_none());
        assert!(rt;
            fields(b"1  2").is_none() && fields(b"01").is_none() && fields(b"+1").is_none()
        );
        assert!(rt; fields(b"100000000000000").is_none() && fields(b"1\r").is_none());
        assert!(rt; fields(b"1 2 3 4 5 6 7 8 9 10 11 12 13 14 15 16 17").is_none());
        Ok(())
    }

    #[test]
    fn a_number_too_large_is_no_place(rt: HostRuntime) -> Result<(), Fail> {
        let row = fields(b"2 257").ok_or("no line")?;
        assert!(rt; order_of(row).is_err());
        let row = fields(b"2 1").ok_or("no line")?;
        assert!(rt; order_of(row).is_ok());
        Ok(())
    }

    #[test]
    fn a_line_ends_with_byte_10(rt: HostRuntime) -> Result<(), Fail> {
        let (line, rest) = first_line(b"1 2\n3\n").ok_or("no line")?;
        assert!(rt; line.len() == 3 && rest.len() == 2);
        assert!(rt; first_line(b"1 2").is_none());
        Ok(())
    }

    #[test]
    fn a_line_is_put_on_a_page_from_a_place_on(rt: HostRuntime) {
        let mut page = *b"abcdefgh";
        assert!(rt; put_line(&mut page, 2, &[10, 2]) == Ok(7));
        assert!(rt; page.as_slice() == b"ab10 2\nh".as_slice());
        assert!(rt; put_line(&mut page, 4, &[10, 2]) == Err(Refusal::ShortPage));
        assert!(rt; put_line(&mut page, 9, &[]) == Err(Refusal::ShortPage));
        assert!(rt; put_bytes(&mut page, 8, b"") == Ok(8));
        assert!(rt; put_bytes(&mut page, 9, b"") == Err(Refusal::ShortPage));
        assert!(rt; put_bytes(&mut page, 0, b"xy") == Ok(2));
        assert!(rt; page.as_slice() == b"xy10 2\nh".as_slice());
    }

    #[test]
    fn a_line_is_put_on_a_page_where_it_fits(rt: HostRuntime) {
        let mut room = [0u8; 8];
        let mut page = Filled::new(&mut room);
        assert!(rt; add_line(&mut page, &[10, 2]) == Ok(()));
        assert!(rt; add_line(&mut page, &[7, 8]) == Err(Refusal::ShortPage));
        assert!(rt; page.len() == 5);
        assert!(rt; add_bytes(&mut page, b"abc") == Ok(()));
        assert!(rt; page.items() == b"10 2\nabc".as_slice());
    }

    #[test]
    fn a_refusal_says_why(rt: HostRuntime) -> Result<(), Fail> {
        let told = Refusal::PegFilled.to_string(rt.alloc())?;
        assert!(rt; told.as_str() == "the peg is not empty");
        Ok(())
    }
}
