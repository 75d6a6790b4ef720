// Row books, good and damaged.
#![tactic(auto)]

#[cfg(test)]
mod examples {
    use books::{Book, line_of, read_book};
    use lists::Filled;
    use orders::{Order, Refusal};
    use sheets::{Fault, Part};
    use std::test::Fail;

    // Whether a list with room for two orders refuses the book by this number, with this line and part.
    // By number: the numbers are fixed, and files tell refusals by them.
    fn refused(bytes: &[u8], number: u8, line: u64, part: Part) -> bool {
        let mut room = [0; 2];
        let mut list = Filled::new(&mut room);
        read_book(bytes, &mut list).is_err_and(|fault| {
            fault.refusal.number() == number && fault.line == line && fault.part == part
        })
    }

    // The order of a row of three.
    fn order(a: u8, b: u8, c: u8) -> Result<Order, Fail> {
        Ok(Order::from_row([a, b, c, 0, 0, 0, 0, 0, 0, 0, 0, 0, 0, 0, 0, 0], 3)?)
    }

    #[test]
    fn a_book_is_read_in_turn_and_searched(rt: HostRuntime) -> Result<(), Fail> {
        let mut room = [7; 4];
        let mut list = Filled::new(&mut room);
        assert!(rt;
            read_book(b"pieces chain\n3 2\norder\n1 2 3\n2 1 3\n", &mut list)
                == Ok(Book {
                    pieces: 3,
                    chain: 2,
                })
        );
        assert!(rt;
            list.len() == 2
                && list.read(0) == Ok(order(1, 2, 3)?.into())
                && list.read(1) == Ok(order(2, 1, 3)?.into())
        );
        assert!(rt; line_of(&list, Order::standing()) == Some(4));
        assert!(rt; line_of(&list, order(2, 1, 3)?) == Some(5));
        assert!(rt; line_of(&list, order(2, 3, 1)?) == None);
        Ok(())
    }

    #[test]
    fn a_book_may_have_no_orders_and_empties_the_list(rt: HostRuntime) {
        let mut room = [0; 1];
        let mut list = Filled::new(&mut room);
        assert!(rt; list.add(5) == Ok(0));
        assert!(rt;
            read_book(b"pieces chain\n16 1\norder\n", &mut list)
                == Ok(Book {
                    pieces: 16,
                    chain: 1,
                })
        );
        assert!(rt; list.len() == 0 && line_of(&list, Order::standing()) == None);
    }

    #[test]
    fn a_fault_keeps_the_orders_before_it(rt: HostRuntime) -> Result<(), Fail> {
        let mut room = [0; 1];
        let mut list = Filled::new(&mut room);
        assert!(rt; read_book(b"pieces chain\n3 1\norder\n2 3 1\n1 2\n", &mut list).is_err());
        assert!(rt; list.len() == 1 && list.read(0) == Ok(order(2, 3, 1)?.into()));
        assert!(rt; read_book(b"", &mut list).is_err() && list.len() == 0);
        Ok(())
    }

    #[test]
    fn line_1_has_its_names(rt: HostRuntime) {
        assert!(rt; refused(b"", 14, 1, Part::Line));
        assert!(rt; refused(b"pieces chain", 14, 1, Part::Line));
        assert!(rt; refused(b"pieces chain\r\n3 2\r\norder\r\n", 14, 1, Part::Line));
        assert!(rt; refused(b"pieces  chain\n3 2\norder\n", 14, 1, Part::Line));
    }

    #[test]
    fn line_2_has_two_values(rt: HostRuntime) {
        assert!(rt; refused(b"pieces chain\n", 14, 2, Part::Line));
        assert!(rt; refused(b"pieces chain\n3 2", 14, 2, Part::Line));
        assert!(rt; refused(b"pieces chain\n3\norder\n", 14, 2, Part::Line));
        assert!(rt; refused(b"pieces chain\n03 2\norder\n", 14, 2, Part::Line));
        assert!(rt;
            refused(
                b"pieces chain\n100000000000000 2\norder\n",
                14,
                2,
                Part::Line,
            )
        );
        assert!(rt; refused(b"pieces chain\n99999999999999 2\norder\n", 1, 2, Part::Book));
    }

    #[test]
    fn pieces_are_2_to_16_and_then_the_chain_1_or_2(rt: HostRuntime) {
        assert!(rt; refused(b"pieces chain\n1 3\n", 1, 2, Part::Book));
        assert!(rt; refused(b"pieces chain\n17 1\n", 1, 2, Part::Book));
        assert!(rt; refused(b"pieces chain\n259 1\n", 1, 2, Part::Book));
        assert!(rt; refused(b"pieces chain\n16 0\n", 15, 2, Part::Book));
        assert!(rt; refused(b"pieces chain\n2 3\n", 15, 2, Part::Book));
        assert!(rt; refused(b"pieces chain\n2 258\n", 15, 2, Part::Book));
    }

    #[test]
    fn line_3_has_its_name(rt: HostRuntime) {
        assert!(rt; refused(b"pieces chain\n3 2\n", 14, 3, Part::Line));
        assert!(rt; refused(b"pieces chain\n3 2\norder", 14, 3, Part::Line));
        assert!(rt; refused(b"pieces chain\n3 2\norders\n", 14, 3, Part::Line));
    }

    #[test]
    fn an_order_has_as_many_values_as_pieces(rt: HostRuntime) {
        assert!(rt; refused(b"pieces chain\n3 2\norder\n1 2 3", 14, 4, Part::Line));
        assert!(rt; refused(b"pieces chain\n3 2\norder\n1 2 3\r\n", 14, 4, Part::Line));
        assert!(rt; refused(b"pieces chain\n3 2\norder\n1 2 3\n\n", 14, 5, Part::Line));
        assert!(rt; refused(b"pieces chain\n3 2\norder\n1 2 3\n1 2\n", 14, 5, Part::Line));
        assert!(rt; refused(b"pieces chain\n3 2\norder\n1 2 3 4\n", 14, 4, Part::Line));
    }

    #[test]
    fn a_row_has_each_number_once(rt: HostRuntime) {
        assert!(rt; refused(b"pieces chain\n3 2\norder\n0 1 2\n", 3, 4, Part::Line));
        assert!(rt;
            refused(
                b"pieces chain\n3 2\norder\n1 2 3\n1 2 2\n",
                3,
                5,
                Part::Line,
            )
        );
        assert!(rt; refused(b"pieces chain\n3 2\norder\n1 2 259\n", 3, 4, Part::Line));
        assert!(rt; refused(b"pieces chain\n3 2\norder\n2 1 4\n", 3, 4, Part::Line));
    }

    #[test]
    fn the_list_has_room_for_each_order(rt: HostRuntime) {
        assert!(rt;
            refused(
                b"pieces chain\n2 1\norder\n1 2\n2 1\n1 2\n",
                7,
                6,
                Part::Book,
            )
        );
        assert!(rt;
            refused(
                b"pieces chain\n2 1\norder\n1 2\n2 1\n1 1\n",
                3,
                6,
                Part::Line,
            )
        );
        assert!(rt;
            refused(
                b"pieces chain\n2 1\norder\n1 2\n2 1\n1\n",
                14,
                6,
                Part::Line,
            )
        );
    }

    #[test]
    fn a_fault_is_shown(rt: HostRuntime) -> Result<(), Fail> {
        let fault = Fault::new(Refusal::Misnumbered, 4, Part::Sheet);
        assert!(rt; fault.to_string(rt.alloc())?.as_str() == "line 4 (sheet): refused by 17");
        let fault = Fault::new(Refusal::NoRoom, 12, Part::Book);
        assert!(rt; fault.to_string(rt.alloc())?.as_str() == "line 12 (book): refused by 7");
        Ok(())
    }
}
