// The worked examples of the search and of the register, run in lent nodes; the same facts are proved about the definitions
// in `runs`.
#![tactic(auto)]

#[cfg(test)]
mod registers;

#[cfg(test)]
mod tests {
    use book::read::read;
    use model::{find, has_world};
    use plan::Plan;
    use roles::rows::Rows;
    use search::{NoRoom, Node};
    use std::test::Fail;
    use tableau::Label;

    // The plan of the book in the bytes, under its closure rows.
    fn plan_of(bytes: &[u8]) -> Result<Plan, Fail> {
        let book = read(bytes)?;
        Ok(Plan::new(&book, &Rows::closed(&book))?)
    }

    // Book A: role 0 is transitive and below role 1; entry 5 has no individual in any world that keeps the book.
    pub(crate) const A: &[u8] =
        b"\x01\x00\x00\x01\x02\x00\x00\x00\x06\x00\x00\x00\x06\x00\x01\x00\x03\x00\x00\x00\x07\x01\x03\x00\x04\x02\x04\x00\x00\x00\x02\x00\x02\x00\x01\x00\x04\x00\x06\x00\x1c\x00\x00\x00";

    // Book B: all of entry 0 have a successor in it.
    pub(crate) const B: &[u8] =
        b"\x00\x02\x00\x00\x00\x06\x00\x00\x00\x00\x01\x00\x00\x01\x00\x01\x00\x00\x00\x01\x00\x02\x00\x09\x00\x01\x00";

    // + entry 5, + book (7) and + everywhere (8) of A.
    const FIVE_OF_A: Label = Label {
        plus: 0x1a0,
        minus: 0,
    };

    // + entry 0 or 1, + book (3) and + everywhere (4) of B.
    const ZERO_OF_B: Label = Label {
        plus: 0x19,
        minus: 0,
    };

    const ONE_OF_B: Label = Label {
        plus: 0x1a,
        minus: 0,
    };

    #[test]
    fn five_of_a_fails_in_three_nodes_and_has_no_room_in_two(rt: HostRuntime) -> Result<(), Fail> {
        let plan = plan_of(A)?;
        assert_eq!(rt; plan.width, 9);
        let mut three = [Node::BLANK; 3];
        assert_eq!(rt; has_world(&plan, &mut three, FIVE_OF_A), Ok(false));
        let mut two = [Node::BLANK; 2];
        assert_eq!(rt; has_world(&plan, &mut two, FIVE_OF_A), Err(NoRoom));
        Ok(())
    }

    #[test]
    fn zero_of_b_stands_in_one_node_and_one_of_b_wants_two(rt: HostRuntime) -> Result<(), Fail> {
        let plan = plan_of(B)?;
        assert_eq!(rt; plan.width, 5);
        let mut nodes = [Node::BLANK; 1];
        assert_eq!(rt; find(&plan, &mut nodes, ZERO_OF_B), Ok(Some(1)));
        assert_eq!(rt; nodes[0].label.plus, 31);
        assert_eq!(rt; has_world(&plan, &mut nodes, ONE_OF_B), Err(NoRoom));
        let mut two = [Node::BLANK; 2];
        assert_eq!(rt; has_world(&plan, &mut two, ONE_OF_B), Ok(true));
        Ok(())
    }
}
