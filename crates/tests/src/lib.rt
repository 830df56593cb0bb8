// Tests of what the library crates answer together.
#![tactic(auto)]

#[cfg(test)]
mod tests {
    use book::Book;
    use book::read::read;
    use denial::{Layer, RecordDenial, Report};
    use meaning::{Hierarchy, Order};
    use roles::rows::Rows;
    use roles::told::Told;
    use roles::universal::Universal;
    use sheet::{Sheet, judge, keeps};
    use std::test::Fail;

    // Two roles, 0 transitive and below 1; the entries everything, some of everything by role 0, and the same by role 1.
    fn two_roles() -> Result<Book, RecordDenial> {
        read(
            b"\x01\x00\x00\x01\x01\x00\x00\x00\x06\x00\x00\x00\x06\x01\x00\x00\x00\x00\x02\x00\x02\x00\x01\x00\x04\x00\x03\x00\x10\x00\x00\x00",
        )
    }

    // One plain role, and the entry everything.
    fn one_role() -> Result<Book, RecordDenial> {
        read(
            b"\x00\x01\x00\x00\x00\x00\x00\x01\x00\x01\x00\x00\x00\x01\x00\x01\x00\x05\x00\x00\x00",
        )
    }

    #[test]
    fn copied_rows_answer_the_same(rt: HostRuntime) -> Result<(), Fail> {
        let book = two_roles()?;
        let told = Told::new(&book);
        let rows = Rows::copied(&told);
        assert_eq!(rt; rows.count(), 2);
        for r in 0..3 {
            assert_eq!(rt; rows.transitive(r), told.transitive(r));
            for s in 0..3 {
                assert_eq!(rt; rows.below(r, s), told.below(r, s));
            }
        }
        assert!(rt; rows.below(0, 1) && !rows.below(1, 0));
        Ok(())
    }

    #[test]
    fn universal_over_universal(rt: HostRuntime) -> Result<(), Fail> {
        let book = two_roles()?;
        let told = Told::new(&book);
        let one = Universal::over(&told)?;
        let two = Universal::over(&one)?;
        assert_eq!(rt; two.count(), 4);
        assert!(rt; two.below(2, 3) && two.below(0, 3) && two.below(1, 2));
        assert!(rt; two.below(3, 3) && !two.below(3, 2) && !two.below(2, 1));
        assert!(rt; two.transitive(3) && two.transitive(2) && !two.transitive(1));
        Ok(())
    }

    #[test]
    fn keeps_wants_as_many_roles(rt: HostRuntime) -> Result<(), Fail> {
        let book = two_roles()?;
        let other = one_role()?;
        let mut words = [0u64; 67];
        words[0] = 1;
        let world = Sheet::new(&words, &book)?;
        let answer = keeps(&world, &Told::new(&other), &book).map_err(|denial| denial.report());
        assert_eq!(rt;
            answer,
            Err(Report {
                number: 12,
                detail: 1,
                layer: Layer::Register,
            })
        );
        Ok(())
    }

    #[test]
    fn judges_on_a_sheet_for_another_book(rt: HostRuntime) -> Result<(), Fail> {
        let book = two_roles()?;
        let other = one_role()?;
        let mut words = [0u64; 66];
        words[0] = 1;
        words[65] = 1;
        let world = Sheet::new(&words, &other)?;
        assert_eq!(rt; judge(&world, &book, 1)?, 1);
        assert_eq!(rt; judge(&world, &book, 2)?, 0);
        Ok(())
    }
}
