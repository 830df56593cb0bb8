// The worked examples of the register.
use crate::tests::{A, B};
use book::read::read;
use denial::Denial;
use register::{Register, Shown, Side};
use roles::rows::Rows;
use search::Node;
use std::test::Fail;

// A register on the book in the bytes, under its own hierarchy.
fn opened(bytes: &[u8]) -> Result<Register, Fail> {
    let book = read(bytes)?;
    Ok(Register::open_own(&book)?)
}

// The number and the detail of a refusal.
fn told<T: Drop>(res: Result<T, Denial>) -> Result<(u8, usize), Fail> {
    let Err(denial) = res else {
        return Err(Fail::new("not refused"));
    };
    let report = denial.report();
    Ok((report.number, report.detail))
}

#[test]
fn entries_of_a(rt: HostRuntime) -> Result<(), Fail> {
    let mut two = [Node::BLANK; 2];
    let mut three = [Node::BLANK; 3];
    assert_eq!(rt; told(opened(A)?.file(5, &mut two))?, (15, 0));
    assert_eq!(rt; opened(A)?.file(5, &mut three).ok(), Some(0));
    let mut register = opened(A)?;
    assert_eq!(rt; register.width(), 9);
    let mut nodes = [Node::BLANK; 64];
    assert_eq!(rt; register.file(0, &mut nodes).ok(), Some(1));
    assert_eq!(rt; register.file(1, &mut nodes).ok(), Some(2));
    assert_eq!(rt; register.file(2, &mut nodes).ok(), Some(3));
    assert_eq!(rt; register.file(3, &mut nodes).ok(), Some(4));
    assert_eq!(rt; register.file(4, &mut nodes).ok(), Some(5));
    assert_eq!(rt; register.file(5, &mut nodes).ok(), Some(0));
    assert_eq!(rt; register.class_count(), 5);
    assert_eq!(rt; register.ask(3, 2, &mut nodes).ok(), Some(true));
    assert_eq!(rt; register.ask(2, 3, &mut nodes).ok(), Some(false));
    assert_eq!(rt; told(register.file(6, &mut nodes))?, (8, 6));
    assert_eq!(rt; told(register.ask(1, 6, &mut nodes))?, (9, 6));
    Ok(())
}

#[test]
fn entries_of_b(rt: HostRuntime) -> Result<(), Fail> {
    let mut one = [Node::BLANK; 1];
    assert_eq!(rt; told(opened(B)?.file(1, &mut one))?, (15, 0));
    let mut register = opened(B)?;
    assert_eq!(rt; register.file(0, &mut one).ok(), Some(1));
    let mut sheet = [7u64; 67];
    let shown = register.show(1, 0, &mut one, &mut sheet).ok();
    assert_eq!(rt;
        shown,
        Some(Shown {
            individuals: 1,
            side: Side::First,
        })
    );
    for (k, word) in sheet.iter().enumerate().take(66) {
        let expected = if k == 0 || k == 1 || k == 65 { 1 } else { 0 };
        assert_eq!(rt; *word, expected);
    }
    assert_eq!(rt; sheet[66], 7);
    let mut short = [7u64; 65];
    assert_eq!(rt; told(register.show(1, 0, &mut one, &mut short))?, (11, 66));
    assert_eq!(rt; short[0], 7);
    assert_eq!(rt; told(register.show(1, 1, &mut one, &mut short))?, (16, 1));
    let mut two = [Node::BLANK; 2];
    assert_eq!(rt; register.file(1, &mut two).ok(), Some(2));
    Ok(())
}

#[test]
fn sixty_three_roles_open_and_sixty_four_do_not(rt: HostRuntime) -> Result<(), Fail> {
    let register = opened(
        b"\x00\x00\x00\x00\x00\x00\x00\x00\x00\x00\x00\x00\x00\x00\x00\x00\x00\x00\x00\x00\x00\x00\x00\x00\x00\x00\x00\x00\x00\x00\x00\x00\x00\x00\x00\x00\x00\x00\x00\x00\x00\x00\x00\x00\x00\x00\x00\x00\x00\x00\x00\x00\x00\x00\x00\x00\x00\x00\x00\x00\x00\x00\x00\x01\x00\x00\x00\x00\x00\x3f\x00\x3f\x00\x00\x00\x3f\x00\x01\x00\x43\x00\x00\x00",
    )?;
    assert_eq!(rt; register.role_count(), 63);
    let book = read(
        b"\x00\x00\x00\x00\x00\x00\x00\x00\x00\x00\x00\x00\x00\x00\x00\x00\x00\x00\x00\x00\x00\x00\x00\x00\x00\x00\x00\x00\x00\x00\x00\x00\x00\x00\x00\x00\x00\x00\x00\x00\x00\x00\x00\x00\x00\x00\x00\x00\x00\x00\x00\x00\x00\x00\x00\x00\x00\x00\x00\x00\x00\x00\x00\x00\x01\x00\x00\x00\x00\x00\x40\x00\x40\x00\x00\x00\x40\x00\x01\x00\x44\x00\x00\x00",
    )?;
    assert_eq!(rt;
        told(Register::open(&book, &Rows::closed(&book)))?,
        (12, 64)
    );
    Ok(())
}
