//! Two places of one desk, on one thread.

use shared_best::Desk;
use std::test::Fail;

#[test]
fn a_place_sees_what_another_told(rt: HostRuntime) -> Result<(), Fail> {
    let (desk, mut one) = Desk::open(rt.alloc(), 4)?;
    let mut two = desk.split(&mut one);
    assert_eq!(rt; desk.look(&mut two), 0);
    assert_eq!(rt; desk.tell(&mut one, 7), 0);
    assert_eq!(rt; desk.look(&mut two), 7);
    assert_eq!(rt; desk.tell(&mut two, 5), 7);
    desk.join(&mut one, two);
    assert_eq!(rt; desk.close(one), (0, 7));
    Ok(())
}

#[test]
fn a_number_is_claimed_by_one_place(rt: HostRuntime) -> Result<(), Fail> {
    let (desk, mut one) = Desk::open(rt.alloc(), 1)?;
    let mut two = desk.split(&mut one);
    assert_eq!(rt; desk.take(&mut one), 0);
    assert!(rt; !one.done());
    assert_eq!(rt; desk.take(&mut two), 1);
    assert!(rt; two.done());
    desk.join(&mut one, two);
    assert!(rt; one.done());
    assert_eq!(rt; desk.close(one), (2, 0));
    Ok(())
}
