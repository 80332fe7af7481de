// The direct post on short runs.
use super::*;
use refusals::refusal_of;
use std::test::Fail;

#[test]
fn bytes_leave_in_the_order_they_came(rt: HostRuntime) -> Result<(), Fail> {
    let mut post = DirectPost::new(2)?;
    post.send(3, 7)?;
    post.send(3, 8)?;
    assert_eq!(rt; post.take(3)?, Some(7));
    assert_eq!(rt; post.take(3)?, Some(8));
    assert_eq!(rt; post.take(3)?, None);
    assert_eq!(rt; message_count(&post).number(), 2);
    Ok(())
}

#[test]
fn sixteen_wait(rt: HostRuntime) -> Result<(), Fail> {
    let mut post = DirectPost::new(1)?;
    for byte in 0..16 {
        post.send(1, byte)?;
    }
    assert_eq!(rt; refusal_of(post.send(1, 16)), (3, 1));
    assert_eq!(rt; refusal_of(post.send(2, 16)), (1, 2));
    assert_eq!(rt; post.waiting_count(1)?, 16);
    assert_eq!(rt; post.take(1)?, Some(0));
    Ok(())
}

#[test]
fn all_sent_comes_before_sixteen_wait(rt: HostRuntime) -> Result<(), Fail> {
    let mut post = DirectPost::new(1)?;
    for count in 0u32..65_535 {
        post.send(0, 9)?;
        if count < 65_519 {
            let _ = post.take(0)?;
        }
    }
    assert_eq!(rt; refusal_of(post.send(0, 9)), (4, 0));
    assert_eq!(rt; post.sent_count(0)?, 65_535);
    assert_eq!(rt; post.waiting_count(0)?, 16);
    Ok(())
}

#[test]
fn from_1_to_64_offices(rt: HostRuntime) -> Result<(), Fail> {
    assert_eq!(rt; refusal_of(DirectPost::new(0)), (11, 0));
    assert_eq!(rt; refusal_of(DirectPost::new(65)), (11, 65));
    let post = DirectPost::new(64)?;
    assert!(rt; is_unused(&post));
    assert_eq!(rt; refusal_of(post.sent_count(127)), (0, 0));
    assert_eq!(rt; refusal_of(post.sent_count(128)), (1, 128));
    Ok(())
}

#[test]
fn a_table_serves_any_number_of_offices(rt: HostRuntime) -> Result<(), Fail> {
    let mut table = LaneTable::new();
    table.send(64, 5, 9)?;
    assert_eq!(rt; refusal_of(table.sent_count(2, 5)), (1, 5));
    assert_eq!(rt; table.sent_count(3, 5)?, 1);
    assert_eq!(rt; table.sent_count(1_000, 5)?, 1);
    assert_eq!(rt; refusal_of(table.sent_count(1_000, 128)), (1, 128));
    assert_eq!(rt; refusal_of(table.take(0, 0)), (1, 0));
    assert_eq!(rt; table.take(3, 5)?, Some(9));
    Ok(())
}
