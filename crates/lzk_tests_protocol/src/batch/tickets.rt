//! Draws of tickets.

use lzk_batch::Tickets;
use std::test::Fail;

#[test]
fn three_draws_for_two_jobs(rt: HostRuntime) -> Result<(), Fail> {
    let (tickets, mut passes) = Tickets::deal(rt.alloc(), 2, 1)?;
    if let Some(mut pass) = passes.pop() {
        assert_eq!(rt; tickets.draw(&mut pass), Some(0));
        assert_eq!(rt; tickets.draw(&mut pass), Some(1));
        assert_eq!(rt; tickets.draw(&mut pass), None);
        passes.push(pass)?;
    }
    assert_eq!(rt; tickets.gather(passes)?, 3);
    Ok(())
}
