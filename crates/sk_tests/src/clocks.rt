// What no clause says: that the clocks of a machine fit together.
use sk_base::Clock;
use sk_edge::RealClock;
use std::test::Fail;
use std::time::SystemTime;

fn system_millis(rt: &HostRuntime) -> Result<u64, Fail> {
    let since = SystemTime::now(rt)?.duration_since(SystemTime::UNIX_EPOCH)?;
    Ok(u64::try_from(since.as_millis())?)
}

#[test]
fn the_system_clock_rises_and_tells_the_time(rt: HostRuntime) -> Result<(), Fail> {
    let before = system_millis(&rt)?;
    let mut clock = RealClock::new(rt);
    let first = clock.now();
    clock.pause(5);
    let second = clock.now();
    let after = system_millis(&rt)?;
    assert!(rt; before.saturating_sub(first) <= 1_000 && second.saturating_sub(after) <= 1_000);
    assert!(rt; first < second);
    assert!(rt; second <= clock.twin().now());
    Ok(())
}
