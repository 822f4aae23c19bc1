use keyed_lock::pattern::{Network, Pair, Station};
use std::test::Fail;
use std::thread;

#[test]
fn threads_raise_one_water_through_one_row(rt: HostRuntime) -> Result<(), Fail> {
    let station = Station::new(rt.alloc(), 1)?;
    let (mut low, mut high) = thread::join(
        &rt,
        || station.raise(&rt, 30),
        || station.raise(&rt, 70),
    );
    let heights = (
        station.water().height(&mut low),
        station.water().height(&mut high),
    );
    assert_eq!(rt; heights, (70, 70));
    Ok(())
}

#[test]
fn each_gauge_of_a_pair_comes_home_to_its_water(rt: HostRuntime) -> Result<(), Fail> {
    let pair = Pair::new(rt.alloc(), 2)?;
    pair.upper.raise(&rt, 9);
    let (mut upper, mut lower) = pair.raise_both(&rt, 5);
    let heights = (
        pair.upper.water().height(&mut upper),
        pair.lower.water().height(&mut lower),
    );
    assert_eq!(rt; heights, (9, 5));
    Ok(())
}

#[test]
fn threads_raise_one_water_through_two_rows(rt: HostRuntime) -> Result<(), Fail> {
    let network = Network::new(rt.alloc(), 3, 2)?;
    let (mut low, mut high) = thread::join(
        &rt,
        || network.raise(&rt, 0, 30),
        || network.raise(&rt, 2, 70),
    );
    let heights = (
        network.water().height(&mut low),
        network.water().height(&mut high),
    );
    assert_eq!(rt; heights, (70, 70));
    Ok(())
}
