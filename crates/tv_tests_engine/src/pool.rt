//! Items of a pool are dropped once, of which no clause speaks.
ghost use Rattle.tv_pool.specs.Pool.{IsLive};

use std::alloc::Global;
use std::rc::Rc;
use std::test::Fail;
use tv_pool::{Pool, Region};

/// Puts three items into each of two regions.
fn fill(
    pool: &mut Pool<Rc<u8>>,
    first: &Region,
    second: &Region,
    owner: &Rc<u8>,
) -> Result<(), Fail>
    requires first { IsLive pool.old first.now }
    requires second { IsLive pool.old second.now }
    ensures first { IsLive pool.new first.now }
    ensures second { IsLive pool.new second.now }
{
    'puts: for _ in 0..3 {
        pool.put(first, owner.clone()?)?;
        pool.put(second, owner.clone()?)?;
    }
    Ok(())
}

/// How often an owner is shared: with three items in each of two regions, without the first region, and without the pool.
fn shared(alloc: Global, owner: &Rc<u8>) -> Result<(usize, usize), Fail> {
    let mut pool = Pool::new(alloc);
    let first = pool.begin()?;
    let second = pool.begin()?;
    fill(&mut pool, &first, &second, owner)?;
    let all = Rc::strong_count(owner);
    pool.release(first);
    Ok((all, Rc::strong_count(owner)))
}

#[test]
fn each_item_is_dropped_once(rt: HostRuntime) -> Result<(), Fail> {
    let owner = Rc::new(rt.alloc(), 0u8)?;
    let (all, half) = shared(rt.alloc(), &owner)?;
    assert_eq!(rt; (all, half, Rc::strong_count(&owner)), (7, 4, 1));
    Ok(())
}
