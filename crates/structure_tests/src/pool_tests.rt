//! A pool beside a plain list, driven by the same generated calls.
ghost use Rattle.std.specs.Prelude.{◌≡◌, ◌≤◌, ◌<◌, ◌+◌, ◌-◌, ◌^◌, [], Contains, IfSome};
ghost use Rattle.slot_pool.specs.Pool.{Lives};
ghost use Rattle.slot_pool.specs.Links.{IsChain, members};

use rand_core::utils::NextWord;
use rand_pcg::Pcg32;
use slot_pool::{Chain, Handle, Pool};
use std::alloc::AllocError;
use std::process::Abort;
use std::test::Fail;

const CAPACITY: u32 = 40;

const STEPS: u64 = 6000;

#[test]
fn a_full_pool_grows(rt: HostRuntime) -> Result<(), Fail> {
    let mut pool = Pool::new(rt.alloc(), 1)?;
    assert!(rt; pool.put(7u32).is_ok());
    assert!(rt; pool.put(8).is_err());
    pool.grow(1)?;
    assert!(rt; pool.put(9).is_ok());
    Ok(())
}

// Puts a value into both, which are full together.
fn put_beside(
    rt: &impl Abort,
    pool: &mut Pool<u32>,
    plain: &mut Vec<(Handle, u32)>,
    value: u32,
) -> Result<(), AllocError>
    requires unchained { pool.old.links ≡ [] }
    requires puts { pool.old.puts < 2 ^ 64 - 1 }
    ensures unchained { pool.new.links ≡ [] }
    ensures puts { pool.new.puts ≤ pool.old.puts + 1 }
{
    match pool.put(value) {
        Ok(handle) => {
            assert!(rt; plain.len() < CAPACITY as usize);
            plain.push((handle, value))?;
        }
        Err(back) => {
            assert!(rt; plain.len() == CAPACITY as usize && back == value);
        }
    }
    Ok(())
}

// Takes one entry out of both.
fn take_beside(
    rt: &impl Abort,
    pool: &mut Pool<u32>,
    plain: &mut Vec<(Handle, u32)>,
    gone: &mut Vec<Handle>,
    word: u32,
) -> Result<(), AllocError>
    requires { pool.old.links ≡ [] }
    ensures unchained { pool.new.links ≡ [] }
    ensures puts { pool.new.puts ≡ pool.old.puts }
{
    if plain.is_empty() {
        return Ok(());
    }
    let (handle, value) = plain.remove(word as usize % plain.len());
    assert!(rt; pool.take(handle) == Some(value));
    gone.push(handle)?;
    Ok(())
}

// Writes one value of both through `get_mut`.
fn write_beside(rt: &impl Abort, pool: &mut Pool<u32>, plain: &mut Vec<(Handle, u32)>, word: u32)
    ensures unchained { pool.new.links ≡ pool.old.links }
    ensures puts { pool.new.puts ≡ pool.old.puts }
{
    if plain.is_empty() {
        return;
    }
    let at = word as usize % plain.len();
    let handle = plain[at].0;
    plain[at].1 = word;
    let Some(value) = pool.get_mut(handle) else {
        panic!(rt; "it lives")
    };
    *value = word;
}

#[test]
fn values_are_those_of_a_plain_list(rt: HostRuntime) -> Result<(), Fail> {
    let mut pool = Pool::new(rt.alloc(), CAPACITY)?;
    let mut plain = Vec::new(rt.alloc());
    let mut gone = Vec::new(rt.alloc());
    let mut random = Pcg32::new(42, 54);
    for _step in 0..STEPS {
        let word: u32 = random.next_word();
        match word % 5 {
            0 | 1 | 2 => put_beside(&rt, &mut pool, &mut plain, word)?,
            3 => take_beside(&rt, &mut pool, &mut plain, &mut gone, word / 5)?,
            _ => write_beside(&rt, &mut pool, &mut plain, word / 5),
        }
        for (handle, value) in &plain {
            assert!(rt; pool.get(*handle) == Some(value));
        }
    }
    for handle in &gone {
        assert!(rt; pool.get(*handle).is_none());
    }
    assert_eq!(rt; (gone.len() + plain.len()) as u64, pool.puts());
    Ok(())
}

// The handle that stands so far behind the first.
fn member_behind(pool: &Pool<u32>, chain: &Chain, count: u32) -> Option<Handle>
    requires { IsChain pool.now.links chain.now }
    ensures member { IfSome result (Contains (members pool.now.links chain.now)) }
    ensures lives { IfSome result (Lives pool.now) }
{
    let mut at = pool.first(chain)?;
    for _ in 0..count {
        at = pool.next(chain, at)?;
    }
    Some(at)
}

// Puts a value and links it, or moves a member to the end, or takes one out; in the plain list too.
fn link_beside(
    rt: &impl Abort,
    pool: &mut Pool<u32>,
    chain: &mut Chain,
    plain: &mut Vec<Handle>,
    word: u32,
) -> Result<(), AllocError>
    requires chain { IsChain pool.old.links chain.old }
    requires puts { pool.old.puts < 2 ^ 64 - 1 }
    ensures chain { IsChain pool.new.links chain.new }
    ensures puts { pool.new.puts ≤ pool.old.puts + 1 }
{
    if word % 3 == 0 {
        if let Ok(handle) = pool.put(word) {
            pool.link(chain, handle);
            plain.push(handle)?;
        }
        return Ok(());
    }
    let at = word / 9 % CAPACITY;
    let Some(handle) = member_behind(pool, chain, at) else {
        assert!(rt; plain.len() <= at as usize);
        return Ok(());
    };
    assert!(rt; (at as usize) < plain.len());
    assert_eq!(rt; plain.remove(at as usize), handle);
    pool.unlink(chain, handle);
    if word % 3 == 1 {
        pool.link(chain, handle);
        plain.push(handle)?;
    } else {
        assert!(rt; pool.take(handle).is_some());
    }
    Ok(())
}

// Whether a walk along the chain gives just the handles of the plain list.
fn is_walked(pool: &Pool<u32>, chain: &Chain, plain: &[Handle]) -> bool
    requires { IsChain pool.now.links chain.now }
{
    let mut at = pool.first(chain);
    for want in plain {
        let Some(handle) = at else {
            return false;
        };
        if handle != *want {
            return false;
        }
        at = pool.next(chain, handle);
    }
    at.is_none()
}

#[test]
fn a_chain_is_a_plain_list(rt: HostRuntime) -> Result<(), Fail> {
    let mut pool = Pool::new(rt.alloc(), CAPACITY)?;
    let mut chain = Chain::new();
    let mut plain = Vec::new(rt.alloc());
    let mut random = Pcg32::new(7, 11);
    for _step in 0..STEPS {
        let word: u32 = random.next_word();
        link_beside(&rt, &mut pool, &mut chain, &mut plain, word)?;
        assert!(rt; is_walked(&pool, &chain, plain.as_slice()));
    }
    Ok(())
}
