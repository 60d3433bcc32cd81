//! The plain way: callers who share an adapter under a mutex.
ghost use Rattle.std.specs.Prelude.{◌≤◌, All, IfOk};
ghost use Rattle.test_crews.specs.Members.{IsPlan};

use adapter::Adapter;
use flow_calls::{Caller, Parcel};
use std::alloc::{AllocError, Global};
use std::sync::atomic::{AtomicU64, Ordering};
use std::sync::{Mutex, Wait};
use std::thread::{Threads, for_each_mut, sleep};
use std::time::Clock;
use test_crews::{MAX_BURST, Plan, Share};

/// A caller, and whether it met want of memory.
#[derive(Drop)]
struct Member {
    caller: Caller,
    failed: bool,
}

/// What all members share.
#[derive(Clone, Copy)]
struct Table<'a> {
    adapter: &'a Mutex<Adapter>,
    plan: &'a Plan<'a>,
    /// The workers that are done.
    done: &'a AtomicU64,
}

/// Judges and enters frames.
fn pass(adapter: &mut Adapter, caller: Caller, parcels: &[Parcel]) -> Result<(), AllocError>
    requires { (9 ≤ caller.0) × (caller.0 ≤ 24) }
{
    for parcel in parcels {
        let verdict = adapter.verdict(&parcel.key);
        adapter.packet(caller, parcel, &verdict)?;
    }
    Ok(())
}

/// What a worker does.
fn pass_all<R: Wait>(rt: &R, table: &Table<'_>, caller: Caller) -> Result<(), AllocError>
    requires worker { (9 ≤ caller.0) × (caller.0 ≤ 24) }
    requires plan { IsPlan table.now.plan.now }
{
    let plan = table.plan;
    let mut share = Share {
        keys: plan.keys,
        next: u32::from(caller.0 - Caller::LEAD.0) + 1,
        step: u32::from(plan.workers),
        end: plan.frames.saturating_add(1),
    };
    let mut parcels = Vec::with_capacity(plan.alloc, MAX_BURST)?;
    while share.next < share.end {
        share.take(plan.burst, &mut parcels)?;
        pass(&mut table.adapter.lock(rt), caller, parcels.as_slice())?;
    }
    Ok(())
}

/// What the shell does.
fn ask_all<R: Wait + Clock>(rt: &R, table: &Table<'_>) -> Result<(), AllocError> {
    let plan = table.plan;
    for call in plan.calls {
        if table.done.load(Ordering::SeqCst) >= u64::from(plan.workers) {
            return Ok(());
        }
        table.adapter.lock(rt).step(Caller::SHELL, call)?;
        if let Some(time) = plan.pause {
            sleep(rt, time);
        }
    }
    Ok(())
}

fn act<R: Wait + Clock>(rt: &R, table: &Table<'_>, member: &mut Member)
    requires plan { IsPlan table.now.plan.now }
    requires known { member.old.caller.0 ≤ 24 }
{
    if member.caller.0 < Caller::LEAD.0 {
        member.failed = ask_all(rt, table).is_err();
        return;
    }
    member.failed = pass_all(rt, table, member.caller).is_err();
    table.done.fetch_add(1, Ordering::SeqCst);
}

/// The shell and so many workers.
fn members(alloc: Global, workers: u8) -> Result<Vec<Member>, AllocError>
    requires { workers ≤ 16 }
    ensures { IfOk result (λ members. All (λ m. m.caller.0 ≤ 24) members.items) }
{
    let mut members = Vec::new(alloc);
    members.push(Member {
        caller: Caller::SHELL,
        failed: false,
    })?;
    for worker in 0..workers {
        members.push(Member {
            caller: Caller(Caller::LEAD.0 + worker),
            failed: false,
        })?;
    }
    Ok(members)
}

/// What all members do, each on a thread of its own.
fn act_all<R: Threads + Wait + Clock + Sync>(rt: &R, table: &Table<'_>, members: &mut [Member])
    requires plan { IsPlan table.now.plan.now }
    requires known { All (λ m. m.caller.0 ≤ 24) members.old }
{
    let threads = members.len().max(1);
    for_each_mut(
        rt,
        members,
        threads,
        &|_, member: &mut Member|
            requires { IsPlan table.now.plan.now × (member.now.caller.0 ≤ 24) }
        { act(rt, table, member) },
    );
}

fn any_failed(members: &[Member]) -> bool {
    for member in members {
        if member.failed {
            return true;
        }
    }
    false
}

/// Lets a crew work at an adapter under a mutex, and gives the adapter back. `Err` is want of memory, of any of them.
pub(crate) fn run_locked<R: Threads + Wait + Clock + Sync>(
    rt: &R,
    adapter: Adapter,
    plan: &Plan<'_>,
) -> Result<Adapter, AllocError>
    requires { IsPlan plan.now }
{
    let adapter = Mutex::new(adapter);
    let done = AtomicU64::new(0);
    let mut members = members(plan.alloc, plan.workers)?;
    let table = Table {
        adapter: &adapter,
        plan,
        done: &done,
    };
    act_all(rt, &table, members.as_mut_slice());
    if any_failed(members.as_slice()) {
        return Err(AllocError);
    }
    Ok(adapter.into_inner())
}
