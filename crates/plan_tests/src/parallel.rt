//! Plans on several threads.
use crate::samples::{Size, empty, list, memory, none, one};
use fit_rules::Plan;
use lib_core::{List, Memory, Name};
use net_core::{Attr, MemJob};
use plan_par::{Gate, OpenGate, are_within, plan_all};
use std::alloc::Global;
use std::sync::atomic::{AtomicU64, Ordering};
use std::test::Fail;
use std::thread::Threads;

/// A gate that holds job 0 until job 1 has entered.
#[derive(Drop)]
struct Meeting {
    entered: AtomicU64,
    met: AtomicU64,
}

impl Gate for Meeting {
    fn enter(&self, index: u64) {
        if index == 1 {
            self.entered.store(1, Ordering::SeqCst);
            return;
        }
        for _ in 0..2_000_000_000u64 {
            if self.entered.load(Ordering::SeqCst) == 1 {
                self.met.store(1, Ordering::SeqCst);
                return;
            }
        }
    }
}

fn asks_for_block(alloc: Global) -> Result<List<Attr>, Memory> {
    let name = Vec::from_slice(alloc, b"\\ram_style")?;
    let value = Vec::from_slice(alloc, b"block")?;
    let attr = Attr {
        name: Name::from_vec(name),
        is_text: true,
        value: Name::from_vec(value),
        bits: none(alloc),
    };
    one(alloc, attr)
}

/// A memory of single bits without ports.
fn bits(alloc: Global, words: u32) -> MemJob {
    let size = Size {
        words,
        width: 1,
        abits: 5,
    };
    memory(alloc, size, none(alloc), none(alloc))
}

/// Memories of these sizes.
fn memories(alloc: Global, sizes: &[u32]) -> Result<List<MemJob>, Memory> {
    let mut jobs = none(alloc);
    for size in sizes {
        jobs.push(bits(alloc, *size))?;
    }
    Ok(jobs)
}

/// The points of each plan, with no RAM in the library.
fn points<R: Threads + Sync, G: Gate + Sync>(
    rt: &R,
    alloc: Global,
    workers: u32,
    jobs: &List<MemJob>,
    gate: &G,
) -> Result<Vec<Option<u64>>, Memory> {
    let lib = empty(alloc);
    let mut points = Vec::new(alloc);
    if workers == 0 {
        return Ok(points);
    }
    if !are_within(jobs, &lib) {
        return Ok(points);
    }
    let plans = plan_all(rt, alloc, workers, jobs, &lib, gate)?;
    for plan in plans.as_slice() {
        points.push(points_of(plan))?;
    }
    Ok(points)
}

fn points_of(plan: &Option<Plan>) -> Option<u64> {
    match plan {
        None => None,
        Some(plan) => Some(plan.points),
    }
}

#[test]
fn two_jobs_at_once(rt: HostRuntime) -> Result<(), Fail> {
    let alloc = rt.alloc();
    let jobs = memories(alloc, &[3, 5])?;
    let gate = Meeting {
        entered: AtomicU64::new(0),
        met: AtomicU64::new(0),
    };
    let plans = points(&rt, alloc, 2, &jobs, &gate)?;
    assert_eq!(rt; plans.as_slice(), [Some(3), Some(5)].as_slice());
    assert_eq!(rt; gate.met.load(Ordering::SeqCst), 1);
    Ok(())
}

/// Five memories, of which the last asks for a block.
fn five_jobs(alloc: Global) -> Result<List<MemJob>, Memory> {
    let mut jobs = memories(alloc, &[3, 1, 4, 2])?;
    let mut refused = bits(alloc, 5);
    refused.mem.attrs = asks_for_block(alloc)?;
    jobs.push(refused)?;
    Ok(jobs)
}

#[test]
fn in_their_order(rt: HostRuntime) -> Result<(), Fail> {
    let alloc = rt.alloc();
    let jobs = five_jobs(alloc)?;
    let one = points(&rt, alloc, 1, &jobs, &OpenGate)?;
    let many = points(&rt, alloc, 3, &jobs, &OpenGate)?;
    assert_eq!(rt;
        one.as_slice(),
        [Some(3), Some(1), Some(4), Some(2), None].as_slice()
    );
    assert_eq!(rt; many.as_slice(), one.as_slice());
    Ok(())
}
