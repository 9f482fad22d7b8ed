//! Searches the plans of memories that are made here, so that a benchmark can time it.
//!
//! The words `one` ask for the plan of a memory of twelve ports with 11,200,000,001 candidates, and
//! `many COUNT WORKERS` for those of so many mixed memories. The answer is the sum of their points.
#![tactic(auto)]

mod draw;
mod kinds;
mod memories;

use crate::kinds::{mixed_library, sixteen_variants};
use crate::memories::{mixed_memories, twelve_ports};
use fit_rules::Plan;
use lib_core::{Library, List, Memory};
use net_core::MemJob;
use plan_par::{OpenGate, are_within, plan_all};
use std::alloc::{AllocError, Global};
use std::env::Args;
use std::rt::Runtime;
use std::thread::Threads;
use std::{env, io};

/// What the words ask for.
#[derive(Clone, Copy)]
enum Task {
    One,
    Many { count: u32, workers: u32 },
}

fn task_of(words: &[String]) -> Option<Task> {
    match words {
        [word] if word.as_str() == "one" => Some(Task::One),
        [word, count, workers] if word.as_str() == "many" => Some(Task::Many {
            count: count.parse::<u32>().ok()?,
            workers: workers.parse::<u32>().ok()?,
        }),
        _ => None,
    }
}

/// The words after the program's name.
fn words_of(alloc: Global, args: Args) -> Result<Vec<String>, AllocError> {
    let mut words = Vec::new(alloc);
    for word in args.skip(1) {
        words.push(word)?;
    }
    Ok(words)
}

/// The sum of the points of the plans that are there.
fn total(plans: &[Option<Plan>]) -> u64 {
    let mut points = 0u64;
    for plan in plans {
        if let Some(plan) = plan {
            points = points.wrapping_add(plan.points);
        }
    }
    points
}

/// The points of all plans; None where the jobs are not within the limits of the search, or there are no
/// workers.
fn points_of<R: Runtime<A = Global> + Threads + Sync>(
    rt: &R,
    workers: u32,
    jobs: &List<MemJob>,
    lib: &Library,
) -> Result<Option<u64>, Memory> {
    if workers == 0 || !are_within(jobs, lib) {
        return Ok(None);
    }
    let plans = plan_all(rt, rt.alloc(), workers, jobs, lib, &OpenGate)?;
    Ok(Some(total(plans.as_slice())))
}

fn solve<R: Runtime<A = Global> + Threads + Sync>(
    rt: &R,
    task: Task,
) -> Result<Option<u64>, Memory> {
    let alloc = rt.alloc();
    match task {
        Task::One => points_of(rt, 1, &twelve_ports(alloc)?, &sixteen_variants(alloc)?),
        Task::Many { count, workers } => points_of(
            rt,
            workers,
            &mixed_memories(alloc, count)?,
            &mixed_library(alloc)?,
        ),
    }
}

fn main(rt: HostRuntime) -> io::Result<()> {
    let words = words_of(rt.alloc(), env::args(&rt)?)?;
    match task_of(words.as_slice()) {
        None => println!(rt; "the words are 'one' or 'many COUNT WORKERS'"),
        Some(task) => match solve(&rt, task) {
            Err(_) => println!(rt; "no memory"),
            Ok(None) => println!(rt; "not within the limits"),
            Ok(Some(points)) => println!(rt; "total {points}"),
        },
    }
}
