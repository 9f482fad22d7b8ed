//! Numbers of rows and of lanes.
ghost use Rattle.std.specs.Prelude.{◌≡◌, ◌<◌, ◌^◌, length};
ghost use Rattle.std.specs.Int.{div_ceil};
ghost use Rattle.net_core.specs.Ports as ports;
ghost use Rattle.geom_core.specs.Runs as runs;

use net_core::{Bit, WrPort};

/// How many times so many words hold the words of a memory, rounded up. It takes no memory.
pub fn split(size: u32, words: u32) -> u32
    requires { 0 < words }
    ensures { result ≡ div_ceil size words }
{
    size.div_ceil(words)
}

/// How many runs of equal enable bits a write has. It takes no memory.
pub fn lane_runs(port: &WrPort) -> u32
    requires { length port.now.en < 2 ^ 32 }
    ensures { result ≡ runs.runs_of port.now.en }
{
    let mut runs = 0;
    let mut last = None;
    for bit in port.en.as_slice() {
        if begins_run(last, *bit) {
            runs += 1;
        }
        last = Some(*bit);
    }
    runs
}

/// Whether a bit differs from the one before it, or none stands before it.
fn begins_run(before: Option<Bit>, bit: Bit) -> bool
    ensures { result ≡ runs.begins_run before bit }
{
    match before {
        None => true,
        Some(before) => !same_bit(before, bit),
    }
}

/// Whether two bits are the same constant or the same net. It takes no memory.
pub fn same_bit(a: Bit, b: Bit) -> bool
    ensures { result ≡ ports.same_bit a b }
{
    match (a, b) {
        (Bit::Zero, Bit::Zero) | (Bit::One, Bit::One) => true,
        (Bit::Net(a), Bit::Net(b)) => a == b,
        _ => false,
    }
}
