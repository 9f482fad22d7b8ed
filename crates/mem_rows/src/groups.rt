//! Ports of several words.
ghost use Rattle.std.specs.Prelude.{◌≡◌, ◌+◌, ◌<◌, ◌^◌, length, map};
ghost use Rattle.std.specs.List.{list_all};
ghost use Rattle.net_core.specs.Valid.{is_one_digit};
ghost use Rattle.mem_rows.specs.Groups as groups;

use lib_core::Tri;

/// Whether a port may have so many words.
fn is_group(words: u64) -> bool
    ensures { result ≡ groups.is_group words }
{
    words == 1
        || words == 2
        || words == 4
        || words == 8
        || words == 16
        || words == 32
        || words == 64
}

/// Whether the ports have allowed numbers of words, behind a first one that has so many so far.
#[tactic(auto, using(crate::proofs::PortSizes::joined, crate::proofs::PortSizes::begun, crate::proofs::PortSizes::ended))]
fn are_groups_from(first: u64, bits: &[Tri]) -> bool
    requires { first + length bits.now < 2 ^ 64 }
    ensures { result ≡ list_all groups.is_group (groups.sizes_from first (map is_one_digit bits.now)) }
{
    let mut here = first;
    let mut rest = bits;
    while let [bit, tail @ ..] = rest {
        if *bit == Tri::One {
            here += 1;
        } else {
            if !is_group(here) {
                return false;
            }
            here = 1;
        }
        rest = tail;
    }
    is_group(here)
}

/// Whether port numbers with these continuations are ports of 1, 2, 4, .. or 64 words.
#[tactic(auto, unfolding(crate::specs::Groups::are_ports))]
fn are_ports(bits: &[Tri]) -> bool
    ensures { result ≡ groups.are_ports (map is_one_digit bits.now) }
{
    match bits {
        [] => true,
        [first, more @ ..] => *first != Tri::One && are_groups_from(1, more),
    }
}

/// Whether the port numbers below a count, with these continuations, are ports of 1, 2, 4, .. or
/// 64 words.
#[tactic(auto, using(crate::proofs::PortSizes::written_bits))]
pub fn are_groups(count: u32, bits: &[Tri]) -> bool
    ensures { result ≡ groups.are_groups count bits.now }
{
    let written = bits.len().min(count as usize);
    are_ports(&bits[..written])
}
