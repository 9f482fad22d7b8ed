//! Tests of the sizes and the contents of memories.
ghost use Rattle.std.specs.Prelude.{◌≡◌, ◌*◌};
ghost use Rattle.std.specs.List.{list_all};
ghost use Rattle.net_live.specs.Fitting.{words_fit, width_fits, sizes_fit, contents_fit, mem_fits};

use crate::attrs::{attrs_fit, is_identifier};
use crate::ports::ports_fit;
use net_core::Mem;

/// Whether each of these memories fits.
pub fn mems_fit(mems: &[Mem]) -> bool
    ensures { result ≡ list_all mem_fits mems.now }
{
    mems.iter().all(|mem| mem_fits(mem))
}

/// Whether a memory has names, sizes, contents and ports that go together.
fn mem_fits(mem: &Mem) -> bool
    ensures { result ≡ mem_fits mem.now }
{
    sizes_fit(mem) && contents_fit(mem) && ports_fit(mem)
}

fn sizes_fit(mem: &Mem) -> bool
    ensures { result ≡ sizes_fit mem.now }
{
    is_identifier(mem.name.as_slice())
        && is_identifier(mem.origin.as_slice())
        && attrs_fit(mem.attrs.as_slice())
        && words_fit(mem)
        && width_fits(mem)
}

fn words_fit(mem: &Mem) -> bool
    ensures { result ≡ words_fit mem.now }
{
    1 <= mem.size
        && mem.size <= 1_048_576
        && u64::from(mem.offset) + u64::from(mem.size) <= 1_048_576
        && mem.abits <= 32
}

fn width_fits(mem: &Mem) -> bool
    ensures { result ≡ width_fits mem.now }
{
    1 <= mem.width && mem.width <= 65_536 && bits_of(mem) <= 8_388_608
}

/// How many bits a memory holds.
#[tactic(auto, using(crate::proofs::Sizes::bits_few))]
fn bits_of(mem: &Mem) -> u64
    ensures { result ≡ mem.now.size * mem.now.width }
{
    u64::from(mem.size) * u64::from(mem.width)
}

/// Whether there is a bit for each bit of each word at the start.
fn contents_fit(mem: &Mem) -> bool
    ensures { result ≡ contents_fit mem.now }
{
    mem.init.as_slice().len() as u64 == bits_of(mem)
}
