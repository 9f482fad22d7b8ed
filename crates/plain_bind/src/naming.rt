//! The names of the new cells of a module.
ghost use Rattle.std.specs.Prelude.{◌≡◌, ◌≤◌, ◌++◌, length, fold, IfOk};
ghost use Rattle.plain_bind.specs.Names as spec;

use lib_core::{Memory, Name};
use net_core::{Carried, Comb, Mem, Module, RamCell, Reg, Wire};
use std::alloc::Global;

/// How many underscores a text begins with.
fn underscores(text: &[u8]) -> usize
    ensures value { result ≡ spec.underscores text.now }
    ensures few { result ≤ length text.now }
{
    let mut rest = text;
    let mut count = 0;
    while let [byte, tail @ ..] = rest {
        if *byte != b'_' {
            return count;
        }
        count += 1;
        rest = tail;
    }
    count
}

/// How many underscores behind `$ram` a name asks for, which may not begin so.
#[tactic(auto, unfolding(crate::specs::Names::marks_of), using(crate::proofs::Marked::long))]
fn marks_of(name: &Name) -> usize
    ensures { result ≡ spec.marks_of name.now }
{
    let bytes = name.as_slice();
    if !bytes.starts_with(b"$ram") {
        return 0;
    }
    1 + underscores(&bytes[4..])
}

fn marks_of_wires(most: usize, wires: &[Wire]) -> usize
    ensures { result ≡ fold (λ n w. spec.more_marks n w.name) most wires.now }
{
    wires
        .iter()
        .fold(most, |most, wire| most.max(marks_of(&wire.name)))
}

fn marks_of_mems(most: usize, mems: &[Mem]) -> usize
    ensures { result ≡ fold (λ n x. spec.more_marks n x.name) most mems.now }
{
    mems.iter()
        .fold(most, |most, mem| most.max(marks_of(&mem.name)))
}

fn marks_of_combs(most: usize, combs: &[Comb]) -> usize
    ensures { result ≡ fold (λ n c. spec.more_marks n c.name) most combs.now }
{
    combs
        .iter()
        .fold(most, |most, comb| most.max(marks_of(&comb.name)))
}

fn marks_of_regs(most: usize, regs: &[Reg]) -> usize
    ensures { result ≡ fold (λ n r. spec.more_marks n r.name) most regs.now }
{
    regs.iter()
        .fold(most, |most, reg| most.max(marks_of(&reg.name)))
}

fn marks_of_rams(most: usize, rams: &[RamCell]) -> usize
    ensures { result ≡ fold (λ n c. spec.more_marks n c.name) most rams.now }
{
    rams.iter()
        .fold(most, |most, ram| most.max(marks_of(&ram.name)))
}

fn marks_of_carried(most: usize, carried: &[Carried]) -> usize
    ensures { result ≡ fold (λ n c. spec.more_marks n c.name) most carried.now }
{
    carried
        .iter()
        .fold(most, |most, cell| most.max(marks_of(&cell.name)))
}

/// How many underscores behind `$ram` no name of the module begins with; with fewer one does.
#[tactic(auto, using(crate::proofs::Marked::by_kind))]
fn marks(module: &Module) -> usize
    ensures { result ≡ spec.marks «module».now }
{
    let most = marks_of_wires(0, module.wires.as_slice());
    let most = marks_of_mems(most, module.mems.as_slice());
    let most = marks_of_combs(most, module.combs.as_slice());
    let most = marks_of_regs(most, module.regs.as_slice());
    let most = marks_of_rams(most, module.rams.as_slice());
    marks_of_carried(most, module.carried.as_slice())
}

/// `$ram` with so many underscores.
#[tactic(auto, using(crate::proofs::Marked::one_more))]
fn marked(alloc: Global, marks: usize) -> Result<Vec<u8>, Memory>
    ensures { IfOk result (λ text. text.items ≡ spec.marked marks) }
{
    let mut text = Vec::from_slice(alloc, b"$ram")?;
    for _count in 0..marks {
        text.push(b'_')?;
    }
    Ok(text)
}

/// What the name of each new cell of a module begins with.
pub(crate) fn front_of(alloc: Global, module: &Module) -> Result<Name, Memory>
    ensures { IfOk result (λ front. front ≡ spec.front_of «module».now) }
{
    let mut text = marked(alloc, marks(module))?;
    text.extend_from_slice(b".0.0.0")?;
    Ok(Name::from_vec(text))
}

/// The name of the cell in a memory's place.
pub(crate) fn cell_name(alloc: Global, front: &Name, mem: &Mem) -> Result<Name, Memory>
    ensures { IfOk result (λ name. name ≡ front.now ++ mem.now.name) }
{
    let mut text = Vec::from_slice(alloc, front.as_slice())?;
    text.extend_from_slice(mem.name.as_slice())?;
    Ok(Name::from_vec(text))
}
