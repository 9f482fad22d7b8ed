//! The names of new cells.
ghost use Rattle.std.specs.Prelude.{◌≡◌, ◌+◌, ◌≤◌, length, fold, IfOk};
ghost use Rattle.net_core.specs.Valid.{cell_names};
ghost use Rattle.net_edit.specs.Names as spec;

use lib_core::{Memory, Name};
use net_core::{Carried, Comb, MemPart, Module, RamCell, Reg};
use std::alloc::Global;

/// How many underscores a text begins with.
fn underscores(text: &[u8]) -> usize
    ensures value { result ≡ spec.underscores text.now }
    ensures few { result ≤ length text.now }
{
    let mut rest = text;
    let mut count = 0;
    while let [byte, tail @ ..] = rest {
        if *byte != b'_' {
            return count;
        }
        count += 1;
        rest = tail;
    }
    count
}

/// How many underscores behind `$edit` a name asks for, which may not begin so.
#[tactic(auto, unfolding(crate::specs::Names::marks_of), using(crate::proofs::Marked::long))]
fn marks_of(name: &Name) -> usize
    ensures { result ≡ spec.marks_of name.now }
{
    let bytes = name.as_slice();
    if !bytes.starts_with(b"$edit") {
        return 0;
    }
    1 + underscores(&bytes[5..])
}

fn marks_of_combs(most: usize, combs: &[Comb]) -> usize
    ensures { result ≡ fold (λ n c. spec.more_marks n c.name) most combs.now }
{
    combs
        .iter()
        .fold(most, |most, comb| most.max(marks_of(&comb.name)))
}

fn marks_of_regs(most: usize, regs: &[Reg]) -> usize
    ensures { result ≡ fold (λ n r. spec.more_marks n r.name) most regs.now }
{
    regs.iter()
        .fold(most, |most, reg| most.max(marks_of(&reg.name)))
}

fn marks_of_rams(most: usize, rams: &[RamCell]) -> usize
    ensures { result ≡ fold (λ n c. spec.more_marks n c.name) most rams.now }
{
    rams.iter()
        .fold(most, |most, ram| most.max(marks_of(&ram.name)))
}

fn marks_of_carried(most: usize, carried: &[Carried]) -> usize
    ensures { result ≡ fold (λ n c. spec.more_marks n c.name) most carried.now }
{
    carried
        .iter()
        .fold(most, |most, cell| most.max(marks_of(&cell.name)))
}

fn marks_of_parts(most: usize, parts: &[MemPart]) -> usize
    ensures { result ≡ fold (λ n p. spec.more_marks n p.name) most parts.now }
{
    parts
        .iter()
        .fold(most, |most, part| most.max(marks_of(&part.name)))
}

/// So many underscores behind `$edit` that no cell of the module has a name that begins so.
#[tactic(auto, using(crate::proofs::Marked::by_kind))]
fn marks(module: &Module) -> usize
    ensures { result ≡ spec.most_marks 0 (cell_names «module».now) }
{
    let most = marks_of_combs(0, module.combs.as_slice());
    let most = marks_of_regs(most, module.regs.as_slice());
    let most = marks_of_rams(most, module.rams.as_slice());
    let most = marks_of_carried(most, module.carried.as_slice());
    marks_of_parts(most, module.parts.as_slice())
}

/// `$edit` with so many underscores.
#[tactic(auto, using(crate::proofs::Marked::one_more))]
fn marked(alloc: Global, marks: usize) -> Result<Vec<u8>, Memory>
    ensures { IfOk result (λ text. text.items ≡ spec.marked marks) }
{
    let mut text = Vec::from_slice(alloc, b"$edit")?;
    for _count in 0..marks {
        text.push(b'_')?;
    }
    Ok(text)
}

/// What the names of new cells begin with: with any number behind it, no cell of the module has it.
#[tactic(auto, using(crate::proofs::Marked::front_is_free))]
pub(crate) fn front_of(alloc: Global, module: &Module) -> Result<Name, Memory>
    ensures front { IfOk result spec.IsFront }
    ensures free { IfOk result (λ front. spec.AreFree front 0 (cell_names «module».now)) }
{
    let text = marked(alloc, marks(module))?;
    Ok(Name::from_vec(text))
}

/// A name with a number, and the number of the next.
pub(crate) struct Numbered {
    pub name: Name,
    pub next: u64,
}

/// The name with a number. Behind the highest number there is none, which counts as want of memory.
pub(crate) fn next_name(alloc: Global, front: &Name, number: u64) -> Result<Numbered, Memory>
    ensures name { IfOk result (λ made. made.name ≡ spec.numbered front.now number) }
    ensures next { IfOk result (λ made. made.next ≡ number + 1) }
{
    let Some(next) = number.checked_add(1) else {
        return Err(Memory);
    };
    let digits = format!(in alloc; "{number}")?;
    let mut text = Vec::from_slice(alloc, front.as_slice())?;
    text.extend_from_slice(digits.as_bytes())?;
    let name = Name::from_vec(text);
    Ok(Numbered { name, next })
}
