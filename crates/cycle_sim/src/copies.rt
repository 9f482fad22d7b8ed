//! Equal copies of modules and libraries.
ghost use Rattle.std.specs.Prelude.{◌≡◌, IfOk};

use lib_core::{Duplicate, Group, Library, List, Memory, Name, RamKind, Trans, Variant};
use net_core::{Carried, Comb, MemPart, Module, Pin, RamCell, Reg, SlotUse, Wire};
use std::alloc::Global;

/// What can be copied, where memory is found.
pub(crate) trait Twin: Sized {
    /// An equal value.
    fn twin(&self, alloc: Global) -> Result<Self, Memory>
        ensures { IfOk result (λ copy. copy ≡ self.now) };
}

impl<T: Twin + Drop> Twin for List<T> {
    fn twin(&self, alloc: Global) -> Result<List<T>, Memory> {
        Ok(List::from_vec(twins(alloc, self.as_slice())?))
    }
}

/// Equal copies of items, in their order.
fn twins<T: Twin + Drop>(alloc: Global, items: &[T]) -> Result<Vec<T>, Memory>
    ensures { IfOk result (λ copies. copies.items ≡ items.now) }
{
    let mut copies = Vec::with_capacity(alloc, items.len())?;
    for item in items {
        copies.push(item.twin(alloc)?)?;
    }
    Ok(copies)
}

impl Twin for Trans {
    fn twin(&self, _alloc: Global) -> Result<Trans, Memory> {
        Ok(*self)
    }
}

impl Twin for Group {
    fn twin(&self, alloc: Global) -> Result<Group, Memory> {
        Ok(Group {
            kind: self.kind,
            names: self.names.duplicate(alloc)?,
            options: self.options.duplicate(alloc)?,
            edge: self.edge,
            clken: self.clken,
            rden: self.rden,
            own: self.own,
            trans: self.trans.twin(alloc)?,
            prio: self.prio.duplicate(alloc)?,
            srst: self.srst,
            srst_gate: self.srst_gate,
            arst: self.arst,
            start: self.start,
            separate: self.separate,
            levels: self.levels.duplicate(alloc)?,
        })
    }
}

impl Twin for Variant {
    fn twin(&self, alloc: Global) -> Result<Variant, Memory> {
        Ok(Variant {
            abits: self.abits,
            widths: self.widths.duplicate(alloc)?,
            per_port: self.per_port,
            byte: self.byte,
            cost: self.cost,
            fill: self.fill,
            options: self.options.duplicate(alloc)?,
            groups: self.groups.twin(alloc)?,
        })
    }
}

/// An equal style.
fn twin_style(alloc: Global, style: &Option<Name>) -> Result<Option<Name>, Memory>
    ensures { IfOk result (λ copy. copy ≡ style.now) }
{
    match style {
        None => Ok(None),
        Some(name) => Ok(Some(name.duplicate(alloc)?)),
    }
}

impl Twin for RamKind {
    fn twin(&self, alloc: Global) -> Result<RamKind, Memory> {
        Ok(RamKind {
            name: self.name.duplicate(alloc)?,
            class: self.class,
            style: twin_style(alloc, &self.style)?,
            variants: self.variants.twin(alloc)?,
        })
    }
}

impl Twin for Library {
    fn twin(&self, alloc: Global) -> Result<Library, Memory> {
        Ok(Library {
            rams: self.rams.twin(alloc)?,
            budget: self.budget,
        })
    }
}

impl Twin for Wire {
    fn twin(&self, alloc: Global) -> Result<Wire, Memory> {
        Ok(Wire {
            name: self.name.duplicate(alloc)?,
            attrs: self.attrs.duplicate(alloc)?,
            port: self.port,
            input: self.input,
            output: self.output,
            offset: self.offset,
            upto: self.upto,
            signed: self.signed,
            bits: self.bits.duplicate(alloc)?,
        })
    }
}

impl Twin for Pin {
    fn twin(&self, alloc: Global) -> Result<Pin, Memory> {
        Ok(Pin {
            name: self.name.duplicate(alloc)?,
            drives: self.drives,
            bits: self.bits.duplicate(alloc)?,
        })
    }
}

impl Twin for MemPart {
    fn twin(&self, alloc: Global) -> Result<MemPart, Memory> {
        Ok(MemPart {
            name: self.name.duplicate(alloc)?,
            kind: self.kind.duplicate(alloc)?,
            attrs: self.attrs.duplicate(alloc)?,
            params: self.params.duplicate(alloc)?,
            pins: self.pins.twin(alloc)?,
        })
    }
}

impl Twin for Carried {
    fn twin(&self, alloc: Global) -> Result<Carried, Memory> {
        Ok(Carried {
            name: self.name.duplicate(alloc)?,
            kind: self.kind.duplicate(alloc)?,
            attrs: self.attrs.duplicate(alloc)?,
            params: self.params.duplicate(alloc)?,
            pins: self.pins.twin(alloc)?,
        })
    }
}

impl Twin for Comb {
    fn twin(&self, alloc: Global) -> Result<Comb, Memory> {
        Ok(Comb {
            name: self.name.duplicate(alloc)?,
            kind: self.kind,
            signed: self.signed,
            a: self.a.duplicate(alloc)?,
            b: self.b.duplicate(alloc)?,
            s: self.s.duplicate(alloc)?,
            y: self.y.duplicate(alloc)?,
        })
    }
}

impl Twin for Reg {
    fn twin(&self, alloc: Global) -> Result<Reg, Memory> {
        Ok(Reg {
            name: self.name.duplicate(alloc)?,
            kind: self.kind,
            clock: self.clock,
            en: self.en,
            en_high: self.en_high,
            arst: self.arst,
            arst_high: self.arst_high,
            arst_value: self.arst_value.duplicate(alloc)?,
            srst: self.srst,
            srst_high: self.srst_high,
            srst_value: self.srst_value.duplicate(alloc)?,
            d: self.d.duplicate(alloc)?,
            q: self.q.duplicate(alloc)?,
            init: self.init.duplicate(alloc)?,
        })
    }
}

impl Twin for SlotUse {
    fn twin(&self, alloc: Global) -> Result<SlotUse, Memory> {
        Ok(SlotUse {
            used: self.used,
            reads_now: self.reads_now,
            level: self.level,
            clock: self.clock,
            clken: self.clken,
            addr: self.addr.duplicate(alloc)?,
            rden: self.rden,
            srst: self.srst,
            arst: self.arst,
            out: self.out.duplicate(alloc)?,
            value: self.value.duplicate(alloc)?,
            wren: self.wren.duplicate(alloc)?,
            wrbe: self.wrbe.duplicate(alloc)?,
            srst_value: self.srst_value.duplicate(alloc)?,
            arst_value: self.arst_value.duplicate(alloc)?,
            init_value: self.init_value.duplicate(alloc)?,
        })
    }
}

impl Twin for RamCell {
    fn twin(&self, alloc: Global) -> Result<RamCell, Memory> {
        Ok(RamCell {
            name: self.name.duplicate(alloc)?,
            ram: self.ram,
            variant: self.variant,
            slots: self.slots.twin(alloc)?,
            init: self.init.duplicate(alloc)?,
        })
    }
}

impl Twin for Module {
    fn twin(&self, alloc: Global) -> Result<Module, Memory> {
        Ok(Module {
            name: self.name.duplicate(alloc)?,
            attrs: self.attrs.duplicate(alloc)?,
            nets: self.nets,
            wires: self.wires.twin(alloc)?,
            declared: self.declared.duplicate(alloc)?,
            parts: self.parts.twin(alloc)?,
            mems: self.mems.duplicate(alloc)?,
            combs: self.combs.twin(alloc)?,
            regs: self.regs.twin(alloc)?,
            rams: self.rams.twin(alloc)?,
            carried: self.carried.twin(alloc)?,
        })
    }
}
