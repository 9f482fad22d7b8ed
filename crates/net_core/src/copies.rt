//! Equal copies of memories and of what they are made of.
ghost use Rattle.std.specs.Prelude.{◌≡◌, IfOk};

use crate::bits::Bit;
use crate::mems::{Attr, Mem, RdPort, WrPort};
use lib_core::{Duplicate, Memory};
use std::alloc::Global;

impl Duplicate for Bit {
    fn duplicate(&self, _alloc: Global) -> Result<Bit, Memory> {
        Ok(*self)
    }
}

impl Duplicate for Attr {
    fn duplicate(&self, alloc: Global) -> Result<Attr, Memory> {
        Ok(Attr {
            name: self.name.duplicate(alloc)?,
            is_text: self.is_text,
            value: self.value.duplicate(alloc)?,
            bits: self.bits.duplicate(alloc)?,
        })
    }
}

impl Duplicate for RdPort {
    fn duplicate(&self, alloc: Global) -> Result<RdPort, Memory> {
        Ok(RdPort {
            wide: self.wide,
            clock: self.clock,
            en: self.en,
            addr: self.addr.duplicate(alloc)?,
            out: self.out.duplicate(alloc)?,
            arst: self.arst,
            srst: self.srst,
            arst_value: self.arst_value.duplicate(alloc)?,
            srst_value: self.srst_value.duplicate(alloc)?,
            init_value: self.init_value.duplicate(alloc)?,
            ce_over_srst: self.ce_over_srst,
            trans: self.trans.duplicate(alloc)?,
            coll: self.coll.duplicate(alloc)?,
        })
    }
}

impl Duplicate for WrPort {
    fn duplicate(&self, alloc: Global) -> Result<WrPort, Memory> {
        Ok(WrPort {
            wide: self.wide,
            clock: self.clock,
            en: self.en.duplicate(alloc)?,
            addr: self.addr.duplicate(alloc)?,
            value: self.value.duplicate(alloc)?,
            prio: self.prio.duplicate(alloc)?,
        })
    }
}

impl Duplicate for Mem {
    fn duplicate(&self, alloc: Global) -> Result<Mem, Memory> {
        Ok(Mem {
            name: self.name.duplicate(alloc)?,
            attrs: self.attrs.duplicate(alloc)?,
            width: self.width,
            size: self.size,
            offset: self.offset,
            abits: self.abits,
            init: self.init.duplicate(alloc)?,
            reads: self.reads.duplicate(alloc)?,
            writes: self.writes.duplicate(alloc)?,
            origin: self.origin.duplicate(alloc)?,
            place: self.place,
        })
    }
}

impl Mem {
    /// An equal memory.
    pub fn copy(&self, alloc: Global) -> Result<Mem, Memory>
        ensures { IfOk result (λ copy. copy ≡ self.now) }
    {
        self.duplicate(alloc)
    }
}
