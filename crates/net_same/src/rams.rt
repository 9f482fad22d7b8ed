//! RAM cells, compared under tables of nets.
ghost use Rattle.net_core.specs.Renaming.{renamed_slot, renamed_ram};
ghost use Rattle.net_same.specs.Own.{slot_nets, ram_nets};

use crate::alike::Alike;
use crate::nets::Wired;
use crate::tables::Tables;
use net_core::{RamCell, SlotUse};

impl Wired for SlotUse {
    ghost renamed = { renamed_slot };

    ghost nets = { slot_nets };

    fn learn(&self, other: &SlotUse, tables: &mut Tables) {
        self.clock.learn(&other.clock, tables);
        self.clken.learn(&other.clken, tables);
        self.addr.learn(&other.addr, tables);
        self.rden.learn(&other.rden, tables);
        self.srst.learn(&other.srst, tables);
        self.arst.learn(&other.arst, tables);
        self.out.learn(&other.out, tables);
        self.value.learn(&other.value, tables);
        self.wren.learn(&other.wren, tables);
        self.wrbe.learn(&other.wrbe, tables);
    }

    fn is_renamed(&self, other: &SlotUse, tables: &Tables) -> bool {
        self.used.is_alike(&other.used)
            & self.reads_now.is_alike(&other.reads_now)
            & self.level.is_alike(&other.level)
            & self.clock.is_renamed(&other.clock, tables)
            & self.clken.is_renamed(&other.clken, tables)
            & self.addr.is_renamed(&other.addr, tables)
            & self.rden.is_renamed(&other.rden, tables)
            & self.srst.is_renamed(&other.srst, tables)
            & self.arst.is_renamed(&other.arst, tables)
            & self.out.is_renamed(&other.out, tables)
            & self.value.is_renamed(&other.value, tables)
            & self.wren.is_renamed(&other.wren, tables)
            & self.wrbe.is_renamed(&other.wrbe, tables)
            & self.srst_value.is_alike(&other.srst_value)
            & self.arst_value.is_alike(&other.arst_value)
            & self.init_value.is_alike(&other.init_value)
    }
}

impl Wired for RamCell {
    ghost renamed = { renamed_ram };

    ghost nets = { ram_nets };

    fn learn(&self, other: &RamCell, tables: &mut Tables) {
        self.slots.learn(&other.slots, tables);
    }

    fn is_renamed(&self, other: &RamCell, tables: &Tables) -> bool {
        self.name.is_alike(&other.name)
            & self.ram.is_alike(&other.ram)
            & self.variant.is_alike(&other.variant)
            & self.slots.is_renamed(&other.slots, tables)
            & self.init.is_alike(&other.init)
    }
}
