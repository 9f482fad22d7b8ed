//! Memories and their ports, compared under tables of nets.
ghost use Rattle.net_core.specs.Renaming.{renamed_read, renamed_write, renamed_mem};
ghost use Rattle.net_same.specs.Own.{read_nets, write_nets, mem_nets};

use crate::alike::Alike;
use crate::nets::Wired;
use crate::tables::Tables;
use net_core::{Mem, RdPort, WrPort};

impl Wired for RdPort {
    ghost renamed = { renamed_read };

    ghost nets = { read_nets };

    fn learn(&self, other: &RdPort, tables: &mut Tables) {
        self.clock.learn(&other.clock, tables);
        self.en.learn(&other.en, tables);
        self.addr.learn(&other.addr, tables);
        self.out.learn(&other.out, tables);
        self.arst.learn(&other.arst, tables);
        self.srst.learn(&other.srst, tables);
    }

    fn is_renamed(&self, other: &RdPort, tables: &Tables) -> bool {
        self.wide.is_alike(&other.wide)
            & self.clock.is_renamed(&other.clock, tables)
            & self.en.is_renamed(&other.en, tables)
            & self.addr.is_renamed(&other.addr, tables)
            & self.out.is_renamed(&other.out, tables)
            & self.arst.is_renamed(&other.arst, tables)
            & self.srst.is_renamed(&other.srst, tables)
            & self.arst_value.is_alike(&other.arst_value)
            & self.srst_value.is_alike(&other.srst_value)
            & self.init_value.is_alike(&other.init_value)
            & self.ce_over_srst.is_alike(&other.ce_over_srst)
            & self.trans.is_alike(&other.trans)
            & self.coll.is_alike(&other.coll)
    }
}

impl Wired for WrPort {
    ghost renamed = { renamed_write };

    ghost nets = { write_nets };

    fn learn(&self, other: &WrPort, tables: &mut Tables) {
        self.clock.learn(&other.clock, tables);
        self.en.learn(&other.en, tables);
        self.addr.learn(&other.addr, tables);
        self.value.learn(&other.value, tables);
    }

    fn is_renamed(&self, other: &WrPort, tables: &Tables) -> bool {
        self.wide.is_alike(&other.wide)
            & self.clock.is_renamed(&other.clock, tables)
            & self.en.is_renamed(&other.en, tables)
            & self.addr.is_renamed(&other.addr, tables)
            & self.value.is_renamed(&other.value, tables)
            & self.prio.is_alike(&other.prio)
    }
}

impl Wired for Mem {
    ghost renamed = { renamed_mem };

    ghost nets = { mem_nets };

    fn learn(&self, other: &Mem, tables: &mut Tables) {
        self.reads.learn(&other.reads, tables);
        self.writes.learn(&other.writes, tables);
    }

    fn is_renamed(&self, other: &Mem, tables: &Tables) -> bool {
        self.name.is_alike(&other.name)
            & self.attrs.is_alike(&other.attrs)
            & self.width.is_alike(&other.width)
            & self.size.is_alike(&other.size)
            & self.offset.is_alike(&other.offset)
            & self.abits.is_alike(&other.abits)
            & self.init.is_alike(&other.init)
            & self.reads.is_renamed(&other.reads, tables)
            & self.writes.is_renamed(&other.writes, tables)
            & self.origin.is_alike(&other.origin)
            & self.place.is_alike(&other.place)
    }
}
