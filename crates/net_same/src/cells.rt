//! Logic cells, registers and carried cells, compared under tables of nets.
ghost use Rattle.net_core.specs.Renaming.{renamed_comb, renamed_reg, renamed_pin, renamed_carried};
ghost use Rattle.net_same.specs.Own.{comb_nets, reg_nets, pin_nets, carried_nets};

use crate::alike::Alike;
use crate::nets::Wired;
use crate::tables::Tables;
use net_core::{Carried, Comb, Pin, Reg};

impl Wired for Comb {
    ghost renamed = { renamed_comb };

    ghost nets = { comb_nets };

    fn learn(&self, other: &Comb, tables: &mut Tables) {
        self.a.learn(&other.a, tables);
        self.b.learn(&other.b, tables);
        self.s.learn(&other.s, tables);
        self.y.learn(&other.y, tables);
    }

    fn is_renamed(&self, other: &Comb, tables: &Tables) -> bool {
        self.name.is_alike(&other.name)
            & self.kind.is_alike(&other.kind)
            & self.signed.is_alike(&other.signed)
            & self.a.is_renamed(&other.a, tables)
            & self.b.is_renamed(&other.b, tables)
            & self.s.is_renamed(&other.s, tables)
            & self.y.is_renamed(&other.y, tables)
    }
}

impl Wired for Pin {
    ghost renamed = { renamed_pin };

    ghost nets = { pin_nets };

    fn learn(&self, other: &Pin, tables: &mut Tables) {
        self.bits.learn(&other.bits, tables);
    }

    fn is_renamed(&self, other: &Pin, tables: &Tables) -> bool {
        self.name.is_alike(&other.name)
            & self.drives.is_alike(&other.drives)
            & self.bits.is_renamed(&other.bits, tables)
    }
}

impl Wired for Carried {
    ghost renamed = { renamed_carried };

    ghost nets = { carried_nets };

    fn learn(&self, other: &Carried, tables: &mut Tables) {
        self.pins.learn(&other.pins, tables);
    }

    fn is_renamed(&self, other: &Carried, tables: &Tables) -> bool {
        self.name.is_alike(&other.name)
            & self.kind.is_alike(&other.kind)
            & self.attrs.is_alike(&other.attrs)
            & self.params.is_alike(&other.params)
            & self.pins.is_renamed(&other.pins, tables)
    }
}

impl Wired for Reg {
    ghost renamed = { renamed_reg };

    ghost nets = { reg_nets };

    fn learn(&self, other: &Reg, tables: &mut Tables) {
        self.clock.learn(&other.clock, tables);
        self.en.learn(&other.en, tables);
        self.arst.learn(&other.arst, tables);
        self.srst.learn(&other.srst, tables);
        self.d.learn(&other.d, tables);
        self.q.learn(&other.q, tables);
    }

    fn is_renamed(&self, other: &Reg, tables: &Tables) -> bool {
        self.name.is_alike(&other.name)
            & self.kind.is_alike(&other.kind)
            & self.clock.is_renamed(&other.clock, tables)
            & self.en.is_renamed(&other.en, tables)
            & self.en_high.is_alike(&other.en_high)
            & self.arst.is_renamed(&other.arst, tables)
            & self.arst_high.is_alike(&other.arst_high)
            & self.arst_value.is_alike(&other.arst_value)
            & self.srst.is_renamed(&other.srst, tables)
            & self.srst_high.is_alike(&other.srst_high)
            & self.srst_value.is_alike(&other.srst_value)
            & self.d.is_renamed(&other.d, tables)
            & self.q.is_renamed(&other.q, tables)
            & self.init.is_alike(&other.init)
    }
}
