//! Equal copies of statements.
use crate::statement::{Item, Setting, Statement, Targets};
use lib_core::{Duplicate, Memory};
use std::alloc::Global;

impl Duplicate for Item {
    fn duplicate(&self, alloc: Global) -> Result<Item, Memory> {
        Ok(match self {
            Item::Size(size, number) => Item::Size(*size, *number),
            Item::Widths { widths, per_port } => Item::Widths {
                widths: widths.duplicate(alloc)?,
                per_port: *per_port,
            },
            Item::Init(fill) => Item::Init(*fill),
            Item::Style(style) => Item::Style(style.copy(alloc)?),
        })
    }
}

impl Duplicate for Targets {
    fn duplicate(&self, alloc: Global) -> Result<Targets, Memory> {
        Ok(match self {
            Targets::All => Targets::All,
            Targets::Named(names) => Targets::Named(names.duplicate(alloc)?),
        })
    }
}

impl Duplicate for Setting {
    fn duplicate(&self, alloc: Global) -> Result<Setting, Memory> {
        Ok(match self {
            Setting::Clock(edge) => Setting::Clock(*edge),
            Setting::Clken => Setting::Clken,
            Setting::Rden => Setting::Rden,
            Setting::Rdwr(own) => Setting::Rdwr(*own),
            Setting::Wrtrans { targets, seen } => Setting::Wrtrans {
                targets: targets.duplicate(alloc)?,
                seen: *seen,
            },
            Setting::Wrprio(targets) => Setting::Wrprio(targets.duplicate(alloc)?),
            Setting::Rdsrst { fill, gate } => Setting::Rdsrst {
                fill: *fill,
                gate: *gate,
            },
            Setting::Rdarst(fill) => Setting::Rdarst(*fill),
            Setting::Rdinit(fill) => Setting::Rdinit(*fill),
            Setting::WrbeSeparate => Setting::WrbeSeparate,
            Setting::Width { tied, widths } => Setting::Width {
                tied: *tied,
                widths: widths.duplicate(alloc)?,
            },
        })
    }
}

impl Duplicate for Statement {
    fn duplicate(&self, alloc: Global) -> Result<Statement, Memory> {
        Ok(match self {
            Statement::Ram { line, class, name } => Statement::Ram {
                line: *line,
                class: *class,
                name: name.copy(alloc)?,
            },
            Statement::Item(item) => Statement::Item(item.duplicate(alloc)?),
            Statement::Block { scope, choice } => Statement::Block {
                scope: *scope,
                choice: choice.duplicate(alloc)?,
            },
            Statement::Port { kind, names } => Statement::Port {
                kind: *kind,
                names: names.duplicate(alloc)?,
            },
            Statement::Setting(setting) => Statement::Setting(setting.duplicate(alloc)?),
            Statement::End => Statement::End,
        })
    }
}
