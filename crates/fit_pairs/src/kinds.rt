//! What ports of a kind do.
ghost use Rattle.std.specs.Prelude.{◌≡◌};
ghost use Rattle.lib_core.specs.Rams as rams;

use lib_core::{PortKind, Property, kind_table};

/// Whether ports of the kind read at once. It takes no memory.
pub fn reads_now(kind: PortKind) -> bool
    ensures { result ≡ rams.reads_now kind }
{
    match kind {
        PortKind::Ar | PortKind::Arsw => true,
        PortKind::Sr | PortKind::Sw | PortKind::Srsw => false,
    }
}

/// Whether ports of the kind read into a register. It takes no memory.
pub fn reads_later(kind: PortKind) -> bool
    ensures { result ≡ rams.reads_later kind }
{
    kind_table!(kind, Property::Rden)
}

/// Whether ports of the kind read. It takes no memory.
pub fn reads(kind: PortKind) -> bool
    ensures { result ≡ rams.kind_reads kind }
{
    match kind {
        PortKind::Ar | PortKind::Arsw => true,
        PortKind::Sr | PortKind::Sw | PortKind::Srsw => kind_table!(kind, Property::Rden),
    }
}

/// Whether ports of the kind write. It takes no memory.
pub fn writes(kind: PortKind) -> bool
    ensures { result ≡ rams.kind_writes kind }
{
    kind_table!(kind, Property::Wrprio)
}
