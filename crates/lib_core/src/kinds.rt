//! Which properties the ports of a kind may have.
ghost use Rattle.std.specs.Prelude.{◌≡◌};
ghost use Rattle.lib_core.specs.Kinds.{has_property};

use crate::library::{PortKind, Property};

/// The table of port kinds: whether ports of this kind may have this property. It stands in a
/// macro, so that a caller whose kind or property is constant keeps no test of it.
#[macro_export]
macro_rules! kind_table {
    ($kind:expr, $property:expr) => {
        match $property {
            $crate::Property::Clock | $crate::Property::Clken => match $kind {
                $crate::PortKind::Ar => false,
                $crate::PortKind::Sr
                | $crate::PortKind::Sw
                | $crate::PortKind::Arsw
                | $crate::PortKind::Srsw => true,
            },
            $crate::Property::Rden
            | $crate::Property::Rdsrst
            | $crate::Property::Rdarst
            | $crate::Property::Rdinit => match $kind {
                $crate::PortKind::Ar | $crate::PortKind::Sw | $crate::PortKind::Arsw => false,
                $crate::PortKind::Sr | $crate::PortKind::Srsw => true,
            },
            $crate::Property::Rdwr => match $kind {
                $crate::PortKind::Ar
                | $crate::PortKind::Sr
                | $crate::PortKind::Sw
                | $crate::PortKind::Arsw => false,
                $crate::PortKind::Srsw => true,
            },
            $crate::Property::Wrtrans
            | $crate::Property::Wrprio
            | $crate::Property::WrbeSeparate => match $kind {
                $crate::PortKind::Ar | $crate::PortKind::Sr => false,
                $crate::PortKind::Sw | $crate::PortKind::Arsw | $crate::PortKind::Srsw => true,
            },
            $crate::Property::Width => true,
        }
    };
}

/// Whether ports of the kind may have the property. It takes no memory.
pub fn allowed(kind: PortKind, property: Property) -> bool
    ensures { result ≡ has_property kind property }
{
    kind_table!(kind, property)
}
