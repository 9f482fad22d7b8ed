//! Laws about sound modules, each the contract of a function that does nothing.
ghost use Rattle.net_live.specs.Sound.{SoundIsLive, SoundDesignIsLive};

use net_core::laws::ordered_is_live;

/// A sound module has a run over every list of happenings.
pub fn sound_is_live()
    ensures { SoundIsLive }
{
    ordered_is_live();
}

/// Each module of a sound design has a run over every list of happenings.
pub fn sound_design_is_live()
    ensures { SoundDesignIsLive }
{
    ordered_is_live();
}
