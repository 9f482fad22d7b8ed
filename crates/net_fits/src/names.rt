//! Names, attributes and parameters.
ghost use Rattle.net_fits.specs.Names.{HeadFits, IdentifiersAreNames, WrittenAttrsFit, WrittenParamsFit};

/// What the text calls an identifier is the name of something.
pub fn identifiers_are_names()
    ensures { IdentifiersAreNames }
{}

/// Attributes that a text has fit.
pub fn written_attrs_fit()
    ensures { WrittenAttrsFit }
{}

/// And so do the parameters of a cell.
pub fn written_params_fit()
    ensures { WrittenParamsFit }
{}

/// A module of a text has a name, and its attributes fit.
pub fn head_fits()
    ensures { HeadFits }
{}
