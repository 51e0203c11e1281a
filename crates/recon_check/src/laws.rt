//! A theorem over the definitions, as the contract of a call that does nothing.

ghost use Rattle.recon_check.specs.Laws.{OneAnswer};

/// States that no mesh and certificate have two answers, so two checks of the same texts return the same reason.
pub fn answers_are_unique()
    ensures { OneAnswer }
{}
