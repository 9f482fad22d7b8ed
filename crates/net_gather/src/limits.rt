//! Counts that may not pass a limit.
ghost use Rattle.std.specs.Prelude.{◌≡◌, ◌≤◌, ◌+◌, None};
ghost use Rattle.net_wires.specs.Finds.{Finds};
ghost use Rattle.net_wires.specs.declared.breach.BuildCode.TheVariants.{Limit};
ghost use Rattle.net_wires.specs.declared.breach.Stop.TheVariants.{Broken};
ghost use Rattle.net_gather.specs.Faults.{limit_breaches};
ghost use Rattle.net_gather.specs.Sizes.{seen_breaches};

use net_wires::{Breach, BuildCode, Stop};

/// A stop at a limit: one more than it was seen.
fn over(seen: u64) -> Stop
    ensures { result ≡ Broken (record { code = Limit; seen = seen }) }
{
    Stop::Broken(Breach {
        code: BuildCode::Limit,
        seen,
    })
}

/// What was counted so far with what comes to it. It stops where that is more than the limit
/// (`Limit`).
#[tactic(auto, unfolding(crate::specs::Faults::limit_breaches))]
pub(crate) fn add_within(limit: u32, before: u32, more: u64) -> Result<u32, Stop>
    ensures { Finds result (limit_breaches limit (before + more)) (λ sum. (sum ≡ before + more) × (sum ≤ limit)) }
{
    let most = u64::from(limit);
    if more > most {
        return Err(over(most + 1));
    }
    let sum = u64::from(before) + more;
    if sum > most {
        return Err(over(most + 1));
    }
    Ok(sum as u32)
}

/// Stops where a number is more than the limit (`Limit`).
#[tactic(auto, unfolding(crate::specs::Faults::limit_breaches))]
pub(crate) fn few(limit: u32, found: u32) -> Result<(), Stop>
    ensures { Finds result (limit_breaches limit found) (λ _. found ≤ limit) }
{
    if found > limit {
        return Err(over(u64::from(limit) + 1));
    }
    Ok(())
}

/// Stops where a limit is passed (`Limit`), of which one more than the limit is told.
pub(crate) fn unlimited(seen: Option<u64>) -> Result<(), Stop>
    ensures { Finds result (seen_breaches seen) (λ _. seen ≡ None) }
{
    match seen {
        Some(seen) => Err(over(seen)),
        None => Ok(()),
    }
}
