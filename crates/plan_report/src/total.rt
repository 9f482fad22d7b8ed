//! The points of all memories together.
ghost use Rattle.std.specs.Prelude.{◌≡◌, ◌≤◌, ◌*◌, length};
ghost use Rattle.plan_report.specs.Report.{points_of, total_points};

use fit_rules::Plan;
use net_core::Module;

/// The points of the plans that are paired with memories of these modules. It takes no memory.
pub fn total_points(modules: &[Module], plans: &[Plan]) -> u128
    ensures { result ≡ total_points modules.now plans.now }
{
    let mut total = 0;
    let mut rest = modules;
    let mut left = plans;
    while let [module, tail @ ..] = rest {
        let count = module.mems.as_slice().len().min(left.len());
        let (here, behind) = left.split_at(count);
        total += points_of(here);
        left = behind;
        rest = tail;
    }
    total
}

/// The points of these plans.
fn points_of(plans: &[Plan]) -> u128
    ensures value { result ≡ points_of plans.now }
    ensures bound { result ≤ length plans.now * 18446744073709551615 }
{
    let mut sum = 0;
    for plan in plans {
        sum += u128::from(plan.points);
    }
    sum
}
