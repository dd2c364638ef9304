//! The defaults of variables in plain numbers.
ghost use Rattle.std.specs.Prelude.{◌≡◌, negsuc};
ghost use Rattle.pp_model.specs.Defaults.{defaults};

/// The defaults that are numbers: a row needs 5 parts in 1,000 of the total, an edge 1 part in 1,000, fractions being
/// counted in billionths; 4 threads work, a value is divided by 1, and the number of rows is the report's own (-1).
pub fn numbers_by_default()
    ensures nodefraction { defaults.presentation.nodefraction.billionths ≡ 5000000 }
    ensures edgefraction { defaults.presentation.edgefraction.billionths ≡ 1000000 }
    ensures workers { defaults.environment.workers ≡ 4 }
    ensures divide_by { defaults.presentation.divide_by ≡ 1 }
    ensures nodecount { defaults.presentation.nodecount ≡ negsuc 0 }
{}
