//! Daily profiles beside the product's contracts.
ghost use Rattle.std.specs.Prelude.{◌≡◌};

use crate::daily::{DailyProfile, PROFILE_KIND};
use forms::{ByKind, Product};

/// Daily profiles, and the product's blocks and shares.
pub type Range = ByKind<DailyProfile, Product>;

/// The form that sends kind 3 to the daily profile, and every other kind to the product.
pub fn whole_range() -> Range
    ensures { result.kind ≡ 3 }
{
    ByKind {
        kind: PROFILE_KIND,
        first: DailyProfile,
        second: Product,
    }
}
