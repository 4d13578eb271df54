// Which ways to touch a place go together.
ghost use Rattle.std.specs.Prelude.{◌≡◌};
ghost use Rattle.model.specs.Races.{together};

use model::{Access, Change};

// Whether two threads may touch a place in these ways without a clash.
pub fn goes_with(one: Access, other: Access) -> bool
    ensures { result ≡ together one other }
{
    matches!(
        (one, other),
        (Access::Reading, Access::Reading)
            | (Access::Changing(Change::Add), Access::Changing(Change::Add))
    )
}
