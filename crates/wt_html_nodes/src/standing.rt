ghost use Rattle.std.specs.Prelude.{◌≡◌};
ghost use Rattle.wt_schema.specs.Groups.{is_grouped};
ghost use Rattle.wt_html_nodes.specs.Heads.{is_first};

use wt_schema::Standing;

/// Whether an element in this position is the first one of a group.
pub fn is_first(standing: Standing) -> bool
    ensures { result ≡ is_first standing }
{
    match standing {
        Standing::Alone => false,
        Standing::First => true,
        Standing::Further => false,
        Standing::Astray => false,
    }
}

/// Whether an element in this position is in a group.
pub fn is_grouped(standing: Standing) -> bool
    ensures { result ≡ is_grouped standing }
{
    match standing {
        Standing::Alone => false,
        Standing::First => true,
        Standing::Further => true,
        Standing::Astray => false,
    }
}
