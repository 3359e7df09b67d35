//! A region: an `R` line.
ghost use Rattle.std.specs.Prelude.{◌≡◌};
ghost use Rattle.chart.specs.Regions.{region_in};
ghost use Rattle.text.specs.Unread.{unread};

use linefile::{end_fields, take_field};
use text::Fields;

/// A region of a chart. Only the root has no parent state.
#[derive(Clone, Copy, PartialEq, Eq, Debug)]
pub struct Region {
    pub parent: Option<u32>,
}

// The region whose fields follow the letter, with its number.
pub(crate) fn parse_region(mut fields: Fields) -> Option<(u32, Region)>
    ensures { result ≡ region_in (unread fields.entry) }
{
    let number = take_field(&mut fields)?;
    let parent = take_field(&mut fields)?;
    end_fields(fields)?;
    Some((number, Region { parent }))
}
