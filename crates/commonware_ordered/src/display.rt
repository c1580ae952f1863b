//! Lists as they are displayed.
ghost use Rattle.std.specs.Prelude.{[]};
ghost use Rattle.std.specs.Fmt.{DisplaysOnOk, debug_items};

use std::fmt;

/// Writes the `Display` texts of the items, joined by `, `.
pub(crate) fn write_items<T: fmt::Display, W: fmt::Write>(
    items: &[T],
    f: &mut fmt::Formatter<W>,
) -> fmt::Result
    ensures { DisplaysOnOk W.write_str_gives f.old result
        (debug_items T.output [] items.now) f.new }
{
    let mut lead = "";
    for item in items {
        f.write_str(lead)?;
        write!(f, "{item}")?;
        lead = ", ";
    }
    Ok(())
}
