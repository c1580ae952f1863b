//! Sets as they are displayed.
ghost use Rattle.std.specs.Fmt.{debug_list};

use super::Set;
use crate::display::write_items;
use std::alloc::Allocator;
use std::fmt;

impl<T: Ord + fmt::Display, A: Allocator> fmt::Display for Set<T, A> {
    ghost output = { debug_list T.output };

    /// Writes `[`, the `Display` texts of the items, joined by `, `, and `]`.
    fn fmt<W: fmt::Write>(&self, f: &mut fmt::Formatter<W>) -> fmt::Result {
        f.write_str("[")?;
        write_items(self.as_slice(), f)?;
        f.write_str("]")
    }
}

impl<T: Ord + fmt::Debug, A: Allocator> fmt::Debug for Set<T, A> {
    fn fmt<W: fmt::Write>(&self, f: &mut fmt::Formatter<W>) -> fmt::Result {
        f.debug_tuple("Set").field(&self.as_slice()).finish()
    }
}
