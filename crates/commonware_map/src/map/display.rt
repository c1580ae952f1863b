//! Maps as they are displayed.
ghost use Rattle.std.specs.Prelude.{[]};
ghost use Rattle.std.specs.Fmt.{DisplaysOnOk, debug_items, debug_list};
ghost use Rattle.commonware_map.specs.Pairs.{pair_text};

use super::Map;
use std::alloc::Allocator;
use std::fmt;

impl<K: Ord + fmt::Display, V: fmt::Display, A: Allocator> fmt::Display for Map<K, V, A> {
    ghost output = { debug_list (λ p. pair_text (K.output p.0) (V.output p.1)) };

    /// Writes `[`, the pairs as `(k, v)`, joined by `, `, and `]`.
    fn fmt<W: fmt::Write>(&self, f: &mut fmt::Formatter<W>) -> fmt::Result {
        f.write_str("[")?;
        write_pairs(self, f)?;
        f.write_str("]")
    }
}

/// Writes the pairs as `(k, v)`, joined by `, `.
fn write_pairs<K: Ord + fmt::Display, V: fmt::Display, A: Allocator, W: fmt::Write>(
    map: &Map<K, V, A>,
    f: &mut fmt::Formatter<W>,
) -> fmt::Result
    ensures { DisplaysOnOk W.write_str_gives f.old result
        (debug_items (λ p. pair_text (K.output p.0) (V.output p.1)) [] map.now) f.new }
{
    let mut lead = "";
    for (key, value) in map.keys().iter().zip(map.values()) {
        f.write_str(lead)?;
        write!(f, "({key}, {value})")?;
        lead = ", ";
    }
    Ok(())
}

impl<K: Ord + fmt::Debug, V: fmt::Debug, A: Allocator> fmt::Debug for Map<K, V, A> {
    fn fmt<W: fmt::Write>(&self, f: &mut fmt::Formatter<W>) -> fmt::Result {
        let pairs = PairList {
            keys: self.keys().as_slice(),
            values: self.values(),
        };
        f.debug_tuple("Map").field(&pairs).finish()
    }
}

/// Keys and the values at their positions, to be shown as a list of pairs.
#[derive(Drop)]
struct PairList<'a, K, V> {
    keys: &'a [K],
    values: &'a [V],
}

impl<'a, K: fmt::Debug, V: fmt::Debug> fmt::Debug for PairList<'a, K, V> {
    fn fmt<W: fmt::Write>(&self, f: &mut fmt::Formatter<W>) -> fmt::Result {
        f.debug_list()
            .entries(self.keys.iter().zip(self.values))
            .finish()
    }
}
