//! The encoding of a bimap, which is that of the map of its pairs.
ghost use Rattle.std.specs.Prelude.{◌≡◌, ℕ, List};
ghost use Rattle.commonware_base.specs.Fault.{Fault};
ghost use Rattle.commonware_base.specs.Lists.{IsListMemoryFree};
ghost use Rattle.commonware_map.specs.laws.MapLaws.{map_bytes};
ghost use Rattle.commonware_map.specs.Maps.{map_enc, IsAllowedMap};
ghost use Rattle.commonware_bimap.specs.laws.BiMapLaws.{bimap_canonical, bimap_laws, bimap_prefix_free};
ghost use Rattle.commonware_bimap.specs.BiMaps.{BiMapFault, IsWritableBiMap, bimap_case};

use super::BiMap;
use commonware_base::codec::{Canonical, EncodeSize, Error, RangeCfg, Read, Source, Write};
use commonware_map::Map;
use commonware_ordered as ordered;
use std::alloc::{AllocError, Allocator};
use std::hash::Hash;

impl<K: Ord + EncodeSize, V: Eq + Hash + EncodeSize, A: Allocator> EncodeSize for BiMap<K, V, A> {
    ghost enc = { map_enc K.enc V.enc };

    ghost writable = { IsWritableBiMap K.writable K.cmp V.writable V.eq };

    ghost prefix_free = { bimap_prefix_free K.enc K.writable K.cmp K.prefix_free
        V.enc V.writable V.prefix_free V.eq };

    ghost text_of_bytes = { λ m h. map_bytes K.enc K.writable K.cmp K.prefix_free
        V.enc V.writable K.text_of_bytes V.text_of_bytes m h.map };

    fn encode_size(&self) -> usize {
        self.map.encode_size()
    }

    fn is_writable(&self) -> bool {
        self.map.is_writable()
    }
}

impl<K: Ord + Write<A>, V: Eq + Hash + Write<A>, A: Allocator> Write<A> for BiMap<K, V, A> {
    fn write(&self, sink: &mut Vec<u8, A>) -> Result<(), AllocError> {
        self.map.write(sink)
    }
}

impl<
    K: Ord + Canonical + Read<A> + Drop,
    V: Canonical + Hash + Read<A> + Drop,
    A: Allocator + Copy,
> Read<A> for BiMap<K, V, A> {
    type Cfg = (RangeCfg<usize>, K::Cfg, V::Cfg);

    ghost allowed = { λ c. IsAllowedMap c.0 (K.allowed c.1) (V.allowed c.2) };

    ghost fault = { λ c. BiMapFault K.enc K.writable K.cmp (K.allowed c.1) (K.fault c.1)
        V.enc V.writable (V.allowed c.2) (V.fault c.2) V.eq c.0 };

    ghost memory_free = { λ c. IsListMemoryFree (K.fault c.1) (K.memory_free c.1) c.0 };

    ghost read_laws = { λ alloc c. bimap_laws K.enc K.writable K.cmp K.prefix_free
        V.enc V.writable V.prefix_free K.eq K.total K.matches_eq K.canonical
        V.eq V.Eq.laws V.canonical c.0 (K.allowed c.1) (K.fault c.1) (V.allowed c.2) (V.fault c.2)
        (K.read_laws alloc c.1) (V.read_laws alloc c.2) };

    /// Decodes a map, and then looks for equal values, in a hash set on the same allocator: a fault
    /// of any byte of the map comes before equal values.
    fn read_cfg(alloc: A, src: &mut Source<'_>, cfg: &Self::Cfg) -> Result<BiMap<K, V, A>, Error> {
        let mut here = *src;
        let map = Map::<K, V, A>::read_cfg(alloc, &mut here, cfg)?;
        match BiMap::try_from_map(map) {
            Ok(bimap) => {
                *src = here;
                Ok(bimap)
            }
            Err(ordered::Error::DuplicateValue) => Err(Error::Invalid(
                "BiMap",
                "duplicate value detected during deserialization",
            )),
            // The keys of a map are never equal, so only an allocation failure is left.
            Err(_) => Err(Error::Memory),
        }
    }
}

impl<K: Ord + Canonical, V: Canonical + Hash, A: Allocator> Canonical for BiMap<K, V, A> {
    ghost canonical = { bimap_canonical K.enc K.writable K.cmp K.prefix_free
        V.enc V.writable V.prefix_free K.eq K.total K.matches_eq K.canonical
        V.eq V.Eq.laws V.canonical };
}

/// The error cases in which an input is no bimap exclude one another: no input has a fault of the
/// map and one of equal values.
pub fn bimap_fault_law<K: Ord + Canonical + Read<A>, V: Canonical + Read<A>, A: Allocator>(
    alloc: A,
    range: RangeCfg<usize>,
    key: &K::Cfg,
    value: &V::Cfg,
)
    ensures { (s : List ℕ) (f g : Fault)
        (v : BiMapFault K.enc K.writable K.cmp (K.allowed key.now) (K.fault key.now)
        V.enc V.writable (V.allowed value.now) (V.fault value.now) V.eq range s f)
        (w : BiMapFault K.enc K.writable K.cmp (K.allowed key.now) (K.fault key.now)
        V.enc V.writable (V.allowed value.now) (V.fault value.now) V.eq range s g)
        → bimap_case v ≡ bimap_case w }
{
    // They are named so that no parameter is unused: only the contract speaks of them.
    let _ = (alloc, range);
}
