//! Module `views`: weights and keys that stay where the bytes of a message have them.
ghost use Rattle.std.specs.Prelude.{◌≡◌, ◌↔◌, ◌∷◌, [], ℕ, IfErr, IfOk, List, Some, bytes_eq, find, option_map, take};
ghost use Rattle.std.specs.List.{slice_get};
ghost use Rattle.std.specs.Option.{option_copied};
ghost use Rattle.commonware_utils.specs.Codec.{Refuses};
ghost use Rattle.commonware_utils.specs.Views.{IsSizedMapOf, sized_map_fault};

use commonware_utils::codec::{Error, RangeCfg, Source};
use commonware_utils::views::{MapView, SetView};

/// Returns the weight of a member, eight bytes, among those that the bytes begin with, of as many
/// members as are allowed, or `None` where it has none. An error is the first fault, and never
/// `Memory`.
pub fn weight_in<'a>(
    bytes: &'a [u8],
    key: &[u8],
    allowed: RangeCfg<usize>,
) -> Result<Option<&'a [u8]>, Error>
    ensures weight { IfOk result (λ weight. (pairs : List (List ℕ × List ℕ)) × (rest : List ℕ)
        × IsSizedMapOf 20 8 allowed bytes.now pairs rest
        × ((value : List ℕ) → (option_copied weight ≡ Some value)
        ↔ ((p : ℕ) × (slice_get pairs p ≡ Some (key.now, value))))) }
    ensures refused { IfErr result (Refuses (sized_map_fault 20 8 allowed bytes.now) (Unit {0})) }
{
    let mut source = Source::new(bytes);
    let weights = MapView::read(&mut source, 20, 8, allowed)?;
    Ok(weights.get_value(key))
}

/// Returns the first key that begins with a byte, or `None` where none does.
pub fn first_in_shard<'a>(keys: &SetView<'a>, shard: u8) -> Option<&'a [u8]>
    ensures { option_copied result ≡ find (λ key. bytes_eq (take 1 key) (shard ∷ [])) keys.now }
{
    for key in keys.iter() {
        if key.starts_with(&[shard]) {
            return Some(key);
        }
    }
    None
}

/// Returns the key of the first member that has a weight, or `None` where none has it.
pub fn first_with_weight<'a>(weights: &MapView<'a>, weight: &[u8]) -> Option<&'a [u8]>
    ensures { option_copied result ≡ option_map (λ pair. pair.0)
        (find (λ pair. bytes_eq pair.1 weight.now) weights.now) }
{
    for (key, value) in weights.keys().iter().zip(weights.values().iter()) {
        if value == weight {
            return Some(key);
        }
    }
    None
}
