//! A vote, which is a slot and a decision, has one encoding.
ghost use Rattle.std.specs.Prelude.{◌≡◌, ◌<◌, ◌^◌, ℕ, List, length};
ghost use Rattle.commonware_base.specs.Unions.{union_text};
ghost use Rattle.committee_certificates.specs.Slots.{IsFor};

/// A vote has one encoding. `one_vote`: two votes with slots of fewer than 2^32 bytes that have the
/// same bytes are the same slot and the same decision. `one_text`: values for the same slot and
/// decision are the same bytes. `is_for`: what `union_unique` writes of a slot and a decision is a
/// value for them, so `slot_of` returns them.
///
/// The slot `07 01` and the decision `aa` are the bytes `02 07 01 aa`. The slot `07` and the
/// decision `01 aa` are others, `01 07 01 aa`.
pub fn vote_law()
    ensures one_vote { (slot decision other_slot other : List ℕ)
        → length slot < 2 ^ 32 → length other_slot < 2 ^ 32
        → union_text slot decision ≡ union_text other_slot other
        → (slot ≡ other_slot) × (decision ≡ other) }
    ensures one_text { (value other slot decision : List ℕ)
        → IsFor value slot decision → IsFor other slot decision → value ≡ other }
    ensures is_for { (slot decision : List ℕ) → length slot < 2 ^ 32
        → IsFor (union_text slot decision) slot decision }
{}
