//! The order of lists of bytes, found by words of eight bytes.
ghost use Rattle.std.specs.Prelude.{◌≡◌, ◌+◌, ◌<◌, ◌≤◌, ◌⊎◌, IfNone, IfSome, length};
ghost use Rattle.commonware_sequence.specs.BigEndian.{HaveSamePrefix, number_at};
ghost use Rattle.commonware_sequence.specs.FixedBytes.{bytes_cmp};

use std::cmp::Ordering;
use std::marker::Model;

/// Returns the eight bytes from a place on as one number, in big-endian order.
#[inline(always)]
fn word(bytes: &[u8], at: usize) -> u64
    requires { at + 8 ≤ length bytes.now }
    ensures { result ≡ number_at 8 at bytes.now }
{
    u64::from_be_bytes([
        bytes[at],
        bytes[at + 1],
        bytes[at + 2],
        bytes[at + 3],
        bytes[at + 4],
        bytes[at + 5],
        bytes[at + 6],
        bytes[at + 7],
    ])
}

/// Returns the order of two lists of bytes that don't differ up to a place, where the next eight
/// bytes, known as numbers, tell it.
#[inline(always)]
fn order_by_numbers(a: u64, b: u64, mine: &[u8], others: &[u8], at: usize) -> Option<Ordering>
    requires mine { at + 8 ≤ length mine.now }
    requires others { at + 8 ≤ length others.now }
    requires number { a ≡ number_at 8 at mine.now }
    requires other_number { b ≡ number_at 8 at others.now }
    requires same { HaveSamePrefix at mine.now others.now }
    ensures some { IfSome result (λ order. order ≡ bytes_cmp mine.now others.now) }
    ensures apart { IfSome result (λ _. ¬ HaveSamePrefix (at + 8) mine.now others.now) }
    ensures none { IfNone result (HaveSamePrefix (at + 8) mine.now others.now) }
{
    if a == b {
        return None;
    }
    Some(a.cmp(&b))
}

/// The same, with these bytes read.
#[inline(always)]
fn order_by_word(mine: &[u8], others: &[u8], at: usize) -> Option<Ordering>
    requires mine { at + 8 ≤ length mine.now }
    requires others { at + 8 ≤ length others.now }
    requires same { HaveSamePrefix at mine.now others.now }
    ensures some { IfSome result (λ order. order ≡ bytes_cmp mine.now others.now) }
    ensures none { IfNone result (HaveSamePrefix (at + 8) mine.now others.now) }
{
    order_by_numbers(word(mine, at), word(others, at), mine, others, at)
}

/// Returns the order of two lists of eight bytes or more that don't differ up to a place. The last
/// word overlaps the one before it, so that no byte is compared by itself.
#[inline(never)]
fn order_past(mine: &[u8], others: &[u8], from: usize) -> Ordering
    requires mine { 8 ≤ length mine.now }
    requires others { 8 ≤ length others.now }
    requires inside { from ≤ length mine.now }
    requires inside_others { from ≤ length others.now }
    requires same { HaveSamePrefix from mine.now others.now }
    ensures { result ≡ bytes_cmp mine.now others.now }
{
    let shorter = mine.len().min(others.len());
    let mut at = from;
    while at + 8 <= shorter {
        if let Some(order) = order_by_word(mine, others, at) {
            return order;
        }
        at += 8;
    }
    if let Some(order) = order_by_word(mine, others, shorter - 8) {
        return order;
    }
    mine.len().cmp(&others.len())
}

/// Returns the order of two lists of bytes that don't differ in the first eight. The second word
/// and the third, or the last where that is before the third, are compared inline, and what follows
/// by a call, since most lists differ before.
#[inline(always)]
fn order_past_a_word(mine: &[u8], others: &[u8]) -> Ordering
    requires mine { 8 ≤ length mine.now }
    requires others { 8 ≤ length others.now }
    requires same { HaveSamePrefix 8 mine.now others.now }
    ensures { result ≡ bytes_cmp mine.now others.now }
{
    let shorter = mine.len().min(others.len());
    if shorter < 16 {
        return order_past(mine, others, 8);
    }
    if let Some(order) = order_by_word(mine, others, 8) {
        return order;
    }
    let third = (shorter - 8).min(16);
    if let Some(order) = order_by_word(mine, others, third) {
        return order;
    }
    order_past(mine, others, third + 8)
}

/// Returns the order of two lists of bytes, of which one has no whole word.
#[inline(always)]
fn order_of_short(mine: &[u8], others: &[u8]) -> Ordering
    ensures { result ≡ bytes_cmp mine.now others.now }
{
    mine.cmp(others)
}

/// Returns the order of two lists of bytes, whose first eight are known as numbers where there are
/// so many.
#[inline(always)]
fn order_from(a: u64, b: u64, mine: &[u8], others: &[u8]) -> Ordering
    requires mine { 8 ≤ length mine.now → a ≡ number_at 8 0 mine.now }
    requires others { 8 ≤ length others.now → b ≡ number_at 8 0 others.now }
    ensures { result ≡ bytes_cmp mine.now others.now }
{
    if mine.len() < 8 || others.len() < 8 {
        return order_of_short(mine, others);
    }
    if let Some(order) = order_by_numbers(a, b, mine, others, 0) {
        return order;
    }
    order_past_a_word(mine, others)
}

/// Bytes to compare with others, of which the first eight are read once, as one number: a search
/// and a check of an order compare each list of bytes with several. They are seen as the list of
/// their bytes.
#[derive(Drop)]
pub struct Prefixed<'a> {
    bytes: &'a [u8],
    first: u64,
}

impl<'a> Model for Prefixed<'a> {
    ghost use Rattle.std.specs.Prelude.{◌≡◌, ◌≤◌, ℕ, List, length};
    ghost use Rattle.commonware_sequence.specs.BigEndian.{number_at};

    ghost Value = { List ℕ };

    ghost view = { λ p. p.bytes.now };

    ghost invariant = { λ p. 8 ≤ length p.bytes.now → p.first ≡ number_at 8 0 p.bytes.now };
}

impl<'a> Prefixed<'a> {
    /// Returns these bytes, with their first eight read.
    #[inline(always)]
    pub fn new(bytes: &'a [u8]) -> Self
        ensures { result ≡ bytes.now }
    {
        let first = if bytes.len() < 8 { 0 } else { word(bytes, 0) };
        Prefixed { bytes, first }
    }

    /// Returns the order of the two lists of bytes where their first eight bytes tell it, and
    /// `None` where these are the same, or where a list has fewer.
    #[inline(always)]
    pub fn order_by_prefix(&self, other: &Prefixed<'_>) -> Option<Ordering>
        ensures some { IfSome result (λ order. order ≡ bytes_cmp self.now other.now) }
        ensures told { IfSome result (λ _. (8 ≤ length self.now) × (8 ≤ length other.now)
            × ¬ HaveSamePrefix 8 self.now other.now) }
        ensures none { IfNone result ((length self.now < 8) ⊎ ((length other.now < 8)
            ⊎ HaveSamePrefix 8 self.now other.now)) }
    {
        if self.bytes.len() < 8 || other.bytes.len() < 8 {
            return None;
        }
        order_by_numbers(self.first, other.first, self.bytes, other.bytes, 0)
    }

    /// Returns the order of the two lists of bytes, as `bytes_order` does. It allocates nothing.
    #[inline(always)]
    pub fn order(&self, other: &Prefixed<'_>) -> Ordering
        ensures { result ≡ bytes_cmp self.now other.now }
    {
        order_from(self.first, other.first, self.bytes, other.bytes)
    }
}

/// Returns the order of two lists of bytes, which is that of the first bytes in which they differ;
/// where there are none, the shorter list is less: `[1, 2]` is less than `[1, 2, 0]`, and both are
/// less than `[1, 3]`. It allocates nothing.
///
/// Eight bytes are compared as one number. Only the first eight, in which most lists differ, are
/// compared inline.
#[inline(always)]
pub fn bytes_order(mine: &[u8], others: &[u8]) -> Ordering
    ensures { result ≡ bytes_cmp mine.now others.now }
{
    Prefixed::new(mine).order(&Prefixed::new(others))
}
