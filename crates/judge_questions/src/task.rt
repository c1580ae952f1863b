//! A line that asks by a verb.
ghost use Rattle.std.specs.Prelude.{◌≡◌, ◌≢◌, ◌≤◌, ◌∷◌, [], ℕ, List, Some, IfErr, IfOk, MatchOption, MatchResult};
ghost use Rattle.judge_questions.specs.Collections.{collection_of, set_form_of};
ghost use Rattle.judge_questions.specs.Forms.{name_of};
ghost use Rattle.judge_questions.specs.Tasks.{AsksFor, HasNoVerb, IsTask, IsUnreadableTask, Lack};
ghost use Rattle.judge_questions.specs.Tasks.{IsSize, LackTwoNumbers, both_verb, build_verb};
ghost use Rattle.judge_questions.specs.Tasks.{LackBuild, LackConflict, LackFaults, LackPosition};
ghost use Rattle.judge_questions.specs.Tasks.{LackQuorum, LackRefute, verb_name};
ghost use Rattle.judge_questions.specs.Ranges.{IsNumber};
ghost use Rattle.judge_questions.specs.Words.{AreShort, words_of};
ghost use Rattle.judge_questions.specs.declared.form.Form.{Form};
ghost use Rattle.judge_questions.specs.declared.verb.Verb.{Verb};

use crate::bytes::Bytes;
use crate::collection::{Collection, SetForm};
use crate::model::{next_model, next_size, read_u32};
use crate::question::{Unreadable, last_text, next_form};
use crate::texts::two_texts;
use crate::verb::{Verb, read_verb};
use crate::weighted::{WeightedTask, read_weighted_both, read_weighted_quorum, read_weights};
use crate::words::Words;
use std::alloc::{AllocError, Allocator};

/// What a line asks for by a verb.
///
/// `refute k=7 20 3` is `Refute`, where `k` is 7, `n` is 20 and `f` is 3.
#[derive(Drop)]
pub enum Task<A: Allocator> {
    /// What a builder makes of the items that the input lists. `unique`: no two may be equal.
    Build {
        collection: Collection,
        unique: bool,
        text: Bytes<A>,
    },
    /// The position of the item in the set, both of which are encodings.
    Position {
        set: SetForm,
        text: Bytes<A>,
        item: Bytes<A>,
    },
    /// The numbers of `n` members at a resilience `k`.
    Faults {
        k: u32,
        n: u32,
    },
    /// Why `f` of `n` members can't be faulty at a resilience `k`.
    Refute {
        k: u32,
        n: u32,
        f: u32,
    },
    /// Whether a quorum of `n` members, at a resilience `k`, signed the certificate, which is an
    /// encoding.
    Quorum {
        k: u32,
        n: u32,
        text: Bytes<A>,
    },
    /// Which of `n` members, at a resilience `k`, signed both certificates, which are encodings.
    Conflict {
        k: u32,
        n: u32,
        first: Bytes<A>,
        second: Bytes<A>,
    },
    /// Accountability: the same, where the certificates are for different decisions for one slot.
    Equivocation {
        k: u32,
        n: u32,
        first: Bytes<A>,
        second: Bytes<A>,
    },
    /// What it asks of participants with weights.
    Weighted(WeightedTask<A>),
}

/// What a line asks for by a verb, or what of it can't be read; and `None` where it begins with no
/// verb. The error is an allocation failure, and comes only where a word has more than 128 bytes.
pub fn read_task<A: Allocator + Copy>(
    alloc: A,
    line: &[u8],
) -> Result<Option<Result<Task<A>, Unreadable>>, AllocError>
    ensures read { IfOk result (λ read. MatchOption read (HasNoVerb line.now)
        (λ task. MatchResult task (IsTask line.now) (IsUnreadableTask line.now))) }
    ensures memory { IfErr result (λ _. ¬ AreShort (words_of line.now)) }
{
    let mut words = Words::new(line);
    let Some(verb) = next_verb(&mut words) else {
        return Ok(None);
    };
    Ok(Some(read_words(alloc, &mut words, verb)?))
}

/// What the next word asks for.
fn next_verb(words: &mut Words<'_>) -> Option<Verb>
    ensures { MatchOption result
        ((verb : Verb) (rest : List (List ℕ)) → words.old ≢ verb_name verb ∷ rest)
        (λ verb. words.old ≡ verb_name verb ∷ words.new) }
{
    read_verb(words.next()?)
}

/// What the words after a verb ask for, or what of them can't be read.
fn read_words<A: Allocator + Copy>(
    alloc: A,
    words: &mut Words<'_>,
    verb: Verb,
) -> Result<Result<Task<A>, Unreadable>, AllocError>
    ensures read { IfOk result (λ read. MatchResult read (AsksFor verb words.old)
        (Lack verb words.old)) }
    ensures memory { IfErr result (λ _. ¬ AreShort words.old) }
{
    match verb {
        Verb::Build => read_build(alloc, words, false),
        Verb::BuildUnique => read_build(alloc, words, true),
        Verb::Position => read_position(alloc, words),
        Verb::Faults => Ok(read_faults(words)),
        Verb::Refute => Ok(read_refute(words)),
        Verb::Quorum => read_quorum(alloc, words),
        Verb::Conflict => read_both(alloc, words, false),
        Verb::Equivocation => read_both(alloc, words, true),
        Verb::Weights => read_weights(alloc, words),
        Verb::WeightedQuorum => read_weighted_quorum(alloc, words),
        Verb::WeightedConflict => read_weighted_both(alloc, words, false),
        Verb::WeightedEquivocation => read_weighted_both(alloc, words, true),
    }
}

/// A type that a builder makes, and bytes.
fn read_build<A: Allocator>(
    alloc: A,
    words: &mut Words<'_>,
    unique: bool,
) -> Result<Result<Task<A>, Unreadable>, AllocError>
    ensures read { IfOk result (λ read. MatchResult read (AsksFor (build_verb unique) words.old)
        (LackBuild words.old)) }
    ensures memory { IfErr result (λ _. ¬ AreShort words.old) }
{
    let Some(collection) = next_collection(words) else {
        return Ok(Err(Unreadable::Name));
    };
    match last_text(alloc, words)? {
        Some(text) => Ok(Ok(Task::Build {
            collection,
            unique,
            text,
        })),
        None => Ok(Err(Unreadable::Bytes)),
    }
}

/// The type that the next word names, if a builder makes it.
fn next_collection(words: &mut Words<'_>) -> Option<Collection>
    ensures { MatchOption result (LackBuild words.old Unreadable.Name)
        (λ collection. (form : Form) × (words.old ≡ name_of form ∷ words.new)
        × (collection_of form ≡ Some collection)) }
{
    next_form(words)?.collection()
}

/// A set's type, and the bytes of a set and of an item.
fn read_position<A: Allocator + Copy>(
    alloc: A,
    words: &mut Words<'_>,
) -> Result<Result<Task<A>, Unreadable>, AllocError>
    ensures read { IfOk result (λ read. MatchResult read (AsksFor Verb.Position words.old)
        (LackPosition words.old)) }
    ensures memory { IfErr result (λ _. ¬ AreShort words.old) }
{
    let Some(set) = next_set(words) else {
        return Ok(Err(Unreadable::Name));
    };
    match two_texts(alloc, words)? {
        Some((text, item)) => Ok(Ok(Task::Position { set, text, item })),
        None => Ok(Err(Unreadable::Bytes)),
    }
}

/// The set's type that the next word names.
fn next_set(words: &mut Words<'_>) -> Option<SetForm>
    ensures { MatchOption result (LackPosition words.old Unreadable.Name)
        (λ set. (form : Form) × (words.old ≡ name_of form ∷ words.new)
        × (set_form_of form ≡ Some set)) }
{
    next_form(words)?.set_form()
}

/// A model and a number of members.
fn read_faults<A: Allocator>(words: &mut Words<'_>) -> Result<Task<A>, Unreadable>
    ensures { MatchResult result (AsksFor Verb.Faults words.old) (LackFaults words.old) }
{
    let Some(k) = next_model(words) else {
        return Err(Unreadable::Model);
    };
    let Some(n) = next_size(words) else {
        return Err(Unreadable::Number);
    };
    if words.next().is_some() {
        return Err(Unreadable::Number);
    }
    Ok(Task::Faults { k, n })
}

/// A model, a number of members and one of faults, which is no greater.
fn read_refute<A: Allocator>(words: &mut Words<'_>) -> Result<Task<A>, Unreadable>
    ensures { MatchResult result (AsksFor Verb.Refute words.old) (LackRefute words.old) }
{
    let Some(k) = next_model(words) else {
        return Err(Unreadable::Model);
    };
    match two_numbers(words) {
        Some((n, f)) => Ok(Task::Refute { k, n, f }),
        None => Err(Unreadable::Number),
    }
}

/// A number of members and one that is no greater, which the last two words write.
fn two_numbers(words: &mut Words<'_>) -> Option<(u32, u32)>
    ensures { MatchOption result (LackTwoNumbers words.old)
        (λ p. (size : List ℕ) × (number : List ℕ) × (words.old ≡ size ∷ number ∷ [])
        × IsSize size p.0 × IsNumber number p.1 × (p.1 ≤ p.0)) }
{
    let n = next_size(words)?;
    let f = read_u32(words.next()?)?;
    if f > n || words.next().is_some() {
        return None;
    }
    Some((n, f))
}

/// A model, a number of members, and the bytes of a certificate.
fn read_quorum<A: Allocator>(
    alloc: A,
    words: &mut Words<'_>,
) -> Result<Result<Task<A>, Unreadable>, AllocError>
    ensures read { IfOk result (λ read. MatchResult read (AsksFor Verb.Quorum words.old)
        (LackQuorum words.old)) }
    ensures memory { IfErr result (λ _. ¬ AreShort words.old) }
{
    let Some(k) = next_model(words) else {
        return Ok(Err(Unreadable::Model));
    };
    let Some(n) = next_size(words) else {
        return Ok(Err(Unreadable::Number));
    };
    match last_text(alloc, words)? {
        Some(text) => Ok(Ok(Task::Quorum { k, n, text })),
        None => Ok(Err(Unreadable::Bytes)),
    }
}

/// A model, a number of members, and the bytes of two certificates. `by_slot`: these have to be for
/// one slot.
fn read_both<A: Allocator + Copy>(
    alloc: A,
    words: &mut Words<'_>,
    by_slot: bool,
) -> Result<Result<Task<A>, Unreadable>, AllocError>
    ensures read { IfOk result (λ read. MatchResult read (AsksFor (both_verb by_slot) words.old)
        (LackConflict words.old)) }
    ensures memory { IfErr result (λ _. ¬ AreShort words.old) }
{
    let Some(k) = next_model(words) else {
        return Ok(Err(Unreadable::Model));
    };
    let Some(n) = next_size(words) else {
        return Ok(Err(Unreadable::Number));
    };
    let Some((first, second)) = two_texts(alloc, words)? else {
        return Ok(Err(Unreadable::Bytes));
    };
    Ok(Ok(if by_slot {
        Task::Equivocation {
            k,
            n,
            first,
            second,
        }
    } else {
        Task::Conflict {
            k,
            n,
            first,
            second,
        }
    }))
}
