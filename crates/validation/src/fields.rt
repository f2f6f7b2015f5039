// The fields of a body: the one reader and judge of counts, items, pairs and fixed words.
#![tactic(auto, using(crate::proofs::FieldSteps::field_laws), unfolding(descriptor::specs::Tree::count_of, descriptor::specs::Tree::child_count))]

ghost use Rattle.std.specs.Prelude.{◌≡◌, Bool, ℕ, ◌+◌, ◌*◌, ◌≤◌, ◌<◌, length};
ghost use Rattle.descriptor.specs.Limits.{count_limit};
ghost use Rattle.descriptor.specs.Codes.{kind_of, enumeration, string, array, cluster, stamp};
ghost use Rattle.descriptor.specs.Check.{count_at, run_at, items_at, judged, base_fits, word_fits, fields_at};
ghost use Rattle.descriptor.specs.inner.Steps.{counted, fields_step};
ghost use Rattle.descriptor.specs.inner.Promises.{Within, Run, addressable};
ghost use Rattle.validation.specs.inner.Judging.{Tells, words_at};

use descriptor::codes::{FIXED_WORD, Kind, STAMP_PARTS, STAMP_SUBTYPE, kind_of};
use descriptor::limits::{BASE_LIMIT, COUNT_LIMIT, DIMENSION_LIMIT, PAIR_LIMIT};
use descriptor::refusal::Refusal;
use descriptor::step::{Step, bad_contents, bad_count, not_carried, overrun, past};
use number::endian::{be16, be32, wide};

// The count at the body's first word: 8 where it is missing, 9 where it is not from 1 to `most`.
#[tactic(auto, unfolding(descriptor::specs::Check::count_at))]
fn count_word(d: &[u8], at: usize, stop: usize, most: usize) -> Result<Step, Refusal>
    requires { Within d.now at stop }
    ensures { result ≡ counted (λ k. k) (count_at d.now at stop most) }
{
    if stop < at + 2 {
        return Err(overrun(stop));
    }
    let k = be16(d, at);
    if k < 1 || most < k {
        return Err(bad_count(at));
    }
    Ok(past(at + 2, k))
}

// k Pascal strings packed from `start` on; the value is k.
pub fn packed_strings(d: &[u8], stop: usize, k: usize, start: usize) -> Result<Step, Refusal>
    requires { Within d.now start stop }
    ensures { result ≡ counted length (items_at d.now stop k start) }
{
    let mut at = start;
    for _ in 0..k {
        if stop <= at {
            return Err(overrun(stop));
        }
        let next = at + 1 + wide(d[at]);
        if stop < next {
            return Err(overrun(stop));
        }
        at = next;
    }
    Ok(past(at, k))
}

// An enumeration's items, and the zero byte after them where their length is odd.
#[tactic(auto, using(crate::proofs::FieldSteps::enumeration_laws), unfolding(descriptor::specs::Check::fill_at))]
fn enumeration_fields(d: &[u8], p: usize, body: usize, stop: usize) -> Result<Step, Refusal>
    requires within { Within d.now body stop }
    requires p_le_body { p ≤ body }
    ensures { result ≡ fields_step (fields_at enumeration d.now p body stop) }
{
    let c = count_word(d, body, stop, COUNT_LIMIT)?;
    let w = packed_strings(d, stop, c.value, c.next)?;
    let fill = w.next;
    if (fill - p) % 2 == 0 {
        return Ok(w);
    }
    if stop <= fill {
        return Err(overrun(stop));
    }
    if d[fill] != 0 {
        return Err(bad_contents(fill));
    }
    Ok(past(fill + 1, w.value))
}

// Whether the base index of the unit pair at `at` is right.
fn base_fits(d: &[u8], at: usize) -> bool
    requires { Run d.now at 4 }
    ensures { result ≡ base_fits d.now at }
{
    be16(d, at) <= BASE_LIMIT
}

// Whether the word at `at` is the fixed one.
fn word_fits(d: &[u8], at: usize) -> bool
    requires { Run d.now at 4 }
    ensures { result ≡ word_fits d.now at }
{
    be32(d, at) == FIXED_WORD
}

// The k entries of four bytes from `start` on, each judged: 10 at the first that does not fit.
fn judge_entries<F: Fn(usize) -> bool>(fits: F, k: usize, start: usize) -> Result<Step, Refusal>
    requires small { start + 4 * k < addressable }
    requires callable { (i : ℕ) → i < k → F.pre fits (start + 4 * i) }
    ensures { (test : ℕ → Bool) → Tells test (F.post fits) → result ≡ counted (λ _. 0) (judged test k start) }
{
    for i in 0..k {
        let at = start + 4 * i;
        if !fits(at) {
            return Err(bad_contents(at));
        }
    }
    Ok(past(start + 4 * k, 0))
}

// A count and that many words of four bytes after it: 8 where one is missing.
#[tactic(auto, using(crate::proofs::FieldSteps::count_range), unfolding(descriptor::specs::Check::run_at))]
fn counted_words(d: &[u8], at: usize, stop: usize, most: usize) -> Result<Step, Refusal>
    requires within { Within d.now at stop }
    requires most_le_count_limit { most ≤ count_limit }
    ensures { result ≡ counted (λ k. k) (run_at d.now at stop most) }
{
    let c = count_word(d, at, stop, most)?;
    let next = c.next + 4 * c.value;
    if stop < next {
        return Err(overrun(stop));
    }
    Ok(past(next, c.value))
}

// The same, each word judged: unit pairs and dimension words alike.
#[tactic(auto, using(crate::proofs::FieldSteps::run_range), unfolding(crate::specs::inner::Judging::words_at))]
fn judged_words<F: Fn(usize) -> bool>(
    d: &[u8],
    fits: F,
    at: usize,
    stop: usize,
    most: usize,
) -> Result<Step, Refusal>
    requires within { Within d.now at stop }
    requires most_le_count_limit { most ≤ count_limit }
    requires callable { (at : ℕ) → Run d.now at 4 → F.pre fits at }
    ensures { (test : ℕ → Bool) → Tells test (F.post fits) → result ≡ counted (λ k. k) (words_at d.now test at stop most) }
{
    let c = counted_words(d, at, stop, most)?;
    judge_entries(fits, c.value, at + 2)?;
    Ok(c)
}

// A string's length word.
fn text_fields(d: &[u8], p: usize, at: usize, stop: usize) -> Result<Step, Refusal>
    requires { Within d.now at stop }
    ensures { result ≡ fields_step (fields_at string d.now p at stop) }
{
    if stop < at + 4 {
        return Err(overrun(stop));
    }
    judge_entries(|at| word_fits(d, at), 1, at)?;
    Ok(past(at + 4, 0))
}

// An array's dimension words; its element follows.
fn array_fields(d: &[u8], p: usize, at: usize, stop: usize) -> Result<Step, Refusal>
    requires { Within d.now at stop }
    ensures { result ≡ fields_step (fields_at array d.now p at stop) }
{
    let c = judged_words(d, |at| word_fits(d, at), at, stop, DIMENSION_LIMIT)?;
    Ok(Step { children: 1, ..c })
}

// A cluster's member count; its members follow.
fn cluster_fields(d: &[u8], p: usize, at: usize, stop: usize) -> Result<Step, Refusal>
    requires { Within d.now at stop }
    ensures { result ≡ fields_step (fields_at cluster d.now p at stop) }
{
    let c = count_word(d, at, stop, COUNT_LIMIT)?;
    Ok(Step {
        children: c.value,
        ..c
    })
}

// A time stamp's subtype word; its part follows.
fn stamp_fields(d: &[u8], p: usize, at: usize, stop: usize) -> Result<Step, Refusal>
    requires within { Within d.now at stop }
    requires p_le_at { p ≤ at }
    ensures { result ≡ fields_step (fields_at stamp d.now p at stop) }
{
    if stop < at + 2 {
        return Err(overrun(stop));
    }
    if be16(d, at) != STAMP_SUBTYPE {
        return Err(not_carried(p));
    }
    Ok(Step {
        next: at + 2,
        value: 0,
        children: STAMP_PARTS,
    })
}

// The fields of the descriptor at p, whose body starts at `body` and which ends at `stop`, by its code; the value is their count.
pub fn fields(d: &[u8], code: u8, p: usize, body: usize, stop: usize) -> Result<Step, Refusal>
    requires within { Within d.now body stop }
    requires p_le_body { p ≤ body }
    ensures { result ≡ fields_step (fields_at (kind_of code) d.now p body stop) }
{
    match kind_of(code) {
        Kind::Plain => Ok(past(body, 0)),
        Kind::Enumeration => enumeration_fields(d, p, body, stop),
        Kind::Quantity => judged_words(d, |at| base_fits(d, at), body, stop, PAIR_LIMIT),
        Kind::Text => text_fields(d, p, body, stop),
        Kind::Array => array_fields(d, p, body, stop),
        Kind::Cluster => cluster_fields(d, p, body, stop),
        Kind::Stamp => stamp_fields(d, p, body, stop),
        // A code that is not carried is refused by its header.
        Kind::Unknown => Err(not_carried(p)),
    }
}
