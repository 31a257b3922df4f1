//! Phrases in one list of bytes, found by halving.

ghost use Rattle.std.specs.Prelude.{◌≡◌, ℕ, ◌<◌, ◌≤◌, ◌+◌, ◌↔◌, ◌&&◌, ◌||◌, cond, IsTrue, List, [], length, map, get_or, slice_get, slice_range, Some, IfOk, IfSome, IfNone, Contains, All};
ghost use Rattle.std.specs.List.Sorted.{IsNonDecreasing};
ghost use Rattle.std.specs.Str.{IsUtf8};
ghost use Rattle.geo_text.specs.Bytes.{begins_with};
ghost use Rattle.phrase_index.specs.Phrases.{Rise, is_below, number_of, exact_range, prefix_range, IsRange, IsRangeOfFront};
ghost use Rattle.phrase_index.specs.Heads.{head_of, end_of};
ghost use Rattle.phrase_index.specs.Kept.{parts, begin_of, Reach, IsKept};

use crate::has_text::HasText;
use crate::heads::{border, front, past, up_to};
use geo_base::refusal::Memory;
use geo_text::text::Text;
use std::alloc::Global;
use std::cmp::Ordering;
use std::marker::Model;
use std::ops::Range;

/// Phrases, seen as a list of texts that rises byte by byte. They lie one behind another in one list of bytes; beside it
/// stand the end of each and its head, which is its first eight bytes as a number.
#[derive(Drop)]
pub struct PhraseIndex {
    bytes: Vec<u8>,
    ends: Vec<usize>,
    heads: Vec<u64>,
}

impl Model for PhraseIndex {
    ghost use Rattle.std.specs.Prelude.{List, ℕ};
    ghost use Rattle.phrase_index.specs.Kept.{parts, IsKept};

    ghost Value = { List (List ℕ) };

    ghost view = { λ s. parts s.bytes.items 0 s.ends.items };

    ghost invariant = { λ s. IsKept s.bytes.items s.ends.items s.heads.items };
}

impl PhraseIndex {
    /// The index of these phrases, which rise byte by byte and are fewer than 2^32; the number of each is its place in the
    /// list, counted from 0. After want of memory the phrases are gone.
    pub fn build(list: Vec<Text>) -> Result<PhraseIndex, Memory>
        requires rise { Rise list.items }
        requires few { length list.items < 4294967296 }
        ensures { IfOk result (λ index. index ≡ list.items) }
    {
        PhraseIndex::of_texts(*list.allocator(), &list)
    }

    /// The index of phrases that lie elsewhere, as `build` makes it.
    pub fn of(alloc: Global, list: &[&str]) -> Result<PhraseIndex, Memory>
        requires rise { Rise (map (λ text. text.now) list.now) }
        requires few { length list.now < 4294967296 }
        ensures { IfOk result (λ index. index ≡ map (λ text. text.now) list.now) }
    {
        PhraseIndex::of_texts(alloc, list)
    }

    /// The index of the texts of a list.
    fn of_texts<T: HasText>(alloc: Global, list: &[T]) -> Result<PhraseIndex, Memory>
        requires rise { Rise (map T.text list.now) }
        requires few { length list.now < 4294967296 }
        ensures { IfOk result (λ index. index ≡ map T.text list.now) }
    {
        let mut bytes = Vec::with_capacity(alloc, total_len(list))?;
        let mut ends = Vec::with_capacity(alloc, list.len())?;
        let mut heads = Vec::with_capacity(alloc, list.len())?;
        for item in list {
            let text = item.text().as_bytes();
            bytes.extend_from_slice(text)?;
            ends.push(bytes.len())?;
            heads.push(front(text, 0))?;
        }
        Ok(PhraseIndex { bytes, ends, heads })
    }

    /// The number of phrases, which rise byte by byte.
    pub fn len(&self) -> u32
        ensures value { result ≡ length self.now }
        ensures rise { Rise self.now }
    {
        self.ends.len() as u32
    }

    /// The number of the phrase that is the run; None exactly where there is none. Takes no memory.
    pub fn exact(&self, run: &str) -> Option<u32>
        ensures found { IfSome result (λ n. slice_get self.now n ≡ Some run.now) }
        ensures number { IfSome result (λ n. n ≡ number_of self.now run.now) }
        ensures missing { IfNone result (¬ (Contains self.now run.now)) }
        ensures range { IfSome result (λ n. exact_range self.now run.now ≡ (n, n + 1)) }
        ensures no_range { IfNone result (exact_range self.now run.now ≡ (number_of self.now run.now, number_of self.now run.now)) }
    {
        let run = run.as_bytes();
        let (low, high) = self.near(run, 0, self.len() as usize);
        self.find(run, low, high)
    }

    /// The numbers of the phrases that begin with the run; where there are none, an empty range at the number of those
    /// that come before the run. Takes no memory.
    pub fn prefix(&self, run: &str) -> Range<u32>
        ensures range { (result.start, result.end) ≡ prefix_range self.now run.now }
        ensures numbers { IsRange (λ text. begins_with text run.now) self.now (result.start, result.end) }
    {
        self.prefix_within(run.as_bytes(), self.whole())
    }

    /// The numbers of all phrases, which all begin with the empty run.
    pub fn whole(&self) -> Range<u32>
        ensures start { result.start ≡ 0 }
        ensures end { result.end ≡ length self.now }
        ensures range { (result.start, result.end) ≡ prefix_range self.now [] }
    {
        0..self.len()
    }

    /// The numbers of the phrases that begin with the run, as `prefix` gives them, looked for among those alone that begin
    /// with a front of the run: the range of a shorter run, or the whole. Takes no memory.
    pub fn prefix_within(&self, run: &[u8], range: Range<u32>) -> Range<u32>
        requires { IsRangeOfFront self.now run.now (range.start, range.end) }
        ensures range { (result.start, result.end) ≡ prefix_range self.now run.now }
        ensures numbers { IsRange (λ text. begins_with text run.now) self.now (result.start, result.end) }
        ensures low { range.start ≤ result.start }
        ensures high { result.end ≤ range.end }
    {
        let _count = self.len();
        let (from, to) = (range.start as usize, range.end as usize);
        let start = self.start(run, from, to);
        let end = self.end(run, start, to);
        start as u32..end as u32
    }

    /// Whether a phrase is the run, given the range of those that begin with it; the first of these is the one. Takes no
    /// memory.
    pub fn is_exact(&self, run: &[u8], range: &Range<u32>) -> bool
        requires { (range.now.start, range.now.end) ≡ prefix_range self.now run.now }
        ensures range { exact_range self.now run.now ≡ (range.now.start, range.now.start + cond result 1 0) }
        ensures there { IsTrue result ↔ Contains self.now run.now }
    {
        let _count = self.len();
        range.start < range.end && self.text(range.start as usize).len() == run.len()
    }

    /// A copy of the phrase with this number, counted from 0.
    pub fn phrase(&self, n: u32) -> Result<Text, Memory>
        requires { n < length self.now }
        ensures { IfOk result (λ text. text ≡ get_or self.now n []) }
    {
        match str::from_utf8(self.text(n as usize)) {
            Ok(text) => Ok(Text::of(*self.bytes.allocator(), text)?),
            Err(_) => unreachable!(),
        }
    }

    /// The bytes of a phrase.
    fn text(&self, n: usize) -> &[u8]
        requires { n < length self.now }
        ensures value { result.now ≡ get_or self.now n [] }
        ensures utf8 { IsUtf8 result.now }
        ensures rise { Rise self.now }
        ensures few { length self.now < 4294967296 }
    {
        part(self.bytes.as_slice(), self.ends.as_slice(), n)
    }

    /// The heads of the phrases.
    fn heads(&self) -> &[u64]
        ensures value { result.now ≡ map head_of self.now }
        ensures up { IsNonDecreasing result.now }
        ensures texts { All IsUtf8 self.now }
        ensures rise { Rise self.now }
        ensures few { length self.now < 4294967296 }
    {
        self.heads.as_slice()
    }

    /// Two places between which the run's number is, as the heads tell, where it is known to be between two others; below
    /// the second where a phrase is the run.
    fn near(&self, run: &[u8], from: usize, to: usize) -> (usize, usize)
        requires low { from ≤ number_of self.now run.now }
        requires high { number_of self.now run.now ≤ to }
        requires within { to ≤ length self.now }
        ensures low { result.0 ≤ number_of self.now run.now }
        ensures high { number_of self.now run.now ≤ result.1 }
        ensures there { Contains self.now run.now → number_of self.now run.now < to → number_of self.now run.now < result.1 }
        ensures within { result.1 ≤ to }
        ensures rise { Rise self.now }
        ensures few { length self.now < 4294967296 }
    {
        let heads = self.heads();
        let head = front(run, 0);
        let low = border(heads, from, to, head);
        (low, past(heads, low, to, head))
    }

    /// The number of the phrase that is the run, from `low` on and below `high`, if there is one.
    fn find(&self, run: &[u8], low: usize, high: usize) -> Option<u32>
        requires low { low ≤ number_of self.now run.now }
        requires high { Contains self.now run.now → number_of self.now run.now < high }
        requires within { high ≤ length self.now }
        ensures found { IfSome result (λ n. slice_get self.now n ≡ Some run.now) }
        ensures number { IfSome result (λ n. n ≡ number_of self.now run.now) }
        ensures missing { IfNone result (¬ (Contains self.now run.now)) }
    {
        let (mut low, mut high) = (low, high);
        'halve: while low < high {
            let middle = low + (high - low) / 2;
            match self.text(middle).cmp(run) {
                Ordering::Less => low = middle + 1,
                Ordering::Equal => return Some(middle as u32),
                Ordering::Greater => high = middle,
            }
        }
        None
    }

    /// How many phrases come before the run: a number from `from` to `to`.
    fn start(&self, run: &[u8], from: usize, to: usize) -> usize
        requires low { from ≤ number_of self.now run.now }
        requires high { number_of self.now run.now ≤ to }
        requires within { to ≤ length self.now }
        ensures { result ≡ number_of self.now run.now }
    {
        let (low, high) = self.near(run, from, to);
        self.end_from(run, false, low, high)
    }

    /// How many phrases come before the run or begin with it: a number up to `to`, where `start` come before it. The heads
    /// alone tell it where they have all of the run.
    fn end(&self, run: &[u8], start: usize, to: usize) -> usize
        requires start { start ≡ number_of self.now run.now }
        requires high { (prefix_range self.now run.now).1 ≤ to }
        requires within { to ≤ length self.now }
        ensures { result ≡ (prefix_range self.now run.now).1 }
    {
        let last = front(run, 255);
        let is_in_head = run.len() <= 8;
        if is_in_head {
            return up_to(self.heads(), start, to, last);
        }
        self.end_from(run, true, start, past(self.heads(), start, to, last))
    }

    /// How many phrases come before the run or, where `through` is set, begin with it: a number from `low` to `high`.
    fn end_from(&self, run: &[u8], through: bool, low: usize, high: usize) -> usize
        requires low { low ≤ end_of through self.now run.now }
        requires high { end_of through self.now run.now ≤ high }
        requires within { high ≤ length self.now }
        ensures { result ≡ end_of through self.now run.now }
    {
        let (mut low, mut high) = (low, high);
        'halve: while low < high {
            let middle = low + (high - low) / 2;
            if is_left(self.text(middle), run, through) {
                low = middle + 1;
            } else {
                high = middle;
            }
        }
        low
    }
}

/// How many bytes the texts have together.
fn total_len<T: HasText>(list: &[T]) -> usize {
    let mut total = 0usize;
    for item in list {
        total = total.saturating_add(item.text().len());
    }
    total
}

/// Whether the text comes before the run or, where `through` is set, begins with it.
fn is_left(text: &[u8], run: &[u8], through: bool) -> bool
    ensures { result ≡ (is_below run.now text.now || (through && begins_with text.now run.now)) }
{
    if through {
        let front = &text[..run.len().min(text.len())];
        return !front.cmp(run).is_gt();
    }
    text.cmp(run).is_lt()
}

/// The bytes of a part.
fn part<'a>(bytes: &'a [u8], ends: &[usize], n: usize) -> &'a [u8]
    requires reach { Reach 0 ends.now (length bytes.now) }
    requires within { n < length ends.now }
    ensures { result.now ≡ get_or (parts bytes.now 0 ends.now) n [] }
{
    between(bytes, begin(ends, n), ends[n])
}

/// Where a part begins: at the end of the one before.
fn begin(ends: &[usize], n: usize) -> usize
    requires { n ≤ length ends.now }
    ensures { result ≡ begin_of 0 ends.now n }
{
    if n == 0 { 0 } else { ends[n - 1] }
}

/// The bytes from one place up to another.
fn between(bytes: &[u8], from: usize, to: usize) -> &[u8]
    requires low { from ≤ to }
    requires high { to ≤ length bytes.now }
    ensures { result.now ≡ slice_range bytes.now from to }
{
    &bytes[from..to]
}
