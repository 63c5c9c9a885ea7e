//! Sort prefixes that hold several columns of a key.
//!
//! Most words of a column are close to each other, or have bytes in common. A frame, made from a
//! sample, gives each word a code: its distance from the lowest one, in steps. The codes of a key's
//! first words are the digits of two numbers, its prefix. A word that a frame doesn't fit has the first
//! code or the last, and what follows it in the key doesn't count, so prefixes are in order for every
//! sample, and only how many of them tie depends on it.
ghost use Rattle.std.specs.Prelude.{◌≡◌, ◌≤◌, ℕ, All, IfSome, IsTrue, map};
ghost use Rattle.gq_query.specs.declared.sort_prefix.SortPrefix.{SortPrefix as Prefix};
ghost use Rattle.gq_query.specs.GroupSpans.{IsGroupAt, PrefixesDecide, key_at, with_prefix};
ghost use Rattle.gq_query.specs.Frames.{AreFrames, Fit, Follow, HasFramePrefix, IsDigit, IsFramePrefix, IsNumber, code_of, has_own_code, last_of, next_place, none_before, product};

use crate::group_list::GroupSpan;
use crate::sort_prefix::{SortPrefix, WORD_BYTES, is_open, is_whole, word_of};
use crate::tie_sort::cell_at;
use gq_cells::Cells;
use std::alloc::{AllocError, Global};

// How many words of a key have a frame at most.
const MAX_FRAMES: usize = 16;

// A sample has one key of this number at most, and at most `SAMPLE` keys.
const STEP: usize = 8;

const SAMPLE: usize = 4096;

// If more than one in this number of a sample's keys ties, prefixes of codes are not worth their time.
const MAX_TIES: usize = 8;

// What gives a word of a key its code: the word of the cell `cell`, without the first `skip` bytes if
// it is a text.
#[derive(Clone, Copy)]
struct Frame {
    cell: usize,
    skip: usize,
    // The lowest word with a code of its own. The others follow in steps of 2^shift, modulo 64.
    low: u64,
    shift: u32,
    // How many codes there are. The first is for all words below, and the last for all above.
    codes: u64,
    // Whether the next word is of the next cell, and not of the same text.
    ends: bool,
}

// A code, or a number of which codes are the digits.
#[derive(Clone, Copy)]
struct Code {
    code: u64,
    // Whether it gives the words that it is made of, so that what follows them counts.
    exact: bool,
}

impl Frame {
    #[inline(always)]
    fn last(&self) -> u64
        ensures { result ≡ last_of self.now }
    {
        self.codes.saturating_sub(1)
    }

    // The code of a word, exact if no other word has it.
    #[inline(always)]
    fn code(&self, word: u64) -> Code
        ensures code { result.code ≡ code_of self.now word }
        ensures exact { result.exact ≡ has_own_code self.now word }
    {
        let Some(above) = word.checked_sub(self.low) else {
            return Code {
                code: 0,
                exact: false,
            };
        };
        let shift = self.shift % 64;
        let steps = above >> shift;
        let code = steps.saturating_add(1).min(self.last());
        Code {
            code,
            exact: code < self.last() && steps << shift == above,
        }
    }

    // The digit of a key whose words before it are known, or else of every other.
    #[inline(always)]
    fn digit(&self, cells: &Cells, group: &GroupSpan, known: bool) -> Code
        ensures { IsDigit self.now (key_at cells.now group.now) known result }
    {
        if !known {
            return Code {
                code: self.last(),
                exact: false,
            };
        }
        let word = word_of(cell_at(cells, group, self.cell), self.skip);
        let found = self.code(word);
        Code {
            code: found.code,
            exact: found.exact && (!self.ends || is_whole(word)),
        }
    }

    // The place of the next word in a key: a cell, and the bytes of its text before it.
    fn next(&self) -> Option<(usize, usize)>
        ensures { IfSome result (λ place. place ≡ next_place self.now) }
    {
        if self.ends {
            Some((self.cell.checked_add(1)?, 0))
        } else {
            Some((self.cell, self.skip.checked_add(WORD_BYTES)?))
        }
    }
}

/// Gives groups prefixes: of two that differ, the lower one is that of the lower key. Each key has at least
/// `width` cells.
pub(crate) fn write_prefixes(alloc: Global, cells: &Cells, groups: &mut [GroupSpan], width: usize)
    requires within { All (IsGroupAt cells.now) groups.old }
    requires wide { All (λ (g : GroupSpan). width ≤ g.key) groups.old }
    ensures kept { (p : Prefix) → map (with_prefix p) groups.new ≡ map (with_prefix p) groups.old }
    ensures decide { PrefixesDecide cells.now groups.new }
{
    let frames = Frames::of(alloc, cells, groups, width);
    frames.write_to(cells, groups);
}

// The frames of the first words of keys: those whose codes are in the high word of a prefix, and those
// whose codes are in the low one.
#[derive(Drop)]
struct Frames {
    high: Vec<Frame>,
    low: Vec<Frame>,
}

impl Frames {
    // Frames for keys that have at least `width` cells each.
    fn of(alloc: Global, cells: &Cells, groups: &[GroupSpan], width: usize) -> Frames
        ensures { AreFrames width result }
    {
        let mut frames = Frames::none(alloc);
        let fit = match sample_of(alloc, groups) {
            Ok(mut sample) => frames.fit(cells, sample.as_mut_slice(), width),
            Err(_) => false,
        };
        if fit && frames.are_valid(width) {
            frames
        } else {
            Frames::none(alloc)
        }
    }

    fn none(alloc: Global) -> Frames
        ensures { (width : ℕ) → AreFrames width result }
    {
        Frames {
            high: Vec::new(alloc),
            low: Vec::new(alloc),
        }
    }

    // Adds frames until no keys of a sample tie, or there is no place for another. Returns whether most of the
    // keys differ then. No contract covers it.
    fn fit(&mut self, cells: &Cells, sample: &mut [GroupSpan], width: usize) -> bool {
        let mut place = (0, 0);
        let mut ties = sample.len();
        'words: for _ in 0..MAX_FRAMES {
            if ties == 0 || place.0 >= width {
                break;
            }
            let frame = WordRange::of(cells, sample, place).frame(place);
            let Some(next) = frame.next() else {
                break;
            };
            if !self.push(frame) {
                break;
            }
            place = next;
            ties = self.ties(cells, sample);
        }
        ties <= sample.len() / MAX_TIES
    }

    // Adds a frame if there is place for its codes. Returns whether there was. No contract covers it.
    fn push(&mut self, frame: Frame) -> bool {
        if self.low.is_empty() && push_to(&mut self.high, frame) {
            return true;
        }
        push_to(&mut self.low, frame)
    }

    // How many keys have the prefix of another. They are sorted by their prefixes for that. No contract covers it.
    fn ties(&self, cells: &Cells, groups: &mut [GroupSpan]) -> usize {
        self.write_to(cells, groups);
        groups.sort_unstable_by(|a, b| a.prefix.cmp(&b.prefix));
        let mut ties: usize = 0;
        for i in 1..groups.len() {
            let before = groups[i - 1].prefix;
            if groups[i].prefix == before {
                ties = ties.saturating_add(1);
            }
        }
        ties
    }

    // Whether each frame is of the word after the one before it, and the numbers fit in their words.
    fn are_valid(&self, width: usize) -> bool
        ensures { IsTrue result → AreFrames width self.now }
    {
        match end_of(self.high.as_slice(), (0, 0), width) {
            Some(place) => end_of(self.low.as_slice(), place, width).is_some(),
            None => false,
        }
    }

    // Gives each group the prefix of its key.
    fn write_to(&self, cells: &Cells, groups: &mut [GroupSpan])
        ensures kept { (p : Prefix) → map (with_prefix p) groups.new ≡ map (with_prefix p) groups.old }
        ensures prefixed { All (HasFramePrefix cells.now self.now) groups.new }
    {
        for i in 0..groups.len() {
            groups[i].prefix = self.prefix(cells, &groups[i]);
        }
    }

    #[inline(always)]
    fn prefix(&self, cells: &Cells, group: &GroupSpan) -> SortPrefix
        ensures { IsFramePrefix self.now (key_at cells.now group.now) result }
    {
        let high = number(self.high.as_slice(), cells, group, true);
        let low = number(self.low.as_slice(), cells, group, high.exact);
        SortPrefix {
            high: high.code,
            low: low.code,
        }
    }
}

// The number whose digits are the codes of a key's words in frames. `known` says whether the words before
// them are known.
#[inline(always)]
fn number(frames: &[Frame], cells: &Cells, group: &GroupSpan, known: bool) -> Code
    ensures { IsNumber frames.now (key_at cells.now group.now) (none_before known) result }
{
    let mut sum = Code {
        code: 0,
        exact: known,
    };
    for frame in frames {
        let digit = frame.digit(cells, group, sum.exact);
        sum = Code {
            code: sum
                .code
                .saturating_mul(frame.codes)
                .saturating_add(digit.code),
            exact: digit.exact,
        };
    }
    sum
}

// The place after the words of frames, if these follow each other from a place on, all of them in the
// first `width` cells, and there are less than 2^64 numbers of their codes.
fn end_of(frames: &[Frame], start: (usize, usize), width: usize) -> Option<(usize, usize)>
    ensures follow { IfSome result (Follow width frames.now start) }
    ensures fit { IfSome result (λ _. Fit frames.now) }
{
    let mut place = start;
    for frame in frames {
        if (frame.cell, frame.skip) != place || frame.cell >= width {
            return None;
        }
        place = frame.next()?;
    }
    let numbers = product(frames)?;
    if numbers == 0 {
        return None;
    }
    Some(place)
}

// How many numbers there are of the codes of frames, if they are less than 2^64.
fn product(frames: &[Frame]) -> Option<u64>
    ensures { IfSome result (λ n. n ≡ product frames.now) }
{
    let mut product: u64 = 1;
    for frame in frames {
        product = product.checked_mul(frame.codes)?;
    }
    Some(product)
}

// Appends a frame if there are less than 2^64 numbers with its codes too. Returns whether it did. No contract
// covers it.
fn push_to(frames: &mut Vec<Frame>, frame: Frame) -> bool {
    if frames.push(frame).is_err() {
        return false;
    }
    if product(frames.as_slice()).is_some() {
        return true;
    }
    frames.pop();
    false
}

// Groups from all over a list. No contract covers it.
fn sample_of(alloc: Global, groups: &[GroupSpan]) -> Result<Vec<GroupSpan>, AllocError> {
    let step = STEP.max(groups.len() / SAMPLE + 1);
    let mut sample = Vec::with_capacity(alloc, SAMPLE.min(groups.len()))?;
    for group in groups.iter().step_by(step) {
        sample.push(*group)?;
    }
    Ok(sample)
}

// The words of a sample at one place: the lowest and the highest, all bits in which they differ, and
// whether some text has more bytes.
#[derive(Clone, Copy)]
struct WordRange {
    low: u64,
    high: u64,
    bits: u64,
    open: bool,
}

impl WordRange {
    // No contract covers it.
    fn of(cells: &Cells, sample: &[GroupSpan], place: (usize, usize)) -> WordRange {
        let mut range = WordRange {
            low: u64::MAX,
            high: 0,
            bits: 0,
            open: false,
        };
        for group in sample {
            let word = word_of(cell_at(cells, group, place.0), place.1);
            if range.low <= range.high {
                range.bits |= word ^ range.low;
            }
            range.low = range.low.min(word);
            range.high = range.high.max(word);
            range.open |= is_open(word);
        }
        range
    }

    // The frame of these words. No contract covers it.
    fn frame(&self, place: (usize, usize)) -> Frame {
        let shift = self.bits.trailing_zeros() % 64;
        let steps = self.high.saturating_sub(self.low) >> shift;
        Frame {
            cell: place.0,
            skip: place.1,
            low: self.low,
            shift,
            codes: steps.saturating_add(3),
            ends: !self.open,
        }
    }
}
