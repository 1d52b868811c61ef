//! Lines of eight words. A line that was written has a mark; the words of a line without one are 0.

ghost use Rattle.std.specs.Prelude.{◌≡◌, ◌+◌, ◌*◌, ◌/◌, ◌<◌, ◌≤◌, ℕ, length, replicate, slice_index};
ghost use Rattle.sv39.specs.Nonzero.{IsClear};
ghost use Rattle.sv39.specs.Inside.Lines.{AreMarked, AreSame, AreUnmarked, marked};

/// The number of words in a line.
pub(crate) const LINE_WORDS: usize = 8;

/// The number of marks in a row, one bit for each: those of a page.
const ROW: usize = 64;

/// Marks a line.
#[inline(always)]
pub(crate) fn mark(marks: &mut Vec<u64>, line: usize)
    requires { line / 64 < length marks.old.items }
    ensures { marks.new.items ≡ marked marks.old.items line }
{
    marks[line / ROW] |= 1 << (line % ROW);
}

/// The first line from this one on that has one of two marks, or the number of lines if none has.
pub(crate) fn next_marked(marks: &[u64], others: &[u64], from: usize) -> usize
    requires same { length others.now ≡ length marks.now }
    requires few { length marks.now ≤ 256 }
    requires within { from ≤ 64 * length marks.now }
    ensures later { from ≤ result }
    ensures within { result ≤ 64 * length marks.now }
    ensures none { AreUnmarked marks.now from result }
    ensures none_other { AreUnmarked others.now from result }
{
    let lines = ROW * marks.len();
    let mut line = from;
    while line < lines {
        let left = (marks[line / ROW] | others[line / ROW]) >> (line % ROW);
        if left != 0 {
            return line + left.trailing_zeros() as usize;
        }
        line += ROW - line % ROW;
    }
    lines
}

/// Copies all words. It visits only lines that have a mark in one of the two lists.
pub(crate) fn copy_marked(words: &mut [u64], marks: &[u64], others: &[u64], other_marks: &[u64])
    requires rows { length words.old ≡ 512 * length marks.now }
    requires few { length marks.now ≤ 256 }
    requires same { length others.now ≡ length words.old }
    requires same_rows { length other_marks.now ≡ length marks.now }
    requires kept { AreMarked words.old marks.now }
    requires others_kept { AreMarked others.now other_marks.now }
    ensures { words.new ≡ others.now }
{
    let lines = ROW * marks.len();
    let mut line = next_marked(marks, other_marks, 0);
    while line < lines {
        copy_line(words, others, line);
        line = next_marked(marks, other_marks, line + 1);
    }
}

/// Copies a line. The words before it are copied already.
#[inline(always)]
fn copy_line(words: &mut [u64], others: &[u64], line: usize)
    requires within { 8 * line + 8 ≤ length words.old }
    requires same { length others.now ≡ length words.old }
    requires before { AreSame words.old others.now 0 (8 * line) }
    ensures copied { AreSame words.new others.now 0 (8 * line + 8) }
    ensures rest { (k : ℕ) → 8 * line + 8 ≤ k → slice_index words.new k ≡ slice_index words.old k }
{
    let from = LINE_WORDS * line;
    words[from..from + LINE_WORDS].copy_from_slice(&others[from..from + LINE_WORDS]);
}

/// Makes all words 0. It visits only lines that have a mark.
pub(crate) fn clear_marked(words: &mut [u64], marks: &[u64])
    requires rows { length words.old ≡ 512 * length marks.now }
    requires few { length marks.now ≤ 256 }
    requires kept { AreMarked words.old marks.now }
    ensures { words.new ≡ replicate (length words.old) 0 }
{
    let lines = ROW * marks.len();
    let mut line = next_marked(marks, marks, 0);
    while line < lines {
        clear_line(words, line);
        line = next_marked(marks, marks, line + 1);
    }
}

/// Makes the words of a line 0. The words before it are 0 already.
#[inline(always)]
fn clear_line(words: &mut [u64], line: usize)
    requires within { 8 * line + 8 ≤ length words.old }
    requires before { IsClear words.old 0 (8 * line) }
    ensures cleared { IsClear words.new 0 (8 * line + 8) }
    ensures rest { (k : ℕ) → 8 * line + 8 ≤ k → slice_index words.new k ≡ slice_index words.old k }
{
    let from = LINE_WORDS * line;
    words[from..from + LINE_WORDS].fill(0);
}
