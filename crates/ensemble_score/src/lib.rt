// A score: timed notes, lent as a slice of entries; and a score by value, which has them as numbers, for callers that have no slice to lend.
#![tactic(auto)]

ghost use Rattle.std.specs.Prelude.{◌≡◌, List, ◌+◌, ◌≤◌, ◌<◌, length, get_or};
ghost use Rattle.ensemble_score.specs.Score.{blank, entry_in, EntryPut, FourFrom, FourPut, TakenFrom};
ghost use Rattle.ensemble_score.specs.declared.Entry.{Entry};

// A timed note: the mixed frames at which it starts and at which its key comes up; its step, octave and velocity. The order of the fields is
// that of the C interface.
#[repr(C)]
#[derive(Clone, Copy)]
pub struct Entry {
    pub start: u32,
    pub key_up: u32,
    pub step: u32,
    pub octave: u8,
    pub velocity: u8,
}

// Four entries in a row.
#[derive(Clone, Copy)]
struct Four {
    first: Entry,
    second: Entry,
    third: Entry,
    fourth: Entry,
}

// A score taken over from a slice: its length, and five numbers for each of its first sixteen entries (start, key-up, step, octave, velocity).
// What stands past its end doesn't matter.
#[derive(Clone, Copy)]
pub struct Score {
    pub count: usize,
    pub numbers: [u32; 80],
}

fn entry_count(score: &[Entry]) -> usize
    ensures { result ≡ length score.now }
{
    score.len()
}

// The entry at a place, or a blank one past the end.
fn entry_or_blank(score: &[Entry], i: usize) -> Entry
    ensures { result ≡ get_or score.now i blank }
{
    if i < score.len() {
        return score[i];
    }
    Entry {
        start: 0,
        key_up: 0,
        step: 0,
        octave: 0,
        velocity: 0,
    }
}

// The four entries from a place on.
fn four_from(score: &[Entry], i: usize) -> Four
    requires { i ≤ 12 }
    ensures { FourFrom score.now i result }
{
    let first = entry_or_blank(score, i);
    let second = entry_or_blank(score, i + 1);
    let third = entry_or_blank(score, i + 2);
    let fourth = entry_or_blank(score, i + 3);
    Four {
        first,
        second,
        third,
        fourth,
    }
}

// The numbers of an entry, at its five places.
pub fn put_entry(numbers: &mut [u32], i: usize, e: Entry)
    requires { (length numbers.old ≡ 80) × (i < 16) }
    ensures { EntryPut numbers.old i e numbers.new }
{
    let at = 5 * i;
    let second = at + 1;
    let third = at + 2;
    let fourth = at + 3;
    let fifth = at + 4;
    numbers[at] = e.start;
    numbers[second] = e.key_up;
    numbers[third] = e.step;
    numbers[fourth] = e.octave as u32;
    numbers[fifth] = e.velocity as u32;
}

// The numbers of four entries in a row.
fn put_four(numbers: &mut [u32], i: usize, f: Four)
    requires { (length numbers.old ≡ 80) × (i ≤ 12) }
    ensures { FourPut numbers.old i f numbers.new }
{
    let first = f.first;
    let second = f.second;
    let third = f.third;
    let fourth = f.fourth;
    put_entry(numbers, i, first);
    put_entry(numbers, i + 1, second);
    put_entry(numbers, i + 2, third);
    put_entry(numbers, i + 3, fourth);
}

// The numbers of sixteen entries.
fn score_by(count: usize, a: Four, b: Four, c: Four, d: Four) -> Score
    ensures { (score : List Entry) → count ≡ length score → FourFrom score 0 a → FourFrom score 4 b → FourFrom score 8 c → FourFrom score 12 d → TakenFrom score result }
{
    let mut numbers = [0u32; 80];
    put_four(&mut numbers, 0, a);
    put_four(&mut numbers, 4, b);
    put_four(&mut numbers, 8, c);
    put_four(&mut numbers, 12, d);
    Score { count, numbers }
}

// The score of a lent slice, by value.
pub fn score_of(score: &[Entry]) -> Score
    ensures { TakenFrom score.now result }
{
    let count = entry_count(score);
    let a = four_from(score, 0);
    let b = four_from(score, 4);
    let c = four_from(score, 8);
    let d = four_from(score, 12);
    score_by(count, a, b, c, d)
}

// The entry at a place of a score's numbers.
pub fn nth_entry(numbers: &[u32; 80], i: usize) -> Entry
    requires { i < 16 }
    ensures { result ≡ entry_in numbers.now i }
{
    let at = 5 * i;
    let second = at + 1;
    let third = at + 2;
    let fourth = at + 3;
    let fifth = at + 4;
    let start = numbers[at];
    let key_up = numbers[second];
    let step = numbers[third];
    let octave = numbers[fourth] % 256;
    let velocity = numbers[fifth] % 256;
    Entry {
        start,
        key_up,
        step,
        octave: octave as u8,
        velocity: velocity as u8,
    }
}
