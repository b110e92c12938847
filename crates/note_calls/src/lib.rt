// A list of calls on a note, made one after another: the accepted blocks joined in one buffer, and the answers in another.
#![tactic(auto)]

ghost use Rattle.std.specs.Prelude.{◌≡◌, true, ◌+◌, ◌≤◌, pos, length, replicate, [], ◌∷◌, map};
ghost use Rattle.std.proofs.lemmas.List.Edits.{sets};
ghost use Rattle.laws.specs.Put.{Put};
ghost use Rattle.note.specs.Fill.{after_fill};
ghost use Rattle.note_calls.specs.Play.{accepted_block, play, last_note};
ghost use Rattle.note_calls.specs.Made.{host_calls, places_of, answers_of, answer_number, room_for, calls_leave, after_calls};

use note::{Filled, Note};
use refusal::Refusal;

// The number that stands for a key-up among the calls; any other is a fill of so many places.
pub const KEY_UP: u64 = 18446744073709551615;

// What is added to a refusal's number among the answers.
pub const REFUSED: u64 = 9223372036854775808;

// The note after the calls, how many values were put out, and how many answers.
#[derive(Clone, Copy)]
pub struct Made {
    pub note: Note,
    pub values: usize,
    pub answers: usize,
}

// The note after some of the calls, and how many values and answers they put out.
#[derive(Clone, Copy)]
struct Run {
    note: Note,
    at: usize,
    count: usize,
}

// An answer as a number.
fn answer_number(answer: Result<usize, Refusal>) -> u64
    ensures { result ≡ answer_number answer }
{
    match answer {
        Ok(count) => count as u64,
        Err(refusal) => REFUSED + refusal.number() as u64,
    }
}

// How many places a call fills: a key-up none.
fn places_of(call: u64) -> usize
    ensures { result ≡ places_of call }
{
    if call == KEY_UP {
        return 0;
    }
    call as usize
}

// How many answers it gives: a key-up none.
fn answers_of(call: u64) -> usize
    ensures { result ≡ answers_of call }
{
    if call == KEY_UP {
        return 0;
    }
    1
}

// That so many places hold the blocks of all fills, and so many their answers.
fn has_room(calls: &[u64], places: usize, answers: usize) -> bool
    ensures { result ≡ room_for calls.now places answers }
{
    let mut places_left = places;
    let mut answers_left = answers;
    for call in calls {
        let p = places_of(*call);
        let a = answers_of(*call);
        if places_left < p {
            return false;
        }
        if answers_left < a {
            return false;
        }
        places_left -= p;
        answers_left -= a;
    }
    true
}

// A fill of the places from `at` on. A block that is accepted then stands there; a refused fill changes nothing.
fn fill_part(
    n: Note,
    sheet: &[u8],
    left: &[i8],
    right: &[i8],
    out: &mut [i16],
    at: usize,
    places: usize,
) -> Filled
    requires { at + places ≤ length out.old }
    ensures answer { result.answer ≡ (after_fill sheet.now (record { left = left.entry.now; right = right.now }) n (replicate places (pos 0))).answer }
    ensures note { result.note ≡ (after_fill sheet.now (record { left = left.entry.now; right = right.now }) n (replicate places (pos 0))).note }
    ensures buffer { out.new ≡ sets out.old at (accepted_block result.answer (after_fill sheet.now (record { left = left.entry.now; right = right.now }) n (replicate places (pos 0))).buffer) }
{
    let end = at + places;
    n.fill(sheet, left, right, &mut out[at..end])
}

// How many values an accepted block of so many places puts out; a refused fill none.
fn put_out(answer: Result<usize, Refusal>, places: usize) -> usize
    ensures { result ≡ length (accepted_block answer (replicate places (pos 0))) }
{
    if answer.is_ok() { places } else { 0 }
}

// One call: its block, if it is accepted, stands at the place past the blocks before it, and its answer past theirs.
fn one_call(
    run: Run,
    call: u64,
    sheet: &[u8],
    left: &[i8],
    right: &[i8],
    out: &mut [i16],
    answers: &mut [u64],
) -> Run
    requires { (run.at + places_of call ≤ length out.old) × (run.count + answers_of call ≤ length answers.old) }
    ensures note { result.note ≡ last_note sheet.now (record { left = left.entry.now; right = right.now }) run.note (host_calls (call ∷ [])) }
    ensures blocks { Put out.old run.at (play sheet.now (record { left = left.entry.now; right = right.now }) run.note (host_calls (call ∷ []))).blocks out.new result.at }
    ensures answers { Put answers.old run.count (map answer_number (play sheet.now (record { left = left.entry.now; right = right.now }) run.note (host_calls (call ∷ []))).answers) answers.new result.count }
{
    let n = run.note;
    let at = run.at;
    let count = run.count;
    if call == KEY_UP {
        let note = n.key_up();
        return Run { note, at, count };
    }
    let places = call as usize;
    let filled = fill_part(n, sheet, left, right, out, at, places);
    let note = filled.note;
    let answer = filled.answer;
    answers[count] = answer_number(answer);
    let end = at + put_out(answer, places);
    let next = count + 1;
    Run {
        note,
        at: end,
        count: next,
    }
}

// The calls, where there is room for all of them.
fn run_calls(
    note: Note,
    sheet: &[u8],
    left: &[i8],
    right: &[i8],
    calls: &[u64],
    out: &mut [i16],
    answers: &mut [u64],
) -> Result<Made, Refusal>
    requires { room_for calls.now (length out.old) (length answers.old) ≡ true }
    ensures made { result ≡ (calls_leave (play sheet.now (record { left = left.entry.now; right = right.now }) note (host_calls calls.now)) (last_note sheet.now (record { left = left.entry.now; right = right.now }) note (host_calls calls.now)) out.old answers.old).made }
    ensures blocks { out.new ≡ (calls_leave (play sheet.now (record { left = left.entry.now; right = right.now }) note (host_calls calls.now)) (last_note sheet.now (record { left = left.entry.now; right = right.now }) note (host_calls calls.now)) out.old answers.old).blocks }
    ensures answers { answers.new ≡ (calls_leave (play sheet.now (record { left = left.entry.now; right = right.now }) note (host_calls calls.now)) (last_note sheet.now (record { left = left.entry.now; right = right.now }) note (host_calls calls.now)) out.old answers.old).answers }
{
    let mut run = Run {
        note,
        at: 0,
        count: 0,
    };
    for call in calls {
        run = one_call(run, *call, sheet, left, right, out, answers);
    }
    Ok(Made {
        note: run.note,
        values: run.at,
        answers: run.count,
    })
}

// Makes the calls, each a number of places to fill or KEY_UP: the accepted blocks stand one after another at the front of `out`, and the
// answers (how many frames weren't over, or REFUSED and the refusal's number) at the front of `answers`. 20, with nothing written, where
// the places of all fills together, or the fills, are more than that.
pub fn make_calls(
    note: Note,
    sheet: &[u8],
    left: &[i8],
    right: &[i8],
    calls: &[u64],
    out: &mut [i16],
    answers: &mut [u64],
) -> Result<Made, Refusal>
    ensures made { result ≡ (after_calls sheet.now (record { left = left.entry.now; right = right.now }) note calls.now out.old answers.old).made }
    ensures blocks { out.new ≡ (after_calls sheet.now (record { left = left.entry.now; right = right.now }) note calls.now out.old answers.old).blocks }
    ensures answers { answers.new ≡ (after_calls sheet.now (record { left = left.entry.now; right = right.now }) note calls.now out.old answers.old).answers }
{
    if !has_room(calls, out.len(), answers.len()) {
        return Err(Refusal::BufferShort);
    }
    run_calls(note, sheet, left, right, calls, out, answers)
}
