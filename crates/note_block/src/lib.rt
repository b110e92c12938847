// The next block of a note that no rule turns back. What the sheet says is taken out once; the block's loop looks at nothing but that.
#![tactic(auto)]

mod silence;
mod stages;

ghost use Rattle.std.specs.Prelude.{◌≡◌, ◌-◌, ◌/◌, min, length};
ghost use Rattle.sheet_layout.specs.Layout.{layout_of};
ghost use Rattle.sheet.specs.Judge.{judged};
ghost use Rattle.sheet.specs.Read.{read_sheet};
ghost use Rattle.std.specs.Prelude.{Ok};
ghost use Rattle.note_frame.specs.Frame.{frame};
ghost use Rattle.note_frame.specs.Frames.{frames_from, interleaved, sounding};
ghost use Rattle.refusal.specs.Rules.{first_holding};
ghost use Rattle.note_rules.specs.Rules.{fill_rules};
ghost use Rattle.note_block.specs.Block.{BlockReady, BlockPlayed};

use crate::stages::{attack_stage, release_stage};
use note_frame::{Gains, Key, Playing, gains_of};
use note_path::{Path, path_of};
use note_stage::play;
use sheet_layout::{Layout, sheet_header, sheet_sequence};
pub use silence::{least, silence_from};

// Of d frames from the frames filled on those that aren't over, and how many. A block is held or released as a whole, since a key-up is
// never ahead of it.
fn play_stage(
    n: Playing,
    frames: u32,
    sheet: &[u8],
    l: Layout,
    g: Gains,
    path: Path,
    left: &[i8],
    right: &[i8],
    d: usize,
    out: &mut [i16],
) -> usize
    requires { BlockReady n frames sheet.now l g path left.now right.now d out.old }
    ensures { BlockPlayed n frames sheet.now left.now right.now d out.old out.new result }
{
    let m = frames as usize;
    let attacks = l.attacks;
    let releases = l.releases;
    let sequence = l.sequence;
    let fade = l.fade;
    let attack = &sheet[attacks..releases];
    let segments = &sheet[sequence..fade];
    match n.key {
        Key::Held => {
            let stage = attack_stage(attack, n.step, n.rate);
            play(g, path, stage, attack, segments, left, right, m, d, out)
        }
        Key::Released(u) => {
            let stage = release_stage(attack, n.step, n.rate, u);
            let release = &sheet[releases..sequence];
            play(g, path, stage, release, segments, left, right, m, d, out)
        }
    }
}

// Those of the buffer's frames that aren't over, at its front, and how many; the rest of the buffer is as it was.
pub fn sounding_block(
    n: Playing,
    frames: u32,
    sheet: &[u8],
    l: Layout,
    left: &[i8],
    right: &[i8],
    out: &mut [i16],
) -> usize
    requires { (judged sheet.now ≡ Ok tt) × (l ≡ layout_of (read_sheet sheet.now)) × (first_holding (fill_rules (read_sheet sheet.now) (length left.now) (length right.now) n frames (length out.old)) ≡ Ok tt) }
    ensures { BlockPlayed n frames sheet.now left.now right.now (min (length out.old / 2) (4294967295 - frames)) out.old out.new result }
{
    let start = l.sequence;
    let end = l.fade;
    let segments = &sheet[start..end];
    let sequence = sheet_sequence(sheet, l).is_some();
    let path = path_of(
        sheet_header(sheet),
        n.octave,
        sequence,
        segments,
        left.len(),
    );
    let g = gains_of(sheet, l, n.octave, n.velocity);
    let room = 4294967295 - frames as usize;
    let d = least(out.len() / 2, room);
    play_stage(n, frames, sheet, l, g, path, left, right, d, out)
}

// Fills the whole buffer with the frames that follow the frames filled; answers how many of them aren't over.
pub fn next_block(
    n: Playing,
    frames: u32,
    sheet: &[u8],
    l: Layout,
    left: &[i8],
    right: &[i8],
    out: &mut [i16],
) -> usize
    requires { (judged sheet.now ≡ Ok tt) × (l ≡ layout_of (read_sheet sheet.now)) × (first_holding (fill_rules (read_sheet sheet.now) (length left.now) (length right.now) n frames (length out.old)) ≡ Ok tt) }
    ensures result { result ≡ sounding (frames_from (frame (read_sheet sheet.now) (record { left = left.entry.now; right = right.now }) n) frames (length out.old / 2)) }
    ensures buffer { out.new ≡ interleaved (frames_from (frame (read_sheet sheet.now) (record { left = left.entry.now; right = right.now }) n) frames (length out.old / 2)) }
{
    let count = sounding_block(n, frames, sheet, l, left, right, out);
    silence_from(out, 2 * count);
    count
}
