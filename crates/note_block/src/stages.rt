// The stages of a note: its attack, and its release.
ghost use Rattle.std.specs.Prelude.{◌≡◌, ◌<◌, pos};
ghost use Rattle.sheet_layout.specs.Members.{points_in, Whole};
ghost use Rattle.note_frame.specs.Frame.{start_level};
ghost use Rattle.note_block.specs.Stages.{attack_in, attack_stage, release_stage};

use note_envelope::cursor_at;
use note_stage::Stage;
use sheet_layout::next_member;

// The level that an attack begins at: full, if no point follows.
fn start_level(attack: &[u8]) -> i32
    ensures { result ≡ start_level (points_in attack.now) }
{
    match next_member(attack, 0, 6) {
        None => 65536,
        Some(_) => 0,
    }
}

// The level of a held note at frame u.
fn attack_level(attack: &[u8], rate: u32, u: u32) -> i32
    requires { (0 < rate) × Whole 6 6 attack.now }
    ensures { result ≡ pos (attack_in attack.now rate u) }
{
    let ms = 1000 * u as usize / rate as usize;
    let e = cursor_at(attack, start_level(attack), ms);
    e.now as i32
}

pub(crate) fn attack_stage(attack: &[u8], step: u32, rate: u32) -> Stage
    ensures { result ≡ attack_stage attack.now step rate }
{
    Stage {
        step: step as usize,
        rate: rate as usize,
        since: 0,
        level: start_level(attack),
        ends: false,
    }
}

pub(crate) fn release_stage(attack: &[u8], step: u32, rate: u32, u: u32) -> Stage
    requires { (0 < rate) × Whole 6 6 attack.now }
    ensures { result ≡ release_stage attack.now step rate u }
{
    Stage {
        step: step as usize,
        rate: rate as usize,
        since: u as usize,
        level: attack_level(attack, rate, u),
        ends: true,
    }
}
