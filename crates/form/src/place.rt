// The first chunk of a name.
ghost use Rattle.std.specs.Prelude.{◌≡◌};
ghost use Rattle.form.specs.Find.{first_place};

use chunk::chunk_at;

// Where a payload lies: its start and its length.
#[derive(Clone, Copy, Debug, PartialEq, Eq)]
pub struct Place {
    pub start: usize,
    pub size: usize,
}

pub fn find(form: &[u8], id: u32) -> Option<Place>
    ensures { result ≡ first_place form.now id }
{
    let mut at = 12;
    while let Some(chunk) = chunk_at(form, at).unwrap_or(None) {
        if chunk.id == id {
            return Some(Place {
                start: chunk.start,
                size: chunk.size,
            });
        }
        at = chunk.next;
    }
    None
}
