// How much was drawn, written and played, in numbers of 64 bits that wrap.
ghost use Rattle.std.specs.Prelude.{◌<◌};

// Voices that were read as they were drawn; the bytes of files and a sum over them; notes, the frames of them that aren't over, and a sum
// over the values of all frames. A sum begins with 0, and with each element becomes 31 times itself and the element.
#[derive(Clone, Copy, Default)]
pub struct Sums {
    pub voices: u64,
    pub bytes: u64,
    pub files: u64,
    pub notes: u64,
    pub sounding: u64,
    pub frames: u64,
}

// 31 times a sum, and an element.
fn next(sum: u64, element: u64) -> u64 {
    sum.wrapping_mul(31).wrapping_add(element)
}

// The element of a value: its 16 bits.
fn bits(value: i16) -> u64
    ensures { result < 65536 }
{
    u64::from(value.cast_unsigned())
}

// `next` for four values. They wait for the sum before them once and not four times: it times 31^4, and theirs beside it.
fn next_four(sum: u64, values: &[i16; 4]) -> u64 {
    let [a, b, c, d] = *values;
    let of_four = bits(a) * (31 * 31 * 31) + bits(b) * (31 * 31) + bits(c) * 31 + bits(d);
    sum.wrapping_mul(31 * 31 * 31 * 31).wrapping_add(of_four)
}

impl Sums {
    // With a file.
    pub fn with_file(self, file: &[u8]) -> Sums {
        Sums {
            bytes: self.bytes.wrapping_add(file.len() as u64),
            files: file
                .iter()
                .fold(self.files, |sum, &b| next(sum, u64::from(b))),
            ..self
        }
    }

    // With a voice that was read as it was drawn.
    pub fn with_voice(self) -> Sums {
        Sums {
            voices: self.voices.wrapping_add(1),
            ..self
        }
    }

    // With a note's frames, so many of which aren't over. A value counts as its 16 bits.
    pub fn with_note(self, sounding: usize, values: &[i16]) -> Sums {
        let (fours, rest) = values.as_chunks::<4>();
        let frames = fours.iter().fold(self.frames, next_four);
        Sums {
            notes: self.notes.wrapping_add(1),
            sounding: self.sounding.wrapping_add(sounding as u64),
            frames: rest.iter().fold(frames, |sum, v| next(sum, bits(*v))),
            ..self
        }
    }
}
