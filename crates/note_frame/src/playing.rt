// How a note plays.

// Held, or released at a frame.
#[derive(Clone, Copy)]
pub enum Key {
    Held,
    Released(u32),
}

// The octave, the velocity (1 to 127, how hard the key was struck), the step (65,536 is one sample a frame), the output rate, and the key. What
// a frame is depends on these and the voice alone.
#[derive(Clone, Copy)]
pub struct Playing {
    pub octave: u8,
    pub velocity: u8,
    pub step: u32,
    pub rate: u32,
    pub key: Key,
}
