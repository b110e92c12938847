// Loop ends beside a crossing.
use print::{Samples, refused};
use std::io;
use voice::nearest_crossing;

fn crossing(rt: &impl Print, octave: &[i8], place: usize, reach: usize) -> io::Result<()> {
    print!(rt;
        "crossing of{} from {place} within {reach}:",
        Samples(octave)
    )?;
    match nearest_crossing(octave, place, reach) {
        Ok(place) => println!(rt; " {place}"),
        Err(refusal) => refused(rt, refusal.number()),
    }
}

pub fn run(rt: &impl Print) -> io::Result<()> {
    let octave = [3i8, -1, -2, 4, 5, 0];
    crossing(rt, &octave, 2, 1)?;
    crossing(rt, &octave, 2, 0)?;
    crossing(rt, &octave, 3, 0)?;
    crossing(rt, &octave, 0, 1)?;
    crossing(rt, &octave, 0, 0)?;
    crossing(rt, &octave, 5, 2)?;
    crossing(rt, &octave, 5, 1)?;
    crossing(rt, &octave, 6, 3)?;
    crossing(rt, &octave, 6, 2)?;
    crossing(rt, &octave, usize::MAX, usize::MAX)?;
    crossing(rt, &octave, usize::MAX, usize::MAX - 3)?;
    crossing(rt, &octave, usize::MAX, usize::MAX - 4)?;
    crossing(rt, &[-1], 0, 9)?;
    crossing(rt, &[], 0, 9)?;
    crossing(rt, &[0, 0], 1, 9)
}
