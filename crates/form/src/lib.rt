// The chunks of a FORM 8SVX: their names, the first bad one, and where the first of a name lies.
#![tactic(auto)]

mod judge;
mod names;
mod place;

pub use judge::first_bad;
pub use names::{
    ANNO, ATAK, AUTH, BODY, CHAN, CHRS, COPYRIGHT, FADE, FORM, FORM_TYPE, NAME, PAN, RLSE, SEQN,
    VHDR,
};
pub use place::{Place, find};
