// What a network's sizes ask of the picture's file, and tell the morning.
use crate::print::{Call, Output, Refused};
use crate::{input, print};
use refusals::refusal::Refusal;
use std::rt::Env;

// The bytes that the layers make, and those of a reading.
#[derive(Clone, Copy)]
pub struct Lengths {
    pub made: usize,
    pub reading: usize,
}

// The network must be taken, and the picture's file, which word 2 names, have the picture's length.
pub fn fit(rt: &impl Env, to: &Output, file: &[u8], length: usize) -> Option<Lengths> {
    let sizes = clew::sizes(file);
    if let Ok(why) = Refusal::try_from(sizes.number) {
        let call = Call::Sizes;
        print::refusal(to, Refused { call, why });
        return None;
    }
    if length != sizes.picture {
        input::say_word(rt, to, 2);
        print::other_length(to, length, sizes.picture);
        return None;
    }
    Some(Lengths {
        made: sizes.area.saturating_sub(sizes.picture),
        reading: sizes.reading,
    })
}
