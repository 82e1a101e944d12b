// What a step of measuring and a step of writing answer. Two types of one shape: the field's name says whether the number is a length or a place.
#![tactic(auto)]

use conversion::Entry;

// Measured, unless the step is refused: how many bytes it will take, with the element's entry after it.
#[derive(Clone, Copy)]
pub struct Measured {
    pub length: usize,
    pub entry: Entry,
}

// Written: where the next byte goes, with the element's entry after the step.
#[derive(Clone, Copy)]
pub struct Written {
    pub to: usize,
    pub entry: Entry,
}
