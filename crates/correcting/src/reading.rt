// A new reading of one position: whose it is, and the energy of real time in kWh.
#[derive(Clone, Copy)]
pub struct Reading {
    pub account: u8,
    pub node: u8,
    pub hour: u8,
    // The number that the day file has for the class: no Class, since a reading of an unknown class is refused in its turn.
    pub class: u8,
    pub real_time: u32,
}
