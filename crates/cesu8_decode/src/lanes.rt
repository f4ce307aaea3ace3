//! Vector code for 32 or 64 bytes, with no branch on single bytes. A module uses only those above:

pub mod tables; // look-ups in tables of sixteen entries, and shifts from one vector to the next
pub mod character_set; // sets of characters, as tables of which byte can follow which
pub mod following; // tests of which bytes can follow which in whole characters of a set
pub mod padded; // at most 64 bytes as one vector
pub mod masks; // which character begins at each offset, as masks of 64 bits
pub mod windows; // the events of 64 bytes, and where the last character ends
