//! Pieces of what ember-mesh says: its lines, counts, steps, lengths and corners in the user's unit, and objects,
//! arrays and strings of JSON.
#![tactic(auto)]

mod objects;
mod texts;

pub use objects::{
    Member, array, keyed, number, object, object_line, optional, string, truth_value,
};
pub use texts::{
    PLACES, line, name_among, put_corner, put_count, put_length, put_move, put_signed, put_size,
    put_step, put_value, wanted_text,
};
