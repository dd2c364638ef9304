//! Sources and bases become one profile: read in the order of the words, decoded, checked, merged, and subtracted.
//!
//! Loading is one stage over a desk. Which files are read, and in which order, is its script; what the bytes come to is
//! a plain definition beside it. The first refusal ends all, so that no later file is read.
//!
//! Begin with `loading`. `reading` reads each file, `decode` makes a profile of its bytes, and `combine` merges and
//! subtracts. `generator` makes a synthetic source. `laws` holds of any bytes.
#![tactic(auto)]

mod combine;
mod decode;
mod generator;
mod laws;
mod loading;
mod message;
mod reading;
mod refusal;

pub use generator::gen_profile;
pub use laws::{
    generated_loads, legacy_is_loaded_as_written, read_is_loaded, settled_files_load,
    written_is_loaded,
};
pub use loading::load;
pub use message::refusal_line;
pub use reading::limit_of_files;
pub use refusal::LoadRefusal;
