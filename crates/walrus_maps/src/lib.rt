//! Index maps: from the indices of a module that is read to ids, and from ids to the indices of a
//! module that is written.
#![tactic(auto)]

mod function_locals;
mod growth;
mod id_list;
mod id_numbers;
mod ids_to_indices;
mod indices_to_ids;
mod room;

pub use ids_to_indices::{IdsToIndices, law_numbers_of_pushes};
pub use indices_to_ids::IndicesToIds;
pub use room::{list_with_room, make_room};
