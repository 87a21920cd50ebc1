//! The meaning of the definitions of modules (X.680): what names refer to, the numbers that values
//! are, what constraints permit, and tags. It does not allocate.
#![tactic(auto)]

mod characters;
mod constraints;
mod fields;
mod from_objects;
mod hash;
mod imports;
mod index;
mod instances;
mod limits;
mod names;
mod numbers;
mod object_sets;
mod permitted;
mod scope;
mod tags;

pub use characters::{CharacterRange, CharacterSet, MAX_RANGES, NO_CHARACTERS};
pub use constraints::permitted_by;
pub use fields::Field;
pub use hash::{LISTS, hash_of};
pub use index::{check_imports, index_definitions, number_types};
pub use instances::{Instance, MAX_INSTANCES, NO_INSTANCE, PARAMETERIZED, Walk, find_instances};
pub use names::MAX_STEPS;
pub use object_sets::Objects;
pub use permitted::{Hull, Permitted};
pub use scope::{Inside, Place, Scope};
pub use tags::{Tag, context};
