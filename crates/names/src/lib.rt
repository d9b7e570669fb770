// Names of bytes by class, and name lists: which texts are one, the number of a name and the name of a number.
#![tactic(auto)]

mod classes;
mod lines;
mod list;
mod theorems;

pub use classes::{ByteClass, begins_name, class, continues_name};
pub use lines::MAX_NAME_BYTES;
pub use list::NameList;
pub use theorems::names_stand;
