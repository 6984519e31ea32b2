//! The tables of the desk as SQL sees them: how they are declared, what each statement and query
//! on them means, and what such a change or question comes to where the rows of a table spell a
//! finite map; and what calls do to a connection, whatever its tables are.
#![tactic(auto)]

mod desk;
mod same;
mod schema;

pub use desk::desk_tree;
pub use same::same_schema;
pub use schema::{has_desk, has_desk_columns, has_foreign_desk, is_blank};
