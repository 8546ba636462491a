//! The model that a file stands for.
use crate::field::FieldList;
use crate::group::GroupList;
use crate::name::Name;
use crate::table::TableList;
use crate::term::TermList;

/// A gauge theory: its gauge groups, its fields, its tables and its terms.
#[derive(Drop)]
pub struct Model {
    /// The version of the file's format, 1.
    pub profile: u32,
    pub name: Name,
    pub groups: GroupList,
    /// Left-handed two-component Weyl fermions.
    pub fermions: FieldList,
    pub scalars: FieldList,
    pub tables: TableList,
    pub terms: TermList,
}
