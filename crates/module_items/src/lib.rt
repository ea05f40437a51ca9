//! The items of a module's sections, one by one: segments and custom sections as views, and items that are replaced, renamed or
//! removed.
#![tactic(auto)]

mod custom;
mod data;
mod elements;
mod exports;
mod imports;
mod limits;
mod memories;
mod new_exports;
mod passing;
mod replacing;
mod tables;

pub use custom::{custom_section, put_custom_section};
pub use data::{ActiveSegment, DataSegment, DataSegments, data_segments};
pub use elements::{Element, ElementSegment, ElementSegments, Elements, element_segments};
pub use exports::{remove_export, rename_export, replace_export};
pub use imports::rename_import;
pub use memories::set_memory_limits;
pub use new_exports::{NewExport, export_all};
pub use replacing::replace_item;
pub use tables::set_table_limits;
