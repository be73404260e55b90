//! `name_of`: the names of values and flags, and those of types of debug data and of fields of the load configuration.

ghost use Rattle.std.specs.Prelude.{◌≡◌, option_map};
ghost use Rattle.c_tables.specs.TableNames.{table_name};

use pe_records::{debug_type_name, load_field_name};

/// What has names, besides what [`pe_records_c::name::named`] has.
pub mod named {
    /// A type of debug data.
    pub const DEBUG_TYPE: u32 = 6;
    /// A field of the load configuration, by its index.
    pub const LOAD_FIELD: u32 = 7;
}

/// The name of a value of this kind, or `None` if it has none or there is no such kind.
pub fn name_of(kind: u32, value: u32) -> Option<&'static str>
    ensures { option_map (λ name. name.now) result ≡ table_name kind value }
{
    match kind {
        named::DEBUG_TYPE => debug_type_name(value),
        named::LOAD_FIELD => load_field_name(value),
        _ => pe_records_c::name::name_of(kind, value),
    }
}
