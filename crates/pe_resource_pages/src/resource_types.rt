//! The names of types of resources.

ghost use Rattle.std.specs.Prelude.{◌≡◌, option_map};
ghost use Rattle.pe_head.specs.Names.{name_in};
ghost use Rattle.pe_resource_pages.specs.ResourceTypes.{resource_type_names};

use pe_head::{Named, name_among};

/// The types, without RT_ and in lower case (winuser.h of the Windows SDK).
static RESOURCE_TYPES: [Named; 21] = [
    (1, "cursor"),
    (2, "bitmap"),
    (3, "icon"),
    (4, "menu"),
    (5, "dialog"),
    (6, "string"),
    (7, "fontdir"),
    (8, "font"),
    (9, "accelerator"),
    (10, "rcdata"),
    (11, "messagetable"),
    (12, "group_cursor"),
    (14, "group_icon"),
    (16, "version"),
    (17, "dlginclude"),
    (19, "plugplay"),
    (20, "vxd"),
    (21, "anicursor"),
    (22, "aniicon"),
    (23, "html"),
    (24, "manifest"),
];

/// The name of a type of resources, like `group_icon`, or `None` if winuser.h has none for this number.
pub fn resource_type_name(kind: u32) -> Option<&'static str>
    ensures { option_map (λ name. name.now) result ≡ name_in resource_type_names kind }
{
    name_among(&RESOURCE_TYPES, kind)
}

/// The number of a type of resources whose name this is, in letters of either case.
pub fn resource_type_number(name: &str) -> Option<u32> {
    RESOURCE_TYPES
        .iter()
        .find(|(_, it)| it.eq_ignore_ascii_case(name))
        .map(|(kind, _)| *kind)
}
