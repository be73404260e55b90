//! Keys, targets, exports and imports of different origin, compared by value.

use pe_tables::{Import, Key, Target};

/// Whether two keys are equal.
pub fn same_key(key: &Key, other: &Key) -> bool {
    match (key, other) {
        (Key::Ordinal(ordinal), Key::Ordinal(other)) => *ordinal == *other,
        (Key::Name(name), Key::Name(other)) => **name == **other,
        _ => false,
    }
}

/// Whether two targets are equal.
pub fn same_target(target: &Target, other: &Target) -> bool {
    match (target, other) {
        (Target::Rva(rva), Target::Rva(other)) => *rva == *other,
        (
            Target::Forward { module, key },
            Target::Forward {
                module: other,
                key: other_key,
            },
        ) => **module == **other && same_key(key, other_key),
        _ => false,
    }
}

/// Whether two imports are equal.
pub fn same_import(import: &Import, other: &Import) -> bool {
    *import.module == *other.module
        && same_key(&import.key, &other.key)
        && import.slot == other.slot
}

/// Whether two lists have the same exports by name.
pub fn same_names(found: &[(&[u8], Target)], expected: &[(&[u8], Target)]) -> bool {
    if found.len() != expected.len() {
        return false;
    }
    for index in 0..found.len() {
        let (name, target) = &found[index];
        let (other, expected) = &expected[index];
        if **name != **other || !same_target(target, expected) {
            return false;
        }
    }
    true
}

/// Whether two lists have the same imports.
pub fn same_imports(found: &[Import], expected: &[Import]) -> bool {
    if found.len() != expected.len() {
        return false;
    }
    for index in 0..found.len() {
        if !same_import(&found[index], &expected[index]) {
            return false;
        }
    }
    true
}
