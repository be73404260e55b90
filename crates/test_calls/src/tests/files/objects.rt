//! Auxiliary records that no object file has.

use super::o1::{list, with_sections};
use crate::tests::asserts::assert_holds;
use coff_object::{Aux, Symbol, SymbolSection};

/// Two records of a file's name and two bytes of a third. [`VIEWS`] has indexes of records, and the view of each.
const AUX: &[u8] = b"a.c\x00............../b.h\x00..............x";

const VIEWS: &[(usize, Option<Aux<'static>>)] = &[
    (0, Some(Aux::File { name: b"a.c" })),
    (1, Some(Aux::File { name: b"/b.h" })),
    (2, None),
    (usize::MAX, None),
];

#[test]
fn bytes_behind_whole_auxiliary_records_are_none(rt: HostRuntime) {
    let symbol = Symbol {
        name: b"s",
        value: 0,
        section: SymbolSection::Debug,
        kind: 0,
        class: 103,
        aux: AUX,
    };
    let symbols = list(&rt, rt.alloc(), [symbol]);
    let object = with_sections(0x8664, Vec::new(rt.alloc()), symbols);
    for (record, expected) in VIEWS {
        assert_holds(&rt, *record, object.aux_view(0, *record) == *expected);
    }
    assert_holds(&rt, 1, object.aux_view(1, 0).is_none());
}
