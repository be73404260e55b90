//! The keys of the fields of structures.

ghost use Rattle.std.specs.Prelude.{◌≡◌, option_map};
ghost use Rattle.pe_head.specs.Names.{name_in};
ghost use Rattle.pe_json.specs.StructureKeys.{clr_keys, load_keys};

use pe_head::{Named, name_among};

/// Those of the load configuration ("PE Format", Load Configuration Layout).
static LOAD_KEYS: [Named; 52] = [
    (0, "size"),
    (1, "time_date_stamp"),
    (2, "major_version"),
    (3, "minor_version"),
    (4, "global_flags_clear"),
    (5, "global_flags_set"),
    (6, "critical_section_default_timeout"),
    (7, "de_commit_free_block_threshold"),
    (8, "de_commit_total_free_threshold"),
    (9, "lock_prefix_table"),
    (10, "maximum_allocation_size"),
    (11, "virtual_memory_threshold"),
    (12, "process_affinity_mask"),
    (13, "process_heap_flags"),
    (14, "csd_version"),
    (15, "dependent_load_flags"),
    (16, "edit_list"),
    (17, "security_cookie"),
    (18, "se_handler_table"),
    (19, "se_handler_count"),
    (20, "guard_cf_check_function_pointer"),
    (21, "guard_cf_dispatch_function_pointer"),
    (22, "guard_cf_function_table"),
    (23, "guard_cf_function_count"),
    (24, "guard_flags"),
    (25, "code_integrity_flags"),
    (26, "code_integrity_catalog"),
    (27, "code_integrity_catalog_offset"),
    (28, "code_integrity_reserved"),
    (29, "guard_address_taken_iat_entry_table"),
    (30, "guard_address_taken_iat_entry_count"),
    (31, "guard_long_jump_target_table"),
    (32, "guard_long_jump_target_count"),
    (33, "dynamic_value_reloc_table"),
    (34, "chpe_metadata_pointer"),
    (35, "guard_rf_failure_routine"),
    (36, "guard_rf_failure_routine_function_pointer"),
    (37, "dynamic_value_reloc_table_offset"),
    (38, "dynamic_value_reloc_table_section"),
    (39, "reserved2"),
    (40, "guard_rf_verify_stack_pointer_function_pointer"),
    (41, "hot_patch_table_offset"),
    (42, "reserved3"),
    (43, "enclave_configuration_pointer"),
    (44, "volatile_metadata_pointer"),
    (45, "guard_eh_continuation_table"),
    (46, "guard_eh_continuation_count"),
    (47, "guard_xfg_check_function_pointer"),
    (48, "guard_xfg_dispatch_function_pointer"),
    (49, "guard_xfg_table_dispatch_function_pointer"),
    (50, "cast_guard_os_determined_failure_mode"),
    (51, "guard_memcpy_function_pointer"),
];

/// Those of the CLR header (ECMA-335, II.25.3.3).
static CLR_KEYS: [Named; 19] = [
    (0, "cb"),
    (1, "major_runtime_version"),
    (2, "minor_runtime_version"),
    (3, "meta_data_rva"),
    (4, "meta_data_size"),
    (5, "flags"),
    (6, "entry_point_token"),
    (7, "resources_rva"),
    (8, "resources_size"),
    (9, "strong_name_signature_rva"),
    (10, "strong_name_signature_size"),
    (11, "code_manager_table_rva"),
    (12, "code_manager_table_size"),
    (13, "vtable_fixups_rva"),
    (14, "vtable_fixups_size"),
    (15, "export_address_table_jumps_rva"),
    (16, "export_address_table_jumps_size"),
    (17, "managed_native_header_rva"),
    (18, "managed_native_header_size"),
];

/// The key of field `index` of the load configuration.
pub(crate) fn load_key(index: u32) -> Option<&'static str>
    ensures { option_map (λ key. key.now) result ≡ name_in load_keys index }
{
    name_among(&LOAD_KEYS, index)
}

/// The key of field `index` of the CLR header.
pub(crate) fn clr_key(index: u32) -> Option<&'static str>
    ensures { option_map (λ key. key.now) result ≡ name_in clr_keys index }
{
    name_among(&CLR_KEYS, index)
}
