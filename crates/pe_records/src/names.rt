//! The names of types of debug data and of fields of the load configuration.

ghost use Rattle.std.specs.Prelude.{◌≡◌, option_map};
ghost use Rattle.pe_head.specs.Names.{name_in};
ghost use Rattle.pe_records.specs.TableNames.{debug_type_names, load_field_names};

use crate::debug::debug_type;
use pe_head::{Named, name_among};

/// The types, without IMAGE_DEBUG_TYPE_ ("PE Format", Debug Type).
static DEBUG_TYPES: [Named; 20] = [
    (0, "UNKNOWN"),
    (1, "COFF"),
    (debug_type::CODE_VIEW, "CODEVIEW"),
    (3, "FPO"),
    (4, "MISC"),
    (5, "EXCEPTION"),
    (6, "FIXUP"),
    (7, "OMAP_TO_SRC"),
    (8, "OMAP_FROM_SRC"),
    (9, "BORLAND"),
    (10, "RESERVED10"),
    (11, "CLSID"),
    (debug_type::VC_FEATURE, "VC_FEATURE"),
    (debug_type::POGO, "POGO"),
    (14, "ILTCG"),
    (15, "MPX"),
    (debug_type::REPRO, "REPRO"),
    (17, "EMBEDDED_PDB"),
    (debug_type::PDB_CHECKSUM, "PDBCHECKSUM"),
    (debug_type::EX_DLL_CHARACTERISTICS, "EX_DLLCHARACTERISTICS"),
];

/// The fields, by index ("PE Format", Load Configuration Layout).
static LOAD_FIELDS: [Named; 52] = [
    (0, "Size"),
    (1, "TimeDateStamp"),
    (2, "MajorVersion"),
    (3, "MinorVersion"),
    (4, "GlobalFlagsClear"),
    (5, "GlobalFlagsSet"),
    (6, "CriticalSectionDefaultTimeout"),
    (7, "DeCommitFreeBlockThreshold"),
    (8, "DeCommitTotalFreeThreshold"),
    (9, "LockPrefixTable"),
    (10, "MaximumAllocationSize"),
    (11, "VirtualMemoryThreshold"),
    (12, "ProcessAffinityMask"),
    (13, "ProcessHeapFlags"),
    (14, "CSDVersion"),
    (15, "DependentLoadFlags"),
    (16, "EditList"),
    (17, "SecurityCookie"),
    (18, "SEHandlerTable"),
    (19, "SEHandlerCount"),
    (20, "GuardCFCheckFunctionPointer"),
    (21, "GuardCFDispatchFunctionPointer"),
    (22, "GuardCFFunctionTable"),
    (23, "GuardCFFunctionCount"),
    (24, "GuardFlags"),
    (25, "CodeIntegrity.Flags"),
    (26, "CodeIntegrity.Catalog"),
    (27, "CodeIntegrity.CatalogOffset"),
    (28, "CodeIntegrity.Reserved"),
    (29, "GuardAddressTakenIatEntryTable"),
    (30, "GuardAddressTakenIatEntryCount"),
    (31, "GuardLongJumpTargetTable"),
    (32, "GuardLongJumpTargetCount"),
    (33, "DynamicValueRelocTable"),
    (34, "CHPEMetadataPointer"),
    (35, "GuardRFFailureRoutine"),
    (36, "GuardRFFailureRoutineFunctionPointer"),
    (37, "DynamicValueRelocTableOffset"),
    (38, "DynamicValueRelocTableSection"),
    (39, "Reserved2"),
    (40, "GuardRFVerifyStackPointerFunctionPointer"),
    (41, "HotPatchTableOffset"),
    (42, "Reserved3"),
    (43, "EnclaveConfigurationPointer"),
    (44, "VolatileMetadataPointer"),
    (45, "GuardEHContinuationTable"),
    (46, "GuardEHContinuationCount"),
    (47, "GuardXFGCheckFunctionPointer"),
    (48, "GuardXFGDispatchFunctionPointer"),
    (49, "GuardXFGTableDispatchFunctionPointer"),
    (50, "CastGuardOsDeterminedFailureMode"),
    (51, "GuardMemcpyFunctionPointer"),
];

/// The name of a type of debug data, like `CODEVIEW`, or `None` if there is none for this value.
pub fn debug_type_name(kind: u32) -> Option<&'static str>
    ensures { option_map (λ name. name.now) result ≡ name_in debug_type_names kind }
{
    name_among(&DEBUG_TYPES, kind)
}

/// The name of field `index` of the load configuration, like `SecurityCookie`, or `None` if it has fewer fields.
pub fn load_field_name(index: u32) -> Option<&'static str>
    ensures { option_map (λ name. name.now) result ≡ name_in load_field_names index }
{
    name_among(&LOAD_FIELDS, index)
}
