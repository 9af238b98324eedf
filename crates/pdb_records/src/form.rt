//! Which kind has which form.

ghost use Rattle.std.specs.Prelude.{◌≡◌};
ghost use Rattle.pdb_records.specs.RecordRows.{record_row, record_row_in, older_record_rows, middle_record_rows, newer_record_rows};

// The form of a further record: how its fields stand behind its kind, and which variant of `Record` it is.
#[derive(Clone, Copy)]
pub(crate) enum RecordForm {
    FrameProcedure,
    BasePointerRelative,
    DefRange,
    DefRangeSubfield,
    DefRangeRegister,
    DefRangeFramePointerRelative,
    DefRangeSubfieldRegister,
    DefRangeFramePointerRelativeFullScope,
    DefRangeRegisterRelative,
    FileStatic,
    FrameCookie,
    CallSiteInfo,
    HeapAllocationSite,
    FunctionList,
    JumpTable,
    CoffGroup,
    Section,
    EnvironmentBlock,
    Annotation,
    PogoData,
    HotPatchFunction,
    ManagedProcedure,
    TokenReference,
    Oem,
    LocalGroupShared,
    PointerTagMap,
    RegisterRelativeOld,
    With,
    VirtualTablePath,
    ModuleTypeReference,
    MiniReference,
    Discarded,
    Compile,
    StartSearch,
    EndOfArguments,
    Slot,
    ManagedSlot,
    ManagedFrameRelative,
    ManagedRegister,
    ManagedRegisterRelative,
}

// Kinds below 0x1100.
#[inline]
fn older_record_form(kind: u16) -> Option<RecordForm>
    ensures { result ≡ record_row_in older_record_rows kind }
{
    match kind {
        0x1012 => Some(RecordForm::FrameProcedure),
        0x1006 => Some(RecordForm::BasePointerRelative),
        0x1019 => Some(RecordForm::Annotation),
        0x101a | 0x101b => Some(RecordForm::ManagedProcedure),
        0x0404 => Some(RecordForm::Oem),
        0x100d => Some(RecordForm::RegisterRelativeOld),
        0x0208 => Some(RecordForm::With),
        0x100c => Some(RecordForm::VirtualTablePath),
        0x0001 => Some(RecordForm::Compile),
        0x0005 => Some(RecordForm::StartSearch),
        0x000a => Some(RecordForm::EndOfArguments),
        0x1017 | 0x1018 => Some(RecordForm::Slot),
        0x1024 => Some(RecordForm::ManagedSlot),
        0x1022 => Some(RecordForm::ManagedFrameRelative),
        0x1023 => Some(RecordForm::ManagedRegister),
        0x1026 => Some(RecordForm::ManagedRegisterRelative),
        _ => None,
    }
}

// Kinds from 0x1100 to 0x113f.
#[inline]
fn middle_record_form(kind: u16) -> Option<RecordForm>
    ensures { result ≡ record_row_in middle_record_rows kind }
{
    match kind {
        0x110b => Some(RecordForm::BasePointerRelative),
        0x1129 => Some(RecordForm::TokenReference),
        0x112a | 0x112b => Some(RecordForm::ManagedProcedure),
        0x1136 => Some(RecordForm::Section),
        0x1137 => Some(RecordForm::CoffGroup),
        0x1139 => Some(RecordForm::CallSiteInfo),
        0x113a => Some(RecordForm::FrameCookie),
        0x113d => Some(RecordForm::EnvironmentBlock),
        0x113f => Some(RecordForm::DefRange),
        0x1104 => Some(RecordForm::With),
        0x113b => Some(RecordForm::Discarded),
        0x111a | 0x111b => Some(RecordForm::Slot),
        0x1120 => Some(RecordForm::ManagedSlot),
        0x111e | 0x112e => Some(RecordForm::ManagedFrameRelative),
        0x111f | 0x112f => Some(RecordForm::ManagedRegister),
        0x1122 | 0x1130 => Some(RecordForm::ManagedRegisterRelative),
        _ => None,
    }
}

// The others.
#[inline]
fn newer_record_form(kind: u16) -> Option<RecordForm>
    ensures { result ≡ record_row_in newer_record_rows kind }
{
    match kind {
        0x1140 => Some(RecordForm::DefRangeSubfield),
        0x1141 => Some(RecordForm::DefRangeRegister),
        0x1142 => Some(RecordForm::DefRangeFramePointerRelative),
        0x1143 => Some(RecordForm::DefRangeSubfieldRegister),
        0x1144 => Some(RecordForm::DefRangeFramePointerRelativeFullScope),
        0x1145 => Some(RecordForm::DefRangeRegisterRelative),
        0x1153 => Some(RecordForm::FileStatic),
        0x1159 => Some(RecordForm::JumpTable),
        0x115a | 0x115b | 0x1168 => Some(RecordForm::FunctionList),
        0x115c => Some(RecordForm::PogoData),
        0x115e => Some(RecordForm::HeapAllocationSite),
        0x1169 => Some(RecordForm::HotPatchFunction),
        0x1154 => Some(RecordForm::LocalGroupShared),
        0x1158 => Some(RecordForm::PointerTagMap),
        0x115f => Some(RecordForm::ModuleTypeReference),
        0x1160 => Some(RecordForm::MiniReference),
        _ => None,
    }
}

// The form of the records of a kind.
#[inline]
pub(crate) fn record_form_of(kind: u16) -> Option<RecordForm>
    ensures { result ≡ record_row kind }
{
    match kind {
        0..0x1100 => older_record_form(kind),
        0x1100..0x1140 => middle_record_form(kind),
        _ => newer_record_form(kind),
    }
}
