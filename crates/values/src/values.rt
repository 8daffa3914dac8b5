// The values that a field can be, beside numbers, and their words.

ghost use Rattle.std.proofs.Common.{rules};
ghost use Rattle.values.specs.Values.{resolution_of, flag_word, inline_word, module_kind_word, exports_word, wrap_word, record_kind_word, class_word, target_word, flags, inline_modes, module_kinds, exports_kinds, wrap_kinds, record_kinds, export_classes, target_kinds};

use crate::choices::{Choice, Spelled};
use crate::fields::FromPart;

// Which constants are written in the place of their symbols.
#[derive(Debug, Clone, Copy, PartialEq, Eq)]
pub enum InlineConstMode {
    Off,
    Smart,
    All,
}

#[derive(Debug, Clone, Copy, PartialEq, Eq)]
pub enum ModuleKind {
    Normal,
    External,
}

#[derive(Debug, Clone, Copy, PartialEq, Eq)]
pub enum ExportsKind {
    None,
    Esm,
    CommonJs,
}

#[derive(Debug, Clone, Copy, PartialEq, Eq)]
pub enum WrapKind {
    None,
    Cjs,
    Esm,
}

#[derive(Debug, Clone, Copy, PartialEq, Eq)]
pub enum RecordKind {
    Import,
    Other,
}

// A local export entry, an indirect one, or `export * as`.
#[derive(Debug, Clone, Copy, PartialEq, Eq)]
pub enum ExportClass {
    Local,
    Indirect,
    All,
}

// Whether an init call is made to a module or to a carrier.
#[derive(Debug, Clone, Copy, PartialEq, Eq)]
pub enum TargetKind {
    Module,
    Carrier,
}

// What a member expression resolved to: not resolved, resolved to nothing, or to a symbol.
#[derive(Debug, Clone, Copy, PartialEq, Eq)]
pub enum Resolution {
    Open,
    Lost,
    To(u16),
}

// What an import asks for: the whole namespace, or one name.
// An option of a name would be no plainer: its `None` reads as an import of nothing, and this is one of everything.
#[derive(Debug, Clone, Copy, PartialEq, Eq)]
pub enum Imported {
    Namespace,
    Literal(u16),
}

impl Spelled for bool {
    ghost spelling = { flag_word };

    fn spelled(&self) -> &'static str {
        if *self { "1" } else { "0" }
    }
}

impl Choice for bool {
    ghost all = { flags };

    ghost read_back = { Prim.search rules };

    fn all() -> &'static [bool] {
        &[false, true]
    }
}

impl Spelled for InlineConstMode {
    ghost spelling = { inline_word };

    fn spelled(&self) -> &'static str {
        match self {
            InlineConstMode::Off => "none",
            InlineConstMode::Smart => "smart",
            InlineConstMode::All => "all",
        }
    }
}

impl Choice for InlineConstMode {
    ghost all = { inline_modes };

    ghost read_back = { Prim.search rules };

    fn all() -> &'static [InlineConstMode] {
        &[
            InlineConstMode::Off,
            InlineConstMode::Smart,
            InlineConstMode::All,
        ]
    }
}

impl Spelled for ModuleKind {
    ghost spelling = { module_kind_word };

    fn spelled(&self) -> &'static str {
        match self {
            ModuleKind::Normal => "normal",
            ModuleKind::External => "external",
        }
    }
}

impl Choice for ModuleKind {
    ghost all = { module_kinds };

    ghost read_back = { Prim.search rules };

    fn all() -> &'static [ModuleKind] {
        &[ModuleKind::Normal, ModuleKind::External]
    }
}

impl Spelled for ExportsKind {
    ghost spelling = { exports_word };

    fn spelled(&self) -> &'static str {
        match self {
            ExportsKind::None => "none",
            ExportsKind::Esm => "esm",
            ExportsKind::CommonJs => "cjs",
        }
    }
}

impl Choice for ExportsKind {
    ghost all = { exports_kinds };

    ghost read_back = { Prim.search rules };

    fn all() -> &'static [ExportsKind] {
        &[ExportsKind::None, ExportsKind::Esm, ExportsKind::CommonJs]
    }
}

impl Spelled for WrapKind {
    ghost spelling = { wrap_word };

    fn spelled(&self) -> &'static str {
        match self {
            WrapKind::None => "none",
            WrapKind::Cjs => "cjs",
            WrapKind::Esm => "esm",
        }
    }
}

impl Choice for WrapKind {
    ghost all = { wrap_kinds };

    ghost read_back = { Prim.search rules };

    fn all() -> &'static [WrapKind] {
        &[WrapKind::None, WrapKind::Cjs, WrapKind::Esm]
    }
}

impl Spelled for RecordKind {
    ghost spelling = { record_kind_word };

    fn spelled(&self) -> &'static str {
        match self {
            RecordKind::Import => "import",
            RecordKind::Other => "other",
        }
    }
}

impl Choice for RecordKind {
    ghost all = { record_kinds };

    ghost read_back = { Prim.search rules };

    fn all() -> &'static [RecordKind] {
        &[RecordKind::Import, RecordKind::Other]
    }
}

impl Spelled for ExportClass {
    ghost spelling = { class_word };

    fn spelled(&self) -> &'static str {
        match self {
            ExportClass::Local => "local",
            ExportClass::Indirect => "indirect",
            ExportClass::All => "all",
        }
    }
}

impl Choice for ExportClass {
    ghost all = { export_classes };

    ghost read_back = { Prim.search rules };

    fn all() -> &'static [ExportClass] {
        &[ExportClass::Local, ExportClass::Indirect, ExportClass::All]
    }
}

impl Spelled for TargetKind {
    ghost spelling = { target_word };

    fn spelled(&self) -> &'static str {
        match self {
            TargetKind::Module => "module",
            TargetKind::Carrier => "carrier",
        }
    }
}

impl Choice for TargetKind {
    ghost all = { target_kinds };

    ghost read_back = { Prim.search rules };

    fn all() -> &'static [TargetKind] {
        &[TargetKind::Module, TargetKind::Carrier]
    }
}

// `open`, `lost`, or the number of a symbol.
impl FromPart for Resolution {
    ghost written = { resolution_of };

    fn from_part(part: &[u8]) -> Option<Resolution> {
        match part {
            b"open" => Some(Resolution::Open),
            b"lost" => Some(Resolution::Lost),
            _ => u16::from_part(part).map(Resolution::To),
        }
    }
}
