// The rows as a link judges them: the first bad field of each, from left to right.

ghost use Rattle.std.specs.Prelude.{◌≡◌, ℕ, Option};
ghost use Rattle.line.specs.declared.kinds.LoadKind.{LoadKind};
ghost use Rattle.line.specs.declared.kinds.LoadKind.TheVariants as kind;
ghost use Rattle.tables.specs.Graph.{Graph};
ghost use Rattle.tables.specs.View.{graph, limits_of};
ghost use Rattle.links.specs.Rows.{bad_module, bad_symbol, bad_record, bad_module_of_statement, bad_uses, bad_reads, bad_member, bad_import, bad_export, bad_constant};

use crate::fields::{first_field, foreign, missing};
use line::{
    ConstantRow, ExportRow, ImportRow, LoadKind, MemberRow, ModuleIdx, ModuleRow, ReadsRow,
    RecordRow, SymbolRow, UsesRow,
};
use tables::Draft;
use values::{ExportClass, Imported, Resolution};

// A row that a link judges.
pub(crate) trait Judged {
    ghost TABLE: { LoadKind };

    // Its first bad field, by the limit of names and the graph that it stands in.
    ghost bad: { ℕ → Graph → Self → Option ℕ };

    const TABLE: LoadKind;

    // The first bad field; fields are counted from 1.
    // It takes the draft and not its slices: their contract would have to speak of every graph that they can show.
    fn bad_field(&self, draft: &Draft) -> Option<u8>
        ensures { result ≡ bad (limits_of draft.now).names (graph draft.now) self.now };
}

impl Judged for ModuleRow {
    ghost TABLE = { kind.Module };

    ghost bad = { bad_module };

    const TABLE: LoadKind = LoadKind::Module;

    fn bad_field(&self, draft: &Draft) -> Option<u8> {
        let symbols = draft.slices().symbols;
        first_field(&[
            (4, self.wrapper.is_some_and(|s| missing(symbols, s))),
            (8, self.namespace.is_some_and(|s| missing(symbols, s))),
        ])
    }
}

impl Judged for SymbolRow {
    ghost TABLE = { kind.Symbol };

    ghost bad = { bad_symbol };

    const TABLE: LoadKind = LoadKind::Symbol;

    fn bad_field(&self, draft: &Draft) -> Option<u8> {
        let seen = draft.slices();
        first_field(&[
            (1, missing(seen.modules, self.owner)),
            (2, missing(seen.symbols, self.canonical)),
            (3, missing(seen.symbols, self.through)),
        ])
    }
}

impl Judged for RecordRow {
    ghost TABLE = { kind.Record };

    ghost bad = { bad_record };

    const TABLE: LoadKind = LoadKind::Record;

    fn bad_field(&self, draft: &Draft) -> Option<u8> {
        let modules = draft.slices().modules;
        first_field(&[
            (1, missing(modules, self.module)),
            (3, self.importee.is_some_and(|m| missing(modules, m))),
        ])
    }
}

// A statement as the draft shows it, by its module; its flag cannot be bad.
impl Judged for ModuleIdx {
    ghost TABLE = { kind.Statement };

    ghost bad = { bad_module_of_statement };

    const TABLE: LoadKind = LoadKind::Statement;

    fn bad_field(&self, draft: &Draft) -> Option<u8> {
        first_field(&[(1, missing(draft.slices().modules, *self))])
    }
}

impl Judged for UsesRow {
    ghost TABLE = { kind.Uses };

    ghost bad = { bad_uses };

    const TABLE: LoadKind = LoadKind::Uses;

    fn bad_field(&self, draft: &Draft) -> Option<u8> {
        let seen = draft.slices();
        let module = seen.statements.get(usize::from(self.statement)).copied();
        first_field(&[
            (1, missing(seen.statements, self.statement)),
            // where the statement is missing, that comes first
            (2, foreign(seen.records, self.record, module.unwrap_or(0))),
        ])
    }
}

impl Judged for ReadsRow {
    ghost TABLE = { kind.Reads };

    ghost bad = { bad_reads };

    const TABLE: LoadKind = LoadKind::Reads;

    fn bad_field(&self, draft: &Draft) -> Option<u8> {
        let seen = draft.slices();
        first_field(&[
            (1, missing(seen.statements, self.statement)),
            (2, missing(seen.symbols, self.symbol)),
        ])
    }
}

impl Judged for MemberRow {
    ghost TABLE = { kind.Member };

    ghost bad = { bad_member };

    const TABLE: LoadKind = LoadKind::Member;

    fn bad_field(&self, draft: &Draft) -> Option<u8> {
        let seen = draft.slices();
        let unresolved = matches!(self.resolution, Resolution::To(s) if missing(seen.symbols, s));
        first_field(&[
            (1, missing(seen.statements, self.statement)),
            (2, missing(seen.symbols, self.object)),
            (3, self.property.is_some_and(|name| name >= seen.names)),
            (4, unresolved),
        ])
    }
}

impl Judged for ImportRow {
    ghost TABLE = { kind.Import };

    ghost bad = { bad_import };

    const TABLE: LoadKind = LoadKind::Import;

    fn bad_field(&self, draft: &Draft) -> Option<u8> {
        let seen = draft.slices();
        let too_high = matches!(self.name, Imported::Literal(name) if name >= seen.names);
        first_field(&[
            (1, missing(seen.modules, self.module)),
            (2, missing(seen.symbols, self.local)),
            (3, missing(seen.symbols, self.imported_as)),
            (4, foreign(seen.records, self.record, self.module)),
            (5, too_high),
        ])
    }
}

impl Judged for ExportRow {
    ghost TABLE = { kind.Export };

    ghost bad = { bad_export };

    const TABLE: LoadKind = LoadKind::Export;

    fn bad_field(&self, draft: &Draft) -> Option<u8> {
        let seen = draft.slices();
        let (reads_record, reads_imported) = match self.class {
            ExportClass::Local => (false, false),
            ExportClass::Indirect => (true, true),
            ExportClass::All => (true, false),
        };
        let bad_record = self
            .record
            .is_none_or(|r| foreign(seen.records, r, self.module));
        let bad_imported = self.imported.is_none_or(|name| name >= seen.names);
        first_field(&[
            (1, missing(seen.modules, self.module)),
            (2, self.name >= seen.names),
            (4, missing(seen.symbols, self.symbol)),
            (5, reads_record && bad_record),
            (6, reads_imported && bad_imported),
        ])
    }
}

impl Judged for ConstantRow {
    ghost TABLE = { kind.Constant };

    ghost bad = { bad_constant };

    const TABLE: LoadKind = LoadKind::Constant;

    fn bad_field(&self, draft: &Draft) -> Option<u8> {
        first_field(&[(1, missing(draft.slices().symbols, self.symbol))])
    }
}
